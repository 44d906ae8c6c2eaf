//! Writing a stream of batches as segments and a layout.
#![tactic(auto)]

pub mod laws;
mod lent;
mod tasks;
mod write;

pub use vx_column_ways::column_count;
pub use vx_write_answer::{ActionKind, Step, WriteError};
pub use write::{Refused, Written, write_stream};
