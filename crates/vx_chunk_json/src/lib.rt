//! Types, cells, chunks and batches of a job, read from JSON.
#![tactic(auto)]

mod batches;
mod cells;
mod chunks;
mod encodings;
mod lists;
mod types;

pub use batches::{read_batch, read_batches};
pub use cells::read_cell;
pub use chunks::read_chunk;
pub use types::read_type;
