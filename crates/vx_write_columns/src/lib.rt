//! A write by columns, each in a thread of its own, over one sink.
#![tactic(auto)]

mod write;

pub use vx_gate::{Gate, NoGate};
pub use vx_write::column_count;
pub use write::write_columns;
