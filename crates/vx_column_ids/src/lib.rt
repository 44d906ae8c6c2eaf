//! The ids of a struct's columns: the paths that its node makes of its batches' paths, each column's in a universe of its own.
#![tactic(auto)]

mod ids;
mod part;
mod parts;

pub use part::ColumnPart;
pub use parts::{column_parts, give_up_parts};
pub use vx_sequence::SequenceError;
