//! What the columns of a struct are written by, and how many there are.
#![tactic(auto)]

mod count;
mod ways;

pub use count::column_count;
pub use ways::{ColumnWay, column_ways};
