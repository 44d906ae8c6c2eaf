//! How tasks start: those of each kind of node, with the children that start with them.
#![tactic(auto)]

mod columns_start;
mod grouped_start;
mod pressing_start;
mod start;
mod zoned_start;

pub use grouped_start::child_parts;
pub use start::{next_name, start_task, start_under};
