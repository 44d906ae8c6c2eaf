//! How many rows a layout gives, read a part at a time.
#![tactic(auto)]

mod child;
mod counting;

pub use child::child_there;
pub use counting::count_rows;
