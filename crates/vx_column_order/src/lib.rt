//! The order of a column: a universe of its own, and a seat at a sink that columns share.
#![tactic(auto)]

mod column;

pub use column::ColumnOrder;
