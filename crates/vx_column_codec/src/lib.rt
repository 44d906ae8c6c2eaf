//! The bytes of columns, both ways.
#![tactic(auto)]

mod leaves;
mod read;
mod readable;
mod strings;
mod write;

pub use read::read_column;
pub use write::push_column;
