//! Columns of typed values, which stand for cells: numbers and Bools, with which of them are valid; rows that are lent.
//! A part of a column shares its memory.
#![tactic(auto)]

mod flags;
mod leaf;
mod leaves;
mod lent;
mod read;
mod shared;
mod written;

pub use flags::{Flags, needed};
pub use leaf::Leaf;
pub use leaves::Leaves;
pub use lent::{Lent, lend_cell, own_cell};
pub use shared::Shared;
