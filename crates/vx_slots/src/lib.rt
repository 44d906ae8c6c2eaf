//! A table of cells: the place of each is found by its hash.
#![tactic(auto)]

mod hash;
mod same;
mod slots;
mod table;

pub use table::CellTable;
