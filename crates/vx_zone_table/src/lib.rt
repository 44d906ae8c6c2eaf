//! The zone table of a column, from the records of its zones.
#![tactic(auto)]

mod builder;
mod cells;
mod column;
mod fill;
mod held;
mod order;
mod parts;

pub use builder::ZoneTableBuilder;
