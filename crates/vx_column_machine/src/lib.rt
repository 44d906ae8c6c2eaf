//! A column's own machine: it writes a column of a struct by itself, and hands its segments out one by one.
#![tactic(auto)]

mod column;

pub use column::ColumnMachine;
