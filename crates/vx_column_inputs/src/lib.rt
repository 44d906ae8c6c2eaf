//! What the workers of a write by columns are given.
#![tactic(auto)]

mod inputs;
mod reading;

pub use inputs::{Columns, Input, prepared};
