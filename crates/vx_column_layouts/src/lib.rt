//! The layout of columns that were written beside each other.
#![tactic(auto)]

mod numbers;

pub use numbers::{Outcome, joined};
