//! How many tasks are ready below each child of a task, kept from step to step, so that a step counts anew only what it may
//! have changed.
#![tactic(auto)]

mod counts;

pub use counts::{Counts, Touched, top_up};
