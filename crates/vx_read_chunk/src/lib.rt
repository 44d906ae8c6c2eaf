//! The rows of a layout as chunks: what is in memory is what the chunks of its segments take, however many rows these have.
#![tactic(auto)]

mod columns;
mod flat;
mod held;
mod holding;
mod reading;

pub use held::{HeldPart, HeldRows};
pub use reading::read_chunk;
