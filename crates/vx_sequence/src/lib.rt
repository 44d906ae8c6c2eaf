//! Sequence ids: in which order segments are written, whoever makes them.
#![tactic(auto)]

mod active;
mod blocks;
mod comparisons;
mod entries;
mod errors;
mod ids;
mod pointers;
pub mod runs;
mod siblings;

pub use active::Universe;
pub use comparisons::Steps;
pub use errors::SequenceError;
pub use ids::SequenceId;
pub use pointers::SequencePointer;
