//! Gates: what a column's worker passes before its compressor's calls.
#![tactic(auto)]

mod gate;
mod gated;

pub use gate::{Gate, NoGate};
pub use gated::Gated;
