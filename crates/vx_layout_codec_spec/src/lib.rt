//! What the bytes of a layout are in a context, and what bytes are built into: definitions and laws.
//! The functions here have empty bodies; their contracts are laws, proved for every layout.
#![tactic(auto)]

mod law;

pub use law::{parsed_is_spelled, spelled_is_parsed};
