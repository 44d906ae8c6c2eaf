//! The guard of zones: the record of each chunk of a stream, and the chunks that make no zones.
#![tactic(auto)]

mod error;
mod guard;

pub use error::GuardError;
pub use guard::ZoneGuard;
