//! What a write answers, whoever does it: why it was refused, and its steps. It stands below all that write.
#![tactic(auto)]

mod error;
mod step;

pub use error::WriteError;
pub use step::{ActionKind, Step};
