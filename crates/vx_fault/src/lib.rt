//! What objects of the outside tell: counts of faults, calls that fail by a list, contents.
#![tactic(auto)]

mod fails;
mod fallible;

pub use fails::Fails;
pub use fallible::Fallible;
