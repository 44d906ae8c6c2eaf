//! Layouts with other numbers of their segments.
#![tactic(auto)]

mod numbering;

pub use numbering::renumbered;
