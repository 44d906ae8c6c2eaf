//! The fields of a struct layout that masks mean.
#![tactic(auto)]

mod layout_fields;
mod matching;

pub use layout_fields::LayoutFields;
