//! Paths: lists of numbers in lexicographic order, a prefix before its extensions.
#![tactic(auto)]

pub mod owned;
