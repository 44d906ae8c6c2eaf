//! The segments of a layout in pre-order, as contracts see them.
#![tactic(auto)]
