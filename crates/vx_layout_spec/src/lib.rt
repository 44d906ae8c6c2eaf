//! The tree of a layout as contracts see it, and the rows that it gives.
#![tactic(auto)]
