//! Laws of walks over the nodes of a layout, each of which is built or can't be. No code.
#![tactic(auto)]
