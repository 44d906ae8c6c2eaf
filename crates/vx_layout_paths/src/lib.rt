//! The paths of a layout's segments.
#![tactic(auto)]

mod taking;

pub use taking::paths_in_order;
