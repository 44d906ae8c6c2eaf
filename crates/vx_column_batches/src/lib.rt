//! Batches split into the columns of their struct.
#![tactic(auto)]

mod split;

pub use split::split_all;
pub use vx_split::SplitError;
