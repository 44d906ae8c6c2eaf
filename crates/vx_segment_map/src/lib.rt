//! Segments by their numbers, and why a layout gives no rows.
#![tactic(auto)]

mod error;
mod segments;

pub use error::ReadError;
pub use segments::SegmentMap;
