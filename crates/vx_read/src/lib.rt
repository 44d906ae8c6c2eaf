//! Reading rows back: a layout and its segments give the rows that were written.
#![tactic(auto)]

mod counts;
mod dicts;
mod flat;
mod law;
mod lists;
mod nodes;
mod reading;
mod structs;

pub use law::rows_without_fault;
pub use reading::read_rows;
pub use vx_segment_map::{ReadError, SegmentMap};
