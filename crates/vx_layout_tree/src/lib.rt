//! Layouts of all kinds in memory: constructors, and what a layout tells of itself.
#![tactic(auto)]

mod children;
mod chunked;
mod copy;
mod dict;
mod display;
mod error;
mod flat;
mod foreign;
mod kind;
mod kind_ref;
mod layout;
mod list;
mod own;
mod parts;
mod rebuilt;
mod shape;
mod stats;
mod structs;
mod total;
mod zoned;

pub use children::{LayoutChildren, ViewedChildren, layout_children};
pub use chunked::ChunkedLayout;
pub use dict::DictLayout;
pub use display::SegmentList;
pub use error::LayoutError;
pub use flat::FlatLayout;
pub use foreign::ForeignLayout;
pub use kind::LayoutKind;
pub use kind_ref::KindRef;
pub use layout::{Layout, drop_layout};
pub use list::ListLayout;
pub use own::{
    ELEMENTS_CHILD_INDEX, NUM_CHILDREN_NON_NULLABLE, OFFSETS_CHILD_INDEX, VALIDITY_CHILD_INDEX,
};
pub use parts::{KindParts, LayoutHead, LayoutParts};
pub use shape::integers_in;
pub use stats::LegacyStatsLayout;
pub use structs::StructLayout;
pub use total::total_rows;
pub use zoned::ZonedLayout;
