//! The slots of a layout, what its children are to it, and the metadata of its kind.
#![tactic(auto)]

mod child_type;
mod child_types;
mod layout_slots;
mod metadata;
mod slot_walk;
mod slots;

pub use child_type::LayoutChildType;
pub use child_types::{ChildNames, ChildRowOffsets, ChildTypes};
pub use layout_slots::LayoutSlots;
