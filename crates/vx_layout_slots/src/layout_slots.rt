//! What a layout tells of its slots, and its metadata.

use crate::child_type::LayoutChildType;
use crate::child_types::{ChildNames, ChildRowOffsets, ChildTypes};
use crate::metadata::metadata_of;
use crate::slots::{place_of, slot_count, type_of_slot};
use std::alloc::{AllocError, Global};
use vx_layout_tree::Layout;

/// Calls of `Layout` that tell of its slots, of what is in them, and of its metadata.
pub trait LayoutSlots {
    ghost use Rattle.std.specs.Prelude.{◌≡◌, ℕ, IfOk};
    ghost use Rattle.vx_layout_spec.specs.LayoutTree.{LayoutData};
    ghost use Rattle.vx_metadata.specs.Kept.{metadata_bytes};
    ghost use Rattle.vx_layout_slots.specs.Slots.{slots, slot_place, slot_type as type_in_slot};
    ghost use Rattle.vx_layout_slots.specs.SlotTypes.{child_types as all_types, child_names as all_names, child_row_offsets as all_offsets};
    ghost use Rattle.vx_layout_slots.specs.SlotWalk.{types_left, names_left, rows_left};

    // The layout that it is.
    ghost slotted: { Self → LayoutData ℕ };

    /// How many slots there are, also those that have no child.
    fn nslots(&self) -> u64
        ensures { result ≡ slots (slotted self.now) };

    /// The place among the children of the child in the slot.
    fn slot_to_child(&self, slot: u64) -> Option<u64>
        ensures { result ≡ slot_place (slotted self.now) slot };

    /// What a child in the slot is, also where there is none.
    fn slot_type(&self, alloc: Global, slot: u64) -> Result<Option<LayoutChildType>, AllocError>
        ensures { IfOk result (λ o. o ≡ type_in_slot (slotted self.now) slot) };

    /// What each child is, in slot order. Takes no memory before the first.
    fn child_types(&self, alloc: Global) -> ChildTypes<'_>
        ensures { types_left result ≡ all_types (slotted self.now) };

    /// The name of each child, in slot order. Takes no memory before the first.
    fn child_names(&self, alloc: Global) -> ChildNames<'_>
        ensures { names_left result ≡ all_names (slotted self.now) };

    /// The layout's row at which each child begins, where it has rows of the layout. Takes no memory.
    fn child_row_offsets(&self) -> ChildRowOffsets<'_>
        ensures { rows_left result ≡ all_offsets (slotted self.now) };

    /// The bytes that a reader needs besides the children.
    fn metadata(&self, alloc: Global) -> Result<Vec<u8>, AllocError>
        ensures { IfOk result (λ v. v.items ≡ metadata_bytes (slotted self.now)) };
}

impl LayoutSlots for Layout {
    ghost use Rattle.std.specs.Prelude.{◌≡◌, IfOk};
    ghost use Rattle.vx_metadata.specs.Kept.{metadata_bytes};
    ghost use Rattle.vx_layout_tree.specs.LayoutView.{layout_data};
    ghost use Rattle.vx_layout_slots.specs.Slots.{slots, slot_place, slot_type as type_in_slot};
    ghost use Rattle.vx_layout_slots.specs.SlotTypes.{child_types as all_types, child_names as all_names, child_row_offsets as all_offsets};
    ghost use Rattle.vx_layout_slots.specs.SlotWalk.{types_left, names_left, rows_left};

    ghost slotted = { layout_data };

    fn nslots(&self) -> u64
        ensures { result ≡ slots (layout_data self.now) }
    {
        slot_count(self)
    }

    fn slot_to_child(&self, slot: u64) -> Option<u64>
        ensures { result ≡ slot_place (layout_data self.now) slot }
    {
        place_of(self, slot)
    }

    fn slot_type(&self, alloc: Global, slot: u64) -> Result<Option<LayoutChildType>, AllocError>
        ensures { IfOk result (λ o. o ≡ type_in_slot (layout_data self.now) slot) }
    {
        type_of_slot(alloc, self, slot)
    }

    fn child_types(&self, alloc: Global) -> ChildTypes<'_>
        ensures { types_left result ≡ all_types (layout_data self.now) }
    {
        ChildTypes::new(alloc, self)
    }

    fn child_names(&self, alloc: Global) -> ChildNames<'_>
        ensures { names_left result ≡ all_names (layout_data self.now) }
    {
        ChildNames::new(alloc, self)
    }

    fn child_row_offsets(&self) -> ChildRowOffsets<'_>
        ensures { rows_left result ≡ all_offsets (layout_data self.now) }
    {
        ChildRowOffsets::new(self)
    }

    fn metadata(&self, alloc: Global) -> Result<Vec<u8>, AllocError>
        ensures { IfOk result (λ v. v.items ≡ metadata_bytes (layout_data self.now)) }
    {
        metadata_of(alloc, self)
    }
}
