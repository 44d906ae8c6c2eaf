//! What the children of a layout are to it, in slot order.

ghost use Rattle.std.specs.Prelude.{◌≡◌, Some, IfOk, IsSome};
ghost use Rattle.vx_layout_slots.specs.Slots.{slot_type, child_name};
ghost use Rattle.vx_layout_tree.specs.LayoutView.{layout_data};
ghost use Rattle.vx_layout_slots.specs.SlotTypes.{chunk_row};
ghost use Rattle.vx_layout_slots.specs.SlotWalk.{row_of_slot};

use crate::child_type::LayoutChildType;
use crate::slot_walk::{Place, Slots};
use crate::slots::{in_brackets, type_of_slot};
use std::alloc::{AllocError, Global};
use vx_layout_tree::{Layout, LayoutKind};
use vx_model::Text;

/// What each child is, or `OutOfMemory` in its place.
#[derive(Drop)]
pub struct ChildTypes<'a> {
    alloc: Global,
    slots: Slots<'a>,
}

/// The name of each child, or `OutOfMemory` in its place.
#[derive(Drop)]
pub struct ChildNames<'a> {
    types: ChildTypes<'a>,
}

/// The layout's row at which each child begins, where it has rows of the layout.
#[derive(Drop)]
pub struct ChildRowOffsets<'a> {
    slots: Slots<'a>,
}

impl<'a> ChildTypes<'a> {
    ghost use Rattle.std.specs.Prelude.{◌≡◌};
    ghost use Rattle.vx_layout_tree.specs.LayoutView.{layout_data};
    ghost use Rattle.vx_layout_slots.specs.SlotTypes.{child_types};
    ghost use Rattle.vx_layout_slots.specs.SlotWalk.{types_left};

    pub(crate) fn new(alloc: Global, layout: &'a Layout) -> ChildTypes<'a>
        ensures { types_left result ≡ child_types (layout_data layout.now) }
    {
        ChildTypes {
            alloc,
            slots: Slots::new(layout),
        }
    }
}

impl<'a> ChildNames<'a> {
    ghost use Rattle.std.specs.Prelude.{◌≡◌};
    ghost use Rattle.vx_layout_tree.specs.LayoutView.{layout_data};
    ghost use Rattle.vx_layout_slots.specs.SlotTypes.{child_names};
    ghost use Rattle.vx_layout_slots.specs.SlotWalk.{names_left};

    pub(crate) fn new(alloc: Global, layout: &'a Layout) -> ChildNames<'a>
        ensures { names_left result ≡ child_names (layout_data layout.now) }
    {
        ChildNames {
            types: ChildTypes::new(alloc, layout),
        }
    }
}

impl<'a> ChildRowOffsets<'a> {
    ghost use Rattle.std.specs.Prelude.{◌≡◌};
    ghost use Rattle.vx_layout_tree.specs.LayoutView.{layout_data};
    ghost use Rattle.vx_layout_slots.specs.SlotTypes.{child_row_offsets};
    ghost use Rattle.vx_layout_slots.specs.SlotWalk.{rows_left};

    pub(crate) fn new(layout: &'a Layout) -> ChildRowOffsets<'a>
        ensures { rows_left result ≡ child_row_offsets (layout_data layout.now) }
    {
        ChildRowOffsets {
            slots: Slots::new(layout),
        }
    }
}

impl<'a> Iterator for ChildTypes<'a> {
    type Item = Result<LayoutChildType, AllocError>;

    ghost use Rattle.std.specs.Iterator.{item_count};
    ghost use Rattle.vx_layout_slots.specs.SlotWalk.{types_left, YieldsOrFails};

    ghost next_gives = { YieldsOrFails types_left };

    ghost remaining = { item_count types_left };

    fn next(&mut self) -> Option<Result<LayoutChildType, AllocError>> {
        let place = self.slots.pass()?;
        Some(type_in(self.alloc, self.slots.layout, place))
    }
}

impl<'a> Iterator for ChildNames<'a> {
    type Item = Result<Text, AllocError>;

    ghost use Rattle.std.specs.Iterator.{item_count};
    ghost use Rattle.vx_layout_slots.specs.SlotWalk.{names_left, YieldsOrFails};

    ghost next_gives = { YieldsOrFails names_left };

    ghost remaining = { item_count names_left };

    fn next(&mut self) -> Option<Result<Text, AllocError>> {
        let alloc = self.types.alloc;
        match self.types.next()? {
            Ok(child) => Some(child.into_name(alloc)),
            Err(error) => Some(Err(error)),
        }
    }
}

impl<'a> Iterator for ChildRowOffsets<'a> {
    type Item = Option<u64>;

    ghost use Rattle.std.specs.Iterator.{item_count, YieldsFirst};
    ghost use Rattle.vx_layout_slots.specs.SlotWalk.{rows_left};

    ghost next_gives = { YieldsFirst rows_left };

    ghost remaining = { item_count rows_left };

    #[tactic(auto, using(crate::proofs::SlotSteps::row_rules))]
    fn next(&mut self) -> Option<Option<u64>> {
        let place = self.slots.pass()?;
        Some(row_in(self.slots.layout.kind(), place))
    }
}

impl LayoutChildType {
    /// Its name, which is not copied.
    fn into_name(self, alloc: Global) -> Result<Text, AllocError>
        ensures { IfOk result (λ name. name ≡ child_name self) }
    {
        match self {
            LayoutChildType::Transparent(name)
            | LayoutChildType::Auxiliary(name)
            | LayoutChildType::Field(name) => Ok(name),
            LayoutChildType::Chunk((place, _)) => in_brackets(alloc, place),
        }
    }
}

/// What the child at the place is, which there is. The row of a chunk is not counted again.
#[tactic(auto, using(crate::proofs::SlotSteps::type_rules))]
fn type_in(alloc: Global, layout: &Layout, at: Place) -> Result<LayoutChildType, AllocError>
    requires there { IsSome (slot_type (layout_data layout.now) at.slot) }
    requires row { at.row ≡ chunk_row (layout_data layout.now) at.slot }
    ensures { IfOk result (λ t. slot_type (layout_data layout.now) at.slot ≡ Some t) }
{
    if layout.is(LayoutKind::Chunked) {
        return Ok(LayoutChildType::Chunk((at.slot, at.row)));
    }
    match type_of_slot(alloc, layout, at.slot)? {
        Some(child) => Ok(child),
        None => unreachable!(),
    }
}

/// Where the child at the place begins.
fn row_in(kind: LayoutKind, at: Place) -> Option<u64>
    ensures { result ≡ row_of_slot kind at.slot at.row }
{
    match kind {
        LayoutKind::Chunked => Some(at.row),
        LayoutKind::Struct | LayoutKind::Dict => if at.slot == 0 { None } else { Some(0) },
        LayoutKind::Zoned | LayoutKind::LegacyStats => { if at.slot == 0 { Some(0) } else { None } }
        LayoutKind::Flat | LayoutKind::List | LayoutKind::Foreign => None,
    }
}
