//! The slots of a layout.

ghost use Rattle.std.specs.Prelude.{◌≡◌, ◌≤◌, length, take, Some, IfOk};
ghost use Rattle.vx_model.specs.Ty.{nullable};
ghost use Rattle.vx_model.specs.TyView.{ty};
ghost use Rattle.vx_layout_slots.specs.declared.child_type.LayoutChildType.TheVariants.{Auxiliary, Transparent};
ghost use Rattle.vx_layout_shape.specs.Shape.{fields_of};
ghost use Rattle.vx_layout_slots.specs.Slots.{slots, slot_place, slot_type, below as below_count, bracketed, struct_place as place_in_struct, list_place as place_in_list, chunk_type as type_of_chunk, field_type as type_of_field, struct_type as type_in_struct, list_type as type_in_list, dict_type as type_in_dict, zoned_type as type_in_zoned, foreign_type as type_in_foreign};
ghost use Rattle.vx_layout_tree.specs.KidsView.{chunks, layout_kids};
ghost use Rattle.vx_layout_tree.specs.LayoutView.{layout_data};
ghost use Rattle.vx_session.specs.Made.{kid_rows};
ghost use Rattle.vx_model.specs.Words.{total_by};

use crate::child_type::LayoutChildType;
use std::alloc::{AllocError, Global};
use vx_layout_shape::{field_count, fields_in};
use vx_layout_tree::{KindRef, Layout, LayoutChildren};
use vx_model::{DType, Text};

#[tactic(auto, using(crate::proofs::SlotSteps::kind_rules))]
pub(crate) fn slot_count(layout: &Layout) -> u64
    ensures { result ≡ slots (layout_data layout.now) }
{
    match layout.by_kind() {
        KindRef::Flat(_) => 0,
        KindRef::Chunked(_) => layout.nchildren(),
        KindRef::Struct(_) => field_count(layout.dtype()) as u64 + 1,
        KindRef::List(_) => 3,
        KindRef::Dict(..) => 2,
        KindRef::Zoned(..) => 2,
        KindRef::Unread(..) => 2,
        KindRef::LegacyStats(..) => 2,
        KindRef::Foreign(..) => layout.nchildren(),
    }
}

#[tactic(auto, using(crate::proofs::SlotSteps::kind_rules))]
pub(crate) fn place_of(layout: &Layout, slot: u64) -> Option<u64>
    ensures { result ≡ slot_place (layout_data layout.now) slot }
{
    match layout.by_kind() {
        KindRef::Flat(_) => None,
        KindRef::Chunked(_) => below(layout.nchildren(), slot),
        KindRef::Struct(_) => struct_place(layout.dtype(), slot),
        KindRef::List(_) => list_place(layout.dtype(), slot),
        KindRef::Dict(..) => below(2, slot),
        KindRef::Zoned(..) => below(2, slot),
        KindRef::Unread(..) => below(2, slot),
        KindRef::LegacyStats(..) => below(2, slot),
        KindRef::Foreign(..) => below(layout.nchildren(), slot),
    }
}

#[tactic(auto, using(crate::proofs::SlotSteps::kind_rules))]
pub(crate) fn type_of_slot(
    alloc: Global,
    layout: &Layout,
    slot: u64,
) -> Result<Option<LayoutChildType>, AllocError>
    ensures { IfOk result (λ o. o ≡ slot_type (layout_data layout.now) slot) }
{
    match layout.by_kind() {
        KindRef::Flat(_) => Ok(None),
        KindRef::Chunked(children) => {
            Ok(chunk_type(layout.dtype(), children, layout.row_count(), slot))
        }
        KindRef::Struct(_) => struct_type(alloc, layout.dtype(), slot),
        KindRef::List(_) => list_type(alloc, slot),
        KindRef::Dict(..) => dict_type(alloc, slot),
        KindRef::Zoned(..) => zoned_type(alloc, slot),
        KindRef::Unread(..) => zoned_type(alloc, slot),
        KindRef::LegacyStats(..) => zoned_type(alloc, slot),
        KindRef::Foreign(..) => foreign_type(alloc, layout.nchildren(), slot),
    }
}

fn below(count: u64, place: u64) -> Option<u64>
    ensures { result ≡ below_count count place }
{
    if place < count { Some(place) } else { None }
}

fn struct_place(dtype: &DType, slot: u64) -> Option<u64>
    ensures { result ≡ place_in_struct (nullable (ty dtype.now)) (length (fields_of (ty dtype.now))) slot }
{
    let count = field_count(dtype) as u64;
    if dtype.is_nullable() {
        below(count + 1, slot)
    } else if slot == 0 {
        None
    } else {
        below(count, slot - 1)
    }
}

fn list_place(dtype: &DType, slot: u64) -> Option<u64>
    ensures { result ≡ place_in_list (nullable (ty dtype.now)) slot }
{
    if dtype.is_nullable() {
        below(3, slot)
    } else {
        below(2, slot)
    }
}

/// Where the children are chunks of the type.
#[tactic(auto, using(vx_layout_tree::proofs::KidSteps::chunk_rules))]
fn chunk_type(
    dtype: &DType,
    children: &LayoutChildren,
    rows: u64,
    slot: u64,
) -> Option<LayoutChildType>
    requires { total_by kid_rows (layout_kids children.now) ≡ rows }
    ensures { result ≡ type_of_chunk (chunks (ty dtype.now) children.now) slot }
{
    let _ = dtype;
    if slot < children.nchildren() {
        let offset = rows_before(children, rows, slot);
        Some(LayoutChildType::Chunk((slot, offset)))
    } else {
        None
    }
}

fn auxiliary(alloc: Global, name: &str) -> Result<Option<LayoutChildType>, AllocError>
    ensures { IfOk result (λ o. o ≡ Some (Auxiliary name.now)) }
{
    Ok(Some(LayoutChildType::Auxiliary(Text::from_str(alloc, name)?)))
}

fn transparent(alloc: Global, name: &str) -> Result<Option<LayoutChildType>, AllocError>
    ensures { IfOk result (λ o. o ≡ Some (Transparent name.now)) }
{
    Ok(Some(LayoutChildType::Transparent(Text::from_str(alloc, name)?)))
}

fn struct_type(
    alloc: Global,
    dtype: &DType,
    slot: u64,
) -> Result<Option<LayoutChildType>, AllocError>
    ensures { IfOk result (λ o. o ≡ type_in_struct (fields_of (ty dtype.now)) slot) }
{
    if slot == 0 {
        auxiliary(alloc, "validity")
    } else {
        field_type(dtype, slot - 1)
    }
}

#[tactic(auto, using(crate::proofs::SlotSteps::name_rules))]
fn field_type(dtype: &DType, i: u64) -> Result<Option<LayoutChildType>, AllocError>
    ensures { IfOk result (λ o. o ≡ type_of_field (fields_of (ty dtype.now)) i) }
{
    let fields = fields_in(dtype);
    if i < fields.len() as u64 {
        let name = fields[i as usize].name.clone()?;
        Ok(Some(LayoutChildType::Field(name)))
    } else {
        Ok(None)
    }
}

fn list_type(alloc: Global, slot: u64) -> Result<Option<LayoutChildType>, AllocError>
    ensures { IfOk result (λ o. o ≡ type_in_list slot) }
{
    if slot == 0 {
        auxiliary(alloc, "elements")
    } else if slot == 1 {
        auxiliary(alloc, "offsets")
    } else if slot == 2 {
        auxiliary(alloc, "validity")
    } else {
        Ok(None)
    }
}

fn dict_type(alloc: Global, slot: u64) -> Result<Option<LayoutChildType>, AllocError>
    ensures { IfOk result (λ o. o ≡ type_in_dict slot) }
{
    if slot == 0 {
        auxiliary(alloc, "values")
    } else if slot == 1 {
        transparent(alloc, "codes")
    } else {
        Ok(None)
    }
}

fn zoned_type(alloc: Global, slot: u64) -> Result<Option<LayoutChildType>, AllocError>
    ensures { IfOk result (λ o. o ≡ type_in_zoned slot) }
{
    if slot == 0 {
        transparent(alloc, "data")
    } else if slot == 1 {
        auxiliary(alloc, "zones")
    } else {
        Ok(None)
    }
}

fn foreign_type(alloc: Global, count: u64, slot: u64) -> Result<Option<LayoutChildType>, AllocError>
    ensures { IfOk result (λ o. o ≡ type_in_foreign count slot) }
{
    if slot < count {
        Ok(Some(LayoutChildType::Auxiliary(in_brackets(alloc, slot)?)))
    } else {
        Ok(None)
    }
}

/// The number in brackets.
pub(crate) fn in_brackets(alloc: Global, number: u64) -> Result<Text, AllocError>
    ensures { IfOk result (λ name. name ≡ bracketed number) }
{
    Ok(Text::from(format!(in alloc; "[{number}]")?))
}

/// Rows of the first children, of `rows` together.
#[tactic(auto, using(vx_layout_tree::proofs::KidSteps::sum_rules))]
fn rows_before(children: &LayoutChildren, rows: u64, place: u64) -> u64
    requires within { place ≤ length (layout_kids children.now) }
    requires all { total_by kid_rows (layout_kids children.now) ≡ rows }
    ensures { result ≡ total_by kid_rows (take place (layout_kids children.now)) }
{
    let _ = rows;
    let mut before = 0u64;
    for i in 0..place {
        before += children.child_row_count(i);
    }
    before
}
