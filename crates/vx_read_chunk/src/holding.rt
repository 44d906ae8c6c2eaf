//! The rows of a layout in parts, an arm a kind.

ghost use Rattle.std.specs.Prelude.{◌≡◌, ◌<◌, length, map, Some, IfOk, IfSome};
ghost use Rattle.vx_model.specs.ChunkData.{row_values};
ghost use Rattle.vx_layout_spec.specs.LayoutTree.{children_of, layout_kind};
ghost use Rattle.vx_layout_spec.specs.Rows.{rows, all_there};
ghost use Rattle.vx_layout_tree.specs.Children.{kind_name};
ghost use Rattle.vx_layout_tree.specs.declared.kind.LayoutKind.TheVariants as kinds;
ghost use Rattle.vx_layout_tree.specs.LayoutView.{layout_data};
ghost use Rattle.vx_segment_reader.specs.Codec.{segment_codec};
ghost use Rattle.vx_segment_map.specs.SegmentView.{segment_in};
ghost use Rattle.vx_row_count.specs.Counting.{rows_of_child};
ghost use Rattle.vx_read_chunk.specs.Held.{parts_rows, IsZoned};

use crate::columns::{one_chunk, struct_chunk};
use crate::flat::flat_chunk;
use crate::held::HeldPart;
use std::alloc::{AllocError, Global};
use vx_chunk::Chunk;
use vx_layout_build::LayoutWalk;
use vx_layout_tree::{Layout, LayoutError, LayoutKind};
use vx_read::{ReadError, SegmentMap, read_rows};

/// The rows of a layout, nothing where something in it is at fault. Those of flat, chunked and zoned layouts are chunks, and
/// so are those of structs that aren't nullable over such ones; others are read one by one.
#[cycle(holding)]
#[tactic(auto, using(crate::proofs::HoldingSteps::holding_rules))]
pub(crate) fn held_parts(
    alloc: Global,
    layout: &Layout,
    segments: &SegmentMap,
) -> Result<Option<Vec<HeldPart>>, AllocError>
    ensures { IfOk result (λ o. IfSome o (λ v. rows segment_codec (segment_in segments.now) (layout_data layout.now) ≡ Some (parts_rows v))) }
{
    match layout.kind() {
        LayoutKind::Flat => flat_parts(alloc, layout, segments),
        LayoutKind::Chunked => chunked_parts(alloc, layout, segments),
        LayoutKind::Struct => struct_parts(alloc, layout, segments),
        LayoutKind::Zoned => data_parts(alloc, layout, segments),
        LayoutKind::LegacyStats => data_parts(alloc, layout, segments),
        LayoutKind::List | LayoutKind::Dict | LayoutKind::Foreign => whole_parts(
            alloc, layout, segments,
        ),
    }
}

/// The chunk of its segment.
fn flat_parts(
    alloc: Global,
    layout: &Layout,
    segments: &SegmentMap,
) -> Result<Option<Vec<HeldPart>>, AllocError>
    ensures { IfOk result (λ o. IfSome o (λ v. rows segment_codec (segment_in segments.now) (layout_data layout.now) ≡ Some (parts_rows v))) }
{
    let Some(flat) = layout.as_flat() else {
        return Ok(None);
    };
    match flat_chunk(alloc, layout.dtype(), layout.row_count(), flat, segments)? {
        Some(chunk) => Ok(Some(vec![in alloc; HeldPart::Chunk(chunk)]?)),
        None => Ok(None),
    }
}

/// The rows one by one.
fn whole_parts(
    alloc: Global,
    layout: &Layout,
    segments: &SegmentMap,
) -> Result<Option<Vec<HeldPart>>, AllocError>
    ensures { IfOk result (λ o. IfSome o (λ v. rows segment_codec (segment_in segments.now) (layout_data layout.now) ≡ Some (parts_rows v))) }
{
    match read_rows(alloc, layout, segments) {
        Ok(rows) => Ok(Some(vec![in alloc; HeldPart::Values(rows)]?)),
        Err(ReadError::OutOfMemory) => Err(AllocError),
        Err(_) => Ok(None),
    }
}

/// The parts of all children, one behind the other, where these count as many rows as the layout.
#[cycle(holding)]
#[tactic(auto, using(crate::proofs::HoldingSteps::holding_rules))]
fn chunked_parts(
    alloc: Global,
    layout: &Layout,
    segments: &SegmentMap,
) -> Result<Option<Vec<HeldPart>>, AllocError>
    requires { kind_name (layout_kind (layout_data layout.now)) ≡ kinds.Chunked }
    ensures { IfOk result (λ o. IfSome o (λ v. rows segment_codec (segment_in segments.now) (layout_data layout.now) ≡ Some (parts_rows v))) }
{
    let mut parts = Vec::new(alloc);
    let mut rest = layout.row_count();
    for i in 0..layout.nchildren() {
        let count = layout.child_row_count(i);
        if count > rest {
            return Ok(None);
        }
        rest -= count;
        match child_parts(alloc, layout, i, segments)? {
            Some(mut more) => parts.append(&mut more)?,
            None => return Ok(None),
        }
    }
    if rest > 0 {
        return Ok(None);
    }
    Ok(Some(parts))
}

/// The structs of the columns, in one chunk where these make one.
#[cycle(holding)]
#[tactic(auto, using(crate::proofs::HoldingSteps::holding_rules))]
fn struct_parts(
    alloc: Global,
    layout: &Layout,
    segments: &SegmentMap,
) -> Result<Option<Vec<HeldPart>>, AllocError>
    requires { kind_name (layout_kind (layout_data layout.now)) ≡ kinds.Struct }
    ensures { IfOk result (λ o. IfSome o (λ v. rows segment_codec (segment_in segments.now) (layout_data layout.now) ≡ Some (parts_rows v))) }
{
    let dtype = layout.dtype();
    if dtype.is_nullable() {
        return whole_parts(alloc, layout, segments);
    }
    let Some(columns) = columns_of(alloc, layout, segments)? else {
        return whole_parts(alloc, layout, segments);
    };
    match struct_chunk(alloc, dtype, columns, layout.row_count())? {
        Some(chunk) => Ok(Some(vec![in alloc; HeldPart::Chunk(chunk)]?)),
        None => whole_parts(alloc, layout, segments),
    }
}

/// A chunk of each child, where it is one.
#[cycle(holding)]
#[tactic(auto, using(crate::proofs::HoldingSteps::holding_rules))]
fn columns_of(
    alloc: Global,
    layout: &Layout,
    segments: &SegmentMap,
) -> Result<Option<Vec<Chunk>>, AllocError>
    ensures { IfOk result (λ o. IfSome o (λ v. all_there (map (rows segment_codec (segment_in segments.now)) (children_of (layout_data layout.now))) ≡ Some (map row_values v.items))) }
{
    let mut columns = Vec::new(alloc);
    for i in 0..layout.nchildren() {
        match child_chunk(alloc, layout, i, segments)? {
            Some(column) => columns.push(column)?,
            None => return Ok(None),
        }
    }
    Ok(Some(columns))
}

/// The parts of the first of two children, where it counts as many rows as the layout. The zones aren't read.
#[cycle(holding)]
#[tactic(auto, using(crate::proofs::HoldingSteps::holding_rules))]
fn data_parts(
    alloc: Global,
    layout: &Layout,
    segments: &SegmentMap,
) -> Result<Option<Vec<HeldPart>>, AllocError>
    requires { IsZoned (kind_name (layout_kind (layout_data layout.now))) }
    ensures { IfOk result (λ o. IfSome o (λ v. rows segment_codec (segment_in segments.now) (layout_data layout.now) ≡ Some (parts_rows v))) }
{
    if layout.nchildren() != 2 || layout.child_row_count(0) != layout.row_count() {
        return Ok(None);
    }
    child_parts(alloc, layout, 0, segments)
}

/// The rows of the child at the place.
#[cycle(holding)]
#[tactic(auto, using(crate::proofs::HoldingSteps::holding_rules))]
fn child_parts(
    alloc: Global,
    layout: &Layout,
    i: u64,
    segments: &SegmentMap,
) -> Result<Option<Vec<HeldPart>>, AllocError>
    requires { i < length (children_of (layout_data layout.now)) }
    ensures { IfOk result (λ o. IfSome o (λ v. rows_of_child (segment_in segments.now) (children_of (layout_data layout.now)) i ≡ Some (parts_rows v))) }
{
    match layout.child(i) {
        Ok(child) => {
            let parts = held_parts(alloc, child.layout(), segments);
            drop(child);
            parts
        }
        Err(LayoutError::OutOfMemory) => Err(AllocError),
        Err(_) => Ok(None),
    }
}

/// The rows of the child at the place, where they are one chunk.
#[cycle(holding)]
#[tactic(auto, using(crate::proofs::HoldingSteps::holding_rules))]
fn child_chunk(
    alloc: Global,
    layout: &Layout,
    i: u64,
    segments: &SegmentMap,
) -> Result<Option<Chunk>, AllocError>
    requires { i < length (children_of (layout_data layout.now)) }
    ensures { IfOk result (λ o. IfSome o (λ c. rows_of_child (segment_in segments.now) (children_of (layout_data layout.now)) i ≡ Some (row_values c))) }
{
    match child_parts(alloc, layout, i, segments)? {
        Some(parts) => one_chunk(alloc, parts),
        None => Ok(None),
    }
}
