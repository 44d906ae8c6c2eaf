//! The count, an arm a kind.

ghost use Rattle.std.specs.Prelude.{◌≡◌, ◌<◌, length, IsSome, IfOk};
ghost use Rattle.vx_layout_spec.specs.LayoutTree.{children_of, layout_kind, row_count};
ghost use Rattle.vx_layout_spec.specs.Rows.{rows};
ghost use Rattle.vx_layout_tree.specs.Children.{kind_name, rows_at};
ghost use Rattle.vx_layout_tree.specs.declared.kind.LayoutKind.TheVariants.{Chunked, Struct};
ghost use Rattle.vx_layout_tree.specs.LayoutView.{layout_data};
ghost use Rattle.vx_segment_reader.specs.Codec.{segment_codec};
ghost use Rattle.vx_segment_map.specs.SegmentView.{segment_in};
ghost use Rattle.vx_row_count.specs.Counting.{IsCount, rows_of_child};

use crate::child::child_there;
use std::alloc::{AllocError, Global};
use vx_layout_tree::{Layout, LayoutKind};
use vx_read::{ReadError, SegmentMap, read_rows};

/// How many rows a layout that gives its rows has. Each segment of them is read: of a struct a column at a time, of chunks one, of
/// a dictionary its values and then its codes; so what is in memory is what one of them takes.
#[cycle(counting)]
#[tactic(auto, using(crate::proofs::CountSteps::count_rules))]
pub fn count_rows(alloc: Global, layout: &Layout, segments: &SegmentMap) -> Result<u64, AllocError>
    requires { IsSome (rows segment_codec (segment_in segments.now) (layout_data layout.now)) }
    ensures { IfOk result (IsCount (segment_in segments.now) (layout_data layout.now)) }
{
    match layout.kind() {
        LayoutKind::Chunked => count_chunks(alloc, layout, segments),
        LayoutKind::Struct if layout.nchildren() > 0 => count_columns(alloc, layout, segments),
        LayoutKind::Dict => {
            count_child(alloc, layout, 0, segments)?;
            count_child(alloc, layout, 1, segments)
        }
        // The zones aren't read.
        LayoutKind::Zoned => count_child(alloc, layout, 0, segments),
        LayoutKind::LegacyStats => count_child(alloc, layout, 0, segments),
        LayoutKind::Struct | LayoutKind::Flat | LayoutKind::List | LayoutKind::Foreign =>
            count_whole(alloc, layout, segments),
    }
}

/// The rows of all chunks.
#[cycle(counting)]
fn count_chunks(alloc: Global, layout: &Layout, segments: &SegmentMap) -> Result<u64, AllocError>
    requires there { IsSome (rows segment_codec (segment_in segments.now) (layout_data layout.now)) }
    requires chunked { kind_name (layout_kind (layout_data layout.now)) ≡ Chunked }
    ensures { IfOk result (IsCount (segment_in segments.now) (layout_data layout.now)) }
{
    // No sum of chunks passes it.
    let _rows = layout.row_count();
    let mut count = 0;
    for i in 0..layout.nchildren() {
        count += count_child(alloc, layout, i, segments)?;
    }
    Ok(count)
}

/// The rows of each column, of which one has as many as the others.
#[cycle(counting)]
fn count_columns(alloc: Global, layout: &Layout, segments: &SegmentMap) -> Result<u64, AllocError>
    requires there { IsSome (rows segment_codec (segment_in segments.now) (layout_data layout.now)) }
    requires columns { kind_name (layout_kind (layout_data layout.now)) ≡ Struct }
    requires some { 0 < length (children_of (layout_data layout.now)) }
    ensures { IfOk result (IsCount (segment_in segments.now) (layout_data layout.now)) }
{
    let count = count_child(alloc, layout, 0, segments)?;
    for i in 1..layout.nchildren() {
        count_child(alloc, layout, i, segments)?;
    }
    Ok(count)
}

/// The rows of the child at the place.
#[cycle(counting)]
fn count_child(
    alloc: Global,
    layout: &Layout,
    i: u64,
    segments: &SegmentMap,
) -> Result<u64, AllocError>
    requires { IsSome (rows_of_child (segment_in segments.now) (children_of (layout_data layout.now)) i) }
    ensures { IfOk result (λ n. n ≡ rows_at (children_of (layout_data layout.now)) i) }
{
    let child = child_there(layout, i)?;
    let count = count_rows(alloc, child.layout(), segments);
    drop(child);
    count
}

/// The rows of a layout that is read whole.
fn count_whole(alloc: Global, layout: &Layout, segments: &SegmentMap) -> Result<u64, AllocError>
    requires { IsSome (rows segment_codec (segment_in segments.now) (layout_data layout.now)) }
    ensures { IfOk result (IsCount (segment_in segments.now) (layout_data layout.now)) }
{
    match read_rows(alloc, layout, segments) {
        Ok(rows) => Ok(rows.len() as u64),
        Err(ReadError::OutOfMemory) => Err(AllocError),
        Err(_) => unreachable!(),
    }
}
