//! The rows of a layout, an arm a kind.

ghost use Rattle.std.specs.Prelude.{◌≡◌, ◌<◌, length, min, IfOk};
ghost use Rattle.vx_layout_spec.specs.LayoutTree.{children_of};
ghost use Rattle.vx_layout_spec.specs.Rows.{rows};
ghost use Rattle.vx_layout_tree.specs.LayoutView.{layout_data};
ghost use Rattle.vx_segment_reader.specs.Codec.{segment_codec};
ghost use Rattle.vx_segment_map.specs.SegmentView.{segment_in};
ghost use Rattle.vx_read.specs.Parts.{rows_in, parts_in, first_parts, first_faults};
ghost use Rattle.vx_read.specs.Reading.{first_fault};
ghost use Rattle.vx_read.specs.Answers.{GivesRows, TellsFault, Reads, ReadsChild};

use crate::flat::flat_rows;
use crate::nodes::{
    chunked_rows, data_rows, dict_rows, list_children, list_rows, struct_rows, test_children,
    test_validity, unknown_kind,
};
use std::alloc::Global;
use vx_layout_build::LayoutWalk;
use vx_layout_tree::{Layout, LayoutKind};
use vx_model::Value;
use vx_segment_map::{ReadError, SegmentMap};

/// The rows of a layout, read from its segments.
#[tactic(auto, using(crate::proofs::FaultSteps::answer_rules))]
pub fn read_rows(
    alloc: Global,
    layout: &Layout,
    segments: &SegmentMap,
) -> Result<Vec<Value>, ReadError>
    ensures rows { GivesRows result (rows segment_codec (segment_in segments.now) (layout_data layout.now)) }
    ensures fault { TellsFault result (first_fault segment_codec (segment_in segments.now) (layout_data layout.now)) }
{
    rows_of(alloc, layout, segments)
}

#[cycle(reading)]
#[tactic(auto, using(crate::proofs::ReadSteps::read_rules))]
fn rows_of(alloc: Global, layout: &Layout, segments: &SegmentMap) -> Result<Vec<Value>, ReadError>
    ensures { Reads rows_in result (rows segment_codec (segment_in segments.now) (layout_data layout.now)) (first_fault segment_codec (segment_in segments.now) (layout_data layout.now)) }
{
    let row_count = layout.row_count();
    if let Some(flat) = layout.as_flat() {
        return flat_rows(alloc, layout.dtype(), row_count, flat, segments);
    }
    let children = layout.nchildren();
    let nullable = layout.dtype().is_nullable();
    match layout.kind() {
        LayoutKind::Chunked => {
            let parts = parts_of(alloc, layout, children, segments)?;
            chunked_rows(alloc, row_count, parts)
        }
        LayoutKind::Struct => {
            test_validity(nullable, children)?;
            let parts = parts_of(alloc, layout, children, segments)?;
            struct_rows(alloc, row_count, nullable, parts)
        }
        LayoutKind::List => {
            test_children(children, list_children(nullable))?;
            let parts = parts_of(alloc, layout, children, segments)?;
            list_rows(alloc, row_count, nullable, parts)
        }
        LayoutKind::Dict => {
            test_children(children, 2)?;
            let parts = parts_of(alloc, layout, children, segments)?;
            dict_rows(alloc, row_count, parts)
        }
        LayoutKind::Zoned | LayoutKind::LegacyStats => {
            test_children(children, 2)?;
            // The zones aren't read.
            let parts = parts_of(alloc, layout, 1, segments)?;
            data_rows(row_count, parts)
        }
        // A flat layout was read above.
        LayoutKind::Flat | LayoutKind::Foreign => Err(unknown_kind(alloc, layout)),
    }
}

/// The rows of the first children, at most so many.
#[cycle(reading)]
#[tactic(auto, using(crate::proofs::ReadSteps::part_rules))]
fn parts_of(
    alloc: Global,
    layout: &Layout,
    count: u64,
    segments: &SegmentMap,
) -> Result<Vec<Vec<Value>>, ReadError>
    ensures count { IfOk result (λ v. length v.items ≡ min count (length (children_of (layout_data layout.now)))) }
    ensures parts { Reads parts_in result (first_parts segment_codec (segment_in segments.now) count (layout_data layout.now)) (first_faults segment_codec (segment_in segments.now) count (layout_data layout.now)) }
{
    let mut parts = Vec::new(alloc);
    for i in 0..layout.nchildren().min(count) {
        let rows = part_of(alloc, layout, i, segments)?;
        parts.push(rows)?;
    }
    Ok(parts)
}

/// The rows of the child at the place.
#[cycle(reading)]
#[tactic(auto, using(crate::proofs::ReadSteps::child_rules))]
fn part_of(
    alloc: Global,
    layout: &Layout,
    i: u64,
    segments: &SegmentMap,
) -> Result<Vec<Value>, ReadError>
    requires { i < length (children_of (layout_data layout.now)) }
    ensures { ReadsChild segment_codec (segment_in segments.now) (layout_data layout.now) i result }
{
    let child = layout.child(i)?;
    let rows = rows_of(alloc, child.layout(), segments);
    drop(child);
    rows
}
