//! The summary of the generated table.

ghost use Rattle.std.specs.Prelude.{◌≡◌, ◌++◌, ◌≤◌, length, string_bytes, codes, decimal, IsSome, IfOk, OnOk};
ghost use Rattle.vx_layout_spec.specs.LayoutTree.{children_of, row_count};
ghost use Rattle.vx_layout_spec.specs.Rows.{rows};
ghost use Rattle.vx_segment_reader.specs.Codec.{segment_codec};
ghost use Rattle.vx_segment_map.specs.SegmentView.{segment_in};
ghost use Rattle.vx_layout_tree.specs.LayoutView.{layout_data};
ghost use Rattle.vx_row_count.specs.Counting.{HasChild};
ghost use Rattle.vx_generator_laws.specs.TableWrite.{most_rows};
ghost use Rattle.vx_run.specs.Summary.{columns_of, zone_count, zone_counts, ColumnsThere, IsZoneCount, summary_of, summary};

use crate::totals::total_bytes;
use crate::writing::write_table;
use std::alloc::{AllocError, Global};
use vx_layout_tree::{Layout, LayoutKind};
use vx_progress::Progress;
use vx_row_count::{child_there, count_rows};
use vx_segment_map::SegmentMap;

/// The most rows of a table that is summed up.
pub const MOST_ROWS: u32 = 1_000_000;

/// Writes the table of so many rows, reads it back, and tells its rows, its segments and their bytes, the zones of each column,
/// and the rows that were read.
pub fn table_summary<P: Progress + Drop>(
    alloc: Global,
    rows: u32,
    progress: P,
) -> Result<String, AllocError>
    requires { rows ≤ most_rows }
    ensures { IfOk result (λ text. string_bytes text ≡ summary rows) }
{
    let (layout, list) = write_table(alloc, rows, progress)?;
    let text = sum_up(alloc, &layout, &SegmentMap { first: 0, list });
    drop(layout);
    text
}

/// The summary of a layout and its segments.
#[tactic(auto, using(crate::proofs::SummarySteps::text_rules))]
fn sum_up(alloc: Global, layout: &Layout, segments: &SegmentMap) -> Result<String, AllocError>
    requires { IsSome (rows segment_codec (segment_in segments.now) (layout_data layout.now)) }
    ensures { IfOk result (λ text. string_bytes text ≡ summary_of (row_count (layout_data layout.now)) (layout_data layout.now) segments.now.list.items) }
{
    let read = count_rows(alloc, layout, segments)?;
    let mut out = String::new(alloc);
    let count = segments.list.len();
    let bytes = total_bytes(&segments.list);
    write!(
        out,
        "rows {}\nsegments {count}\nbytes {bytes}\nzones",
        layout.row_count()
    )?;
    push_zones(&mut out, layout)?;
    write!(out, "\nread {read}\n")?;
    Ok(out)
}

/// The zones of each column.
#[tactic(auto, using(crate::proofs::SummarySteps::text_rules))]
fn push_zones(out: &mut String, layout: &Layout) -> Result<(), AllocError>
    requires { ColumnsThere (layout_data layout.now) }
    ensures { OnOk result (string_bytes out.new ≡ string_bytes out.old ++ zone_counts (columns_of (layout_data layout.now))) }
{
    for i in 0..column_count(layout) {
        let zones = zones_at(layout, i)?;
        push_count(out, zones)?;
    }
    Ok(())
}

#[tactic(auto, using(crate::proofs::SummarySteps::text_rules))]
fn push_count(out: &mut String, zones: u64) -> Result<(), AllocError>
    ensures { OnOk result (string_bytes out.new ≡ string_bytes out.old ++ (codes " " ++ decimal zones)) }
{
    write!(out, " {zones}")?;
    Ok(())
}

/// How many columns a layout has.
fn column_count(layout: &Layout) -> u64
    ensures { result ≡ length (columns_of (layout_data layout.now)) }
{
    if layout.is(LayoutKind::Struct) {
        layout.nchildren()
    } else {
        0
    }
}

/// How many zones the child at the place has a record of.
fn zones_at(layout: &Layout, i: u64) -> Result<u64, AllocError>
    requires { HasChild (children_of (layout_data layout.now)) i }
    ensures { IfOk result (IsZoneCount (children_of (layout_data layout.now)) i) }
{
    let child = child_there(layout, i)?;
    let zones = zone_count(child.layout());
    drop(child);
    Ok(zones)
}

/// How many zones a layout has a record of.
#[tactic(auto, using(crate::proofs::SummarySteps::table_rules))]
fn zone_count(layout: &Layout) -> u64
    ensures { result ≡ zone_count (layout_data layout.now) }
{
    if layout.nchildren() < 2 {
        return 0;
    }
    match layout.kind() {
        LayoutKind::Zoned | LayoutKind::LegacyStats => layout.child_row_count(1),
        LayoutKind::Flat | LayoutKind::Chunked | LayoutKind::Struct => 0,
        LayoutKind::List | LayoutKind::Dict | LayoutKind::Foreign => 0,
    }
}
