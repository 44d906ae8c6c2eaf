//! The zone tables of what was written, read from its segments.

ghost use Rattle.std.specs.Prelude.{◌≡◌, ◌<◌, ◌∷◌, [], length, Some, IsSome, IfOk, OnOk};
ghost use Rattle.vx_layout_spec.specs.LayoutTree.{children_of, layout_kind};
ghost use Rattle.vx_layout_spec.specs.Rows.{rows};
ghost use Rattle.vx_segment_reader.specs.Codec.{segment_codec};
ghost use Rattle.vx_layout_tree.specs.LayoutView.{layout_data};
ghost use Rattle.vx_segment_map.specs.SegmentView.{segment_in};
ghost use Rattle.vx_report.specs.ZoneText.{zone_tables};
ghost use Rattle.vx_run.specs.Tables.{TablesThere, zone_length, own_tables, tables_at, IsRead, AreRead, ReadsOn};

use crate::answer::read_back;
use std::alloc::{AllocError, Global};
use vx_layout_tree::{KindRef, Layout};
use vx_read::SegmentMap;
use vx_report::TableRows;
use vx_row_count::child_there;

/// The tables of the layout, a node's own before those below it.
///
/// Looks at each node once, and reads the rows of each table.
pub fn read_tables(
    alloc: Global,
    layout: &Layout,
    segments: &SegmentMap,
) -> Result<Vec<TableRows>, AllocError>
    requires { TablesThere (segment_in segments.now) (layout_data layout.now) }
    ensures { IfOk result (λ v. AreRead (segment_in segments.now) v.items (zone_tables (layout_data layout.now))) }
{
    let mut tables = Vec::new(alloc);
    push_tables(alloc, layout, segments, &mut tables)?;
    Ok(tables)
}

#[cycle(tables)]
fn push_tables(
    alloc: Global,
    layout: &Layout,
    segments: &SegmentMap,
    tables: &mut Vec<TableRows>,
) -> Result<(), AllocError>
    requires { TablesThere (segment_in segments.now) (layout_data layout.now) }
    ensures { OnOk result (ReadsOn (segment_in segments.now) tables.old.items tables.new.items (zone_tables (layout_data layout.now))) }
{
    push_own(alloc, layout, segments, tables)?;
    for i in 0..layout.nchildren() {
        push_child(alloc, layout, i, segments, tables)?;
    }
    Ok(())
}

/// The tables of the child at the place.
#[cycle(tables)]
fn push_child(
    alloc: Global,
    layout: &Layout,
    i: u64,
    segments: &SegmentMap,
    tables: &mut Vec<TableRows>,
) -> Result<(), AllocError>
    requires there { TablesThere (segment_in segments.now) (layout_data layout.now) }
    requires place { i < length (children_of (layout_data layout.now)) }
    ensures { OnOk result (ReadsOn (segment_in segments.now) tables.old.items tables.new.items (tables_at (children_of (layout_data layout.now)) i)) }
{
    let child = child_there(layout, i)?;
    let pushed = push_tables(alloc, child.layout(), segments, tables);
    drop(child);
    pushed
}

/// The node's own table, where it has one.
fn push_own(
    alloc: Global,
    layout: &Layout,
    segments: &SegmentMap,
    tables: &mut Vec<TableRows>,
) -> Result<(), AllocError>
    requires { TablesThere (segment_in segments.now) (layout_data layout.now) }
    ensures { OnOk result (ReadsOn (segment_in segments.now) tables.old.items tables.new.items (own_tables (layout_data layout.now))) }
{
    match zone_length(layout) {
        Some(zone_len) => {
            let table = read_table(alloc, layout, segments, zone_len)?;
            tables.push(table)?;
            Ok(())
        }
        None => Ok(()),
    }
}

/// The zone length of a node that has a table.
fn zone_length(layout: &Layout) -> Option<u32>
    ensures { result ≡ zone_length (layout_kind (layout_data layout.now)) }
{
    match layout.by_kind() {
        KindRef::Zoned(_, zone_len, _) | KindRef::LegacyStats(_, zone_len, _) => Some(zone_len),
        KindRef::Flat(_) | KindRef::Chunked(_) | KindRef::Struct(_) | KindRef::List(_) => None,
        KindRef::Dict(..) | KindRef::Unread(..) | KindRef::Foreign(..) => None,
    }
}

/// A node's own table, its second child.
fn read_table(
    alloc: Global,
    layout: &Layout,
    segments: &SegmentMap,
    zone_len: u32,
) -> Result<TableRows, AllocError>
    requires there { TablesThere (segment_in segments.now) (layout_data layout.now) }
    requires zoned { zone_length (layout_kind (layout_data layout.now)) ≡ Some zone_len }
    ensures { IfOk result (λ t. AreRead (segment_in segments.now) (t ∷ []) (own_tables (layout_data layout.now))) }
{
    let zones = child_there(layout, 1)?;
    let table = table_of(alloc, zones.layout(), segments, zone_len);
    drop(zones);
    table
}

/// The table whose rows the layout gives.
fn table_of(
    alloc: Global,
    zones: &Layout,
    segments: &SegmentMap,
    zone_len: u32,
) -> Result<TableRows, AllocError>
    requires { IsSome (rows segment_codec (segment_in segments.now) (layout_data zones.now)) }
    ensures { IfOk result (λ t. IsRead (segment_in segments.now) t (record { zone_len = zone_len; rows = layout_data zones.now })) }
{
    let dtype = zones.dtype().clone()?;
    match read_back(alloc, zones, segments) {
        Ok(rows) => Ok(TableRows {
            zone_len,
            dtype,
            rows,
        }),
        Err(error) => {
            drop(dtype);
            Err(error)
        }
    }
}
