//! The text that the program prints.

ghost use Rattle.std.specs.Prelude.{◌≡◌, ◌++◌, ◌+◌, ◌<◌, ◌^◌, List, string_bytes, map, length, IfOk, OnOk};
ghost use Rattle.vx_model.specs.ValueData.{ValueData};
ghost use Rattle.vx_model.specs.TreeView.{val};
ghost use Rattle.vx_layout_tree.specs.LayoutView.{layout_data};
ghost use Rattle.vx_report.specs.ZoneText.{zone_tables};
ghost use Rattle.vx_report.specs.TableView.{AreTables, rows_of};
ghost use Rattle.vx_report.specs.RowText.{row_lines};
ghost use Rattle.vx_report.specs.Report.{report, report_front, refused_report, columns_report, refused_columns, segment_line, segment_lines};

use crate::row_text::push_rows;
use crate::trace_text::push_steps;
use crate::zone_text::{TableRows, push_tables};
use std::alloc::{AllocError, Global};
use vx_display::LayoutDisplay;
use vx_layout_tree::Layout;
use vx_model::{Blob, Value};
use vx_write_answer::Step;

/// The report of a write, whose first segment has the number `first`, with the rows of its zone tables, its steps, and the rows
/// that were read back.
#[tactic(auto, using(crate::proofs::Lines::text_rules))]
pub fn report(
    alloc: Global,
    first: u64,
    layout: &Layout,
    segments: &[Blob],
    tables: &[TableRows],
    steps: &[Step],
    rows: &[Value],
) -> Result<String, AllocError>
    requires numbered { first + length segments.now < 2 ^ 64 }
    requires tables { AreTables tables.now (zone_tables (layout_data layout.now)) }
    ensures { IfOk result (λ text. string_bytes text ≡ report first (layout_data layout.now) segments.now (rows_of tables.now) steps.now (map val rows.now)) }
{
    let mut out = report_head(alloc, first, layout, segments, tables, steps)?;
    push_rows(alloc, &mut out, rows)?;
    Ok(out)
}

/// The report of a write up to its rows, whose lines come behind it: `row_lines` gives them.
#[tactic(auto, using(crate::proofs::Lines::text_rules))]
pub fn report_head(
    alloc: Global,
    first: u64,
    layout: &Layout,
    segments: &[Blob],
    tables: &[TableRows],
    steps: &[Step],
) -> Result<String, AllocError>
    requires numbered { first + length segments.now < 2 ^ 64 }
    requires tables { AreTables tables.now (zone_tables (layout_data layout.now)) }
    ensures { IfOk result (λ text. (rows : List ValueData) → string_bytes text ++ row_lines rows ≡ report first (layout_data layout.now) segments.now (rows_of tables.now) steps.now rows) }
{
    let mut out = front(alloc, first, layout, segments, tables)?;
    out.push_str("trace\n")?;
    push_steps(&mut out, steps)?;
    out.push_str("rows\n")?;
    Ok(out)
}

/// The report of a write by columns, that of a write without its steps, up to its rows.
#[tactic(auto, using(crate::proofs::Lines::text_rules))]
pub fn columns_head(
    alloc: Global,
    first: u64,
    layout: &Layout,
    segments: &[Blob],
    tables: &[TableRows],
) -> Result<String, AllocError>
    requires numbered { first + length segments.now < 2 ^ 64 }
    requires tables { AreTables tables.now (zone_tables (layout_data layout.now)) }
    ensures { IfOk result (λ text. (rows : List ValueData) → string_bytes text ++ row_lines rows ≡ columns_report first (layout_data layout.now) segments.now (rows_of tables.now) rows) }
{
    let mut out = front(alloc, first, layout, segments, tables)?;
    out.push_str("rows\n")?;
    Ok(out)
}

/// What stands in both reports before the steps: the tree, the segments and the zone tables.
#[tactic(auto, using(crate::proofs::Lines::text_rules))]
fn front(
    alloc: Global,
    first: u64,
    layout: &Layout,
    segments: &[Blob],
    tables: &[TableRows],
) -> Result<String, AllocError>
    requires numbered { first + length segments.now < 2 ^ 64 }
    requires tables { AreTables tables.now (zone_tables (layout_data layout.now)) }
    ensures { IfOk result (λ text. string_bytes text ≡ report_front first (layout_data layout.now) segments.now (rows_of tables.now)) }
{
    let mut out = String::from_str(alloc, "layout\n")?;
    let tree = layout.display_tree_verbose(alloc, true)?;
    out.push_str(tree.as_str())?;
    out.push_str("segments\n")?;
    push_segments(alloc, &mut out, first, segments)?;
    out.push_str("zones\n")?;
    push_tables(alloc, &mut out, tables)?;
    Ok(out)
}

/// The report of a refused write by columns: that of a refused write without its steps.
#[tactic(auto, using(crate::proofs::Lines::text_rules))]
pub fn refused_columns(
    alloc: Global,
    name: &str,
    first: u64,
    segments: &[Blob],
) -> Result<String, AllocError>
    requires { first + length segments.now < 2 ^ 64 }
    ensures { IfOk result (λ text. string_bytes text ≡ refused_columns name.now first segments.now) }
{
    let mut out = String::from_str(alloc, "refused ")?;
    out.push_str(name)?;
    out.push_str("\nsegments\n")?;
    push_segments(alloc, &mut out, first, segments)?;
    Ok(out)
}

/// The report of a refused write: the name of the refusal, the segments that stand, and the steps before.
#[tactic(auto, using(crate::proofs::Lines::text_rules))]
pub fn refused_report(
    alloc: Global,
    name: &str,
    first: u64,
    segments: &[Blob],
    steps: &[Step],
) -> Result<String, AllocError>
    requires { first + length segments.now < 2 ^ 64 }
    ensures { IfOk result (λ text. string_bytes text ≡ refused_report name.now first segments.now steps.now) }
{
    let mut out = refused_columns(alloc, name, first, segments)?;
    out.push_str("trace\n")?;
    push_steps(&mut out, steps)?;
    Ok(out)
}

#[tactic(auto, using(crate::proofs::Lines::line_rules))]
fn push_segments(
    alloc: Global,
    out: &mut String,
    first: u64,
    segments: &[Blob],
) -> Result<(), AllocError>
    requires { first + length segments.now < 2 ^ 64 }
    ensures { OnOk result (string_bytes out.new ≡ string_bytes out.old ++ segment_lines first segments.now) }
{
    for i in 0..segments.len() {
        push_segment(alloc, out, first + i as u64, &segments[i])?;
    }
    Ok(())
}

#[tactic(auto, using(crate::proofs::Lines::text_rules))]
fn push_segment(
    alloc: Global,
    out: &mut String,
    number: u64,
    segment: &Blob,
) -> Result<(), AllocError>
    ensures { OnOk result (string_bytes out.new ≡ string_bytes out.old ++ segment_line number segment.now) }
{
    write!(out, "{number} ")?;
    let text = hex::encode(alloc, segment.as_slice())?;
    out.push_str(&text)?;
    out.push_str("\n")?;
    Ok(())
}
