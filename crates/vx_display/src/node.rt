//! A node's own line.

ghost use Rattle.std.specs.Prelude.{◌≡◌, ◌++◌, ◌+◌, ◌==◌, ◌-◌, ◌*◌, ◌≤◌, ◌^◌, Some, None, Ok, true, length, map, string_bytes, codes, decimal, OnOk};
ghost use Rattle.vx_model.specs.Shown.{type_text, comma};
ghost use Rattle.vx_model.specs.TyView.{ty};
ghost use Rattle.vx_layout_spec.specs.LayoutTree.{layout_kind, segments_of};
ghost use Rattle.vx_layout_tree.specs.FlatView.{flat_lay};
ghost use Rattle.vx_layout_tree.specs.Shown.{in_brackets};
ghost use Rattle.vx_layout_tree.specs.LayoutView.{layout_data, number as id_number};
ghost use Rattle.vx_display.specs.Lengths.{kind_fault};
ghost use Rattle.vx_display.specs.Text.{children_text, detail_text, metadata_text, rows_text, verbosely, segments_text, segment_text, own_text, node_text, sizes, total};
ghost use Rattle.vx_display.specs.Views.{map_of, style as seen, Faults};

use crate::lengths::known_lengths;
use crate::style::{Stop, Style};
use std::alloc::AllocError;
use std::fmt::Write;
use vx_layout_slots::LayoutSlots;
use vx_layout_tree::{FlatLayout, Layout, SegmentList};
use vx_model::{DType, SegmentId};

#[tactic(auto, using(crate::proofs::NodeSteps::node_rules))]
pub(crate) fn push_node(style: &Style, out: &mut String, layout: &Layout) -> Result<(), Stop>
    ensures text { OnOk result (string_bytes out.new ≡ string_bytes out.old ++ node_text (seen style.now) (layout_data layout.now)) }
    ensures fault { Faults result (kind_fault (map_of style.now) (layout_kind (layout_data layout.now)) (segments_of (layout_data layout.now))) (Ok tt) }
{
    push_head(out, layout.encoding_id(), layout.dtype())?;
    push_count(out, layout.nchildren())?;
    push_details(style, out, layout)?;
    push_own(style, out, layout)
}

#[tactic(auto, using(crate::proofs::NodeSteps::text_rules))]
fn push_head(out: &mut String, id: &str, dtype: &DType) -> Result<(), AllocError>
    ensures { OnOk result (string_bytes out.new ≡ string_bytes out.old ++ (id.now ++ (codes ", dtype: " ++ type_text (ty dtype.now)))) }
{
    write!(out, "{id}, dtype: {dtype}")?;
    Ok(())
}

#[tactic(auto, using(crate::proofs::NodeSteps::text_rules))]
fn push_count(out: &mut String, children: u64) -> Result<(), AllocError>
    ensures { OnOk result (string_bytes out.new ≡ string_bytes out.old ++ children_text children) }
{
    if children > 0 {
        write!(out, ", children: {children}")?;
    }
    Ok(())
}

/// What only verbose texts have: the length of the metadata, and the rows.
#[tactic(auto, using(crate::proofs::NodeSteps::text_rules))]
fn push_details(style: &Style, out: &mut String, layout: &Layout) -> Result<(), AllocError>
    ensures { OnOk result (string_bytes out.new ≡ string_bytes out.old ++ detail_text (seen style.now) (layout_data layout.now)) }
{
    if !style.verbose {
        return Ok(());
    }
    let metadata = layout.metadata(style.alloc)?;
    push_metadata(out, metadata.len())?;
    push_rows(out, layout.row_count())
}

#[tactic(auto, using(crate::proofs::NodeSteps::text_rules))]
fn push_rows(out: &mut String, rows: u64) -> Result<(), AllocError>
    ensures { OnOk result (string_bytes out.new ≡ string_bytes out.old ++ rows_text rows) }
{
    write!(out, ", rows: {rows}")?;
    Ok(())
}

#[tactic(auto, using(crate::proofs::NodeSteps::text_rules))]
fn push_metadata(out: &mut String, bytes: usize) -> Result<(), AllocError>
    ensures { OnOk result (string_bytes out.new ≡ string_bytes out.old ++ metadata_text bytes) }
{
    if bytes > 0 {
        write!(out, ", metadata: {bytes} bytes")?;
    }
    Ok(())
}

/// The segments of the node itself.
#[tactic(auto, using(crate::proofs::NodeSteps::own_rules))]
fn push_own(style: &Style, out: &mut String, layout: &Layout) -> Result<(), Stop>
    ensures text { OnOk result (string_bytes out.new ≡ string_bytes out.old ++ own_text (seen style.now) (layout_kind (layout_data layout.now)) (segments_of (layout_data layout.now))) }
    ensures fault { Faults result (kind_fault (map_of style.now) (layout_kind (layout_data layout.now)) (segments_of (layout_data layout.now))) (Ok tt) }
{
    match layout.as_flat() {
        Some(flat) => push_flat(style, out, flat),
        None => {
            push_segments(out, style.verbose, layout.segment_ids())?;
            Ok(())
        }
    }
}

#[tactic(auto, using(crate::proofs::NodeSteps::own_rules))]
fn push_flat(style: &Style, out: &mut String, flat: &FlatLayout) -> Result<(), Stop>
    ensures text { OnOk result (string_bytes out.new ≡ string_bytes out.old ++ own_text (seen style.now) (layout_kind (flat_lay flat.now)) (segments_of (flat_lay flat.now))) }
    ensures fault { Faults result (kind_fault (map_of style.now) (layout_kind (flat_lay flat.now)) (segments_of (flat_lay flat.now))) (Ok tt) }
{
    let number = flat.segment_id().0;
    match known_lengths(style, flat.array_tree(), number)? {
        Some(lengths) => push_lengths(out, number, &lengths)?,
        None => push_number(out, number)?,
    }
    Ok(())
}

#[tactic(auto, using(crate::proofs::NodeSteps::text_rules))]
fn push_number(out: &mut String, number: u32) -> Result<(), AllocError>
    ensures { OnOk result (string_bytes out.new ≡ string_bytes out.old ++ segment_text number None) }
{
    write!(out, ", segment: {number}")?;
    Ok(())
}

#[tactic(auto, using(crate::proofs::NodeSteps::text_rules))]
fn push_lengths(out: &mut String, number: u32, lengths: &[u64]) -> Result<(), AllocError>
    ensures { OnOk result (string_bytes out.new ≡ string_bytes out.old ++ segment_text number (Some lengths.now)) }
{
    push_known(out, number)?;
    push_sizes(out, lengths)?;
    push_total(out, total_of(lengths))
}

#[tactic(auto, using(crate::proofs::NodeSteps::text_rules))]
fn push_known(out: &mut String, number: u32) -> Result<(), AllocError>
    ensures { OnOk result (string_bytes out.new ≡ string_bytes out.old ++ (codes ", segment " ++ (decimal number ++ codes ", buffers=["))) }
{
    write!(out, ", segment {number}, buffers=[")?;
    Ok(())
}

#[tactic(auto, using(crate::proofs::NodeSteps::text_rules))]
fn push_total(out: &mut String, total: u128) -> Result<(), AllocError>
    ensures { OnOk result (string_bytes out.new ≡ string_bytes out.old ++ (codes "], total=" ++ (decimal total ++ codes "B"))) }
{
    write!(out, "], total={total}B")?;
    Ok(())
}

#[tactic(auto, using(crate::proofs::NodeSteps::size_rules))]
fn push_sizes(out: &mut String, lengths: &[u64]) -> Result<(), AllocError>
    ensures { OnOk result (string_bytes out.new ≡ string_bytes out.old ++ sizes true lengths.now) }
{
    for i in 0..lengths.len() {
        push_size(out, i == 0, lengths[i])?;
    }
    Ok(())
}

#[tactic(auto, using(crate::proofs::NodeSteps::text_rules))]
fn push_size(out: &mut String, first: bool, length: u64) -> Result<(), AllocError>
    ensures { OnOk result (string_bytes out.new ≡ string_bytes out.old ++ (comma first ++ (decimal length ++ codes "B"))) }
{
    if !first {
        out.push_str(", ")?;
    }
    write!(out, "{length}B")?;
    Ok(())
}

#[tactic(auto, using(crate::proofs::NodeSteps::total_rules))]
fn total_of(lengths: &[u64]) -> u128
    ensures { result ≡ total lengths.now }
{
    let mut sum = 0u128;
    for length in lengths {
        sum += *length as u128;
    }
    sum
}

#[tactic(auto, using(crate::proofs::NodeSteps::text_rules))]
fn push_segments(out: &mut String, verbose: bool, segments: &[SegmentId]) -> Result<(), AllocError>
    ensures { OnOk result (string_bytes out.new ≡ string_bytes out.old ++ verbosely verbose (segments_text (map id_number segments.now))) }
{
    if !verbose {
        return Ok(());
    }
    match segments {
        [] => Ok(()),
        [_, ..] => push_list(out, segments),
    }
}

#[tactic(auto, using(crate::proofs::NodeSteps::text_rules))]
fn push_list(out: &mut String, segments: &[SegmentId]) -> Result<(), AllocError>
    ensures { OnOk result (string_bytes out.new ≡ string_bytes out.old ++ (codes ", segments: " ++ in_brackets (map id_number segments.now))) }
{
    let list = SegmentList(segments);
    write!(out, ", segments: {list}")?;
    Ok(())
}
