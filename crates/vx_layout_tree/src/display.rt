//! The text of a layout: `vortex.flat(i64, rows=1, segments=[0])`.

ghost use Rattle.std.specs.Prelude.{◌++◌, true, decimal, map};
ghost use Rattle.std.specs.Fmt.{WritesOnOk};
ghost use Rattle.vx_layout_tree.specs.LayoutView.{number, layout_data};
ghost use Rattle.vx_model.specs.Shown.{comma};
ghost use Rattle.vx_layout_tree.specs.Shown.{numbers_text, in_brackets, segments_part, layout_text};

use crate::layout::Layout;
use std::fmt::{self, Formatter, Write};
use vx_model::SegmentId;

impl fmt::Display for Layout {
    ghost use Rattle.std.specs.Prelude.{Some};
    ghost use Rattle.vx_layout_tree.specs.LayoutView.{layout_data};
    ghost use Rattle.vx_layout_tree.specs.Shown.{layout_text};

    ghost output = { λ l. Some (layout_text (layout_data l)) };

    fn fmt<W: Write>(&self, f: &mut Formatter<W>) -> fmt::Result {
        write_layout(f, self)
    }
}

impl fmt::Debug for Layout {
    ghost use Rattle.std.specs.Prelude.{None};

    ghost debug_output = { λ l. None };

    /// The text.
    fn fmt<W: Write>(&self, f: &mut Formatter<W>) -> fmt::Result {
        fmt::Display::fmt(self, f)
    }
}

fn write_layout<W: Write>(f: &mut Formatter<W>, layout: &Layout) -> fmt::Result
    ensures { WritesOnOk W.write_str_gives f.old result (layout_text (layout_data layout.now)) f.new }
{
    let id = layout.encoding_id();
    let dtype = layout.dtype();
    let rows = layout.row_count();
    write!(f, "{id}({dtype}, rows={rows}")?;
    write_segments(f, layout.segment_ids())?;
    f.write_str(")")
}

/// Its segments, where there are any.
fn write_segments<W: Write>(f: &mut Formatter<W>, segments: &[SegmentId]) -> fmt::Result
    ensures { WritesOnOk W.write_str_gives f.old result (segments_part (map number segments.now)) f.new }
{
    match segments {
        [] => Ok(()),
        [_, ..] => {
            f.write_str(", segments=")?;
            write_list(f, segments)
        }
    }
}

/// Segments by their numbers: `[0, 1]`.
#[derive(Clone, Copy, Debug)]
pub struct SegmentList<'a>(pub &'a [SegmentId]);

impl fmt::Display for SegmentList<'_> {
    ghost use Rattle.std.specs.Prelude.{Some, map};
    ghost use Rattle.vx_layout_tree.specs.LayoutView.{number};
    ghost use Rattle.vx_layout_tree.specs.Shown.{in_brackets};

    ghost output = { λ list. Some (in_brackets (map number list.0.now)) };

    fn fmt<W: Write>(&self, f: &mut Formatter<W>) -> fmt::Result {
        write_list(f, self.0)
    }
}

fn write_list<W: Write>(f: &mut Formatter<W>, segments: &[SegmentId]) -> fmt::Result
    ensures { WritesOnOk W.write_str_gives f.old result (in_brackets (map number segments.now)) f.new }
{
    f.write_str("[")?;
    write_numbers(f, segments)?;
    f.write_str("]")
}

#[tactic(auto, using(crate::proofs::Texts::number_rules))]
fn write_numbers<W: Write>(f: &mut Formatter<W>, segments: &[SegmentId]) -> fmt::Result
    ensures { WritesOnOk W.write_str_gives f.old result (numbers_text true (map number segments.now)) f.new }
{
    for i in 0..segments.len() {
        write_number(f, i == 0, segments[i].0)?;
    }
    Ok(())
}

/// A number behind what stands before it.
fn write_number<W: Write>(f: &mut Formatter<W>, first: bool, number: u32) -> fmt::Result
    ensures { WritesOnOk W.write_str_gives f.old result (comma first ++ decimal number) f.new }
{
    f.write_str(if first { "" } else { ", " })?;
    write!(f, "{number}")
}
