//! Reading rows as chunks.

ghost use Rattle.vx_layout_spec.specs.Rows.{rows};
ghost use Rattle.vx_layout_tree.specs.LayoutView.{layout_data};
ghost use Rattle.vx_segment_reader.specs.Codec.{segment_codec};
ghost use Rattle.vx_segment_map.specs.SegmentView.{segment_in};
ghost use Rattle.vx_read.specs.Reading.{first_fault};
ghost use Rattle.vx_read.specs.Answers.{TellsFault};
ghost use Rattle.vx_read_chunk.specs.Held.{GivesHeld};

use crate::held::{HeldPart, HeldRows};
use crate::holding::held_parts;
use std::alloc::Global;
use vx_layout_tree::Layout;
use vx_read::{ReadError, SegmentMap, read_rows, rows_without_fault};

/// The rows of a layout, read from its segments: those that `read_rows` gives, in chunks. Rows of lists and dictionaries, of
/// nullable structs, and of structs over one of these are held one by one.
#[tactic(auto, using(crate::proofs::HoldingSteps::read_rules))]
pub fn read_chunk(
    alloc: Global,
    layout: &Layout,
    segments: &SegmentMap,
) -> Result<HeldRows, ReadError>
    ensures rows { GivesHeld result (rows segment_codec (segment_in segments.now) (layout_data layout.now)) }
    ensures fault { TellsFault result (first_fault segment_codec (segment_in segments.now) (layout_data layout.now)) }
{
    if let Some(parts) = held_parts(alloc, layout, segments)? {
        rows_without_fault();
        return Ok(HeldRows { parts });
    }
    // Something is at fault: this tells what.
    let rows = read_rows(alloc, layout, segments)?;
    let parts = vec![in alloc; HeldPart::Values(rows)]?;
    Ok(HeldRows { parts })
}
