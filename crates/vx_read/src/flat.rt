//! The rows of a segment.

ghost use Rattle.std.specs.Prelude.{◌≡◌, IfOk, option_map};
ghost use Rattle.vx_model.specs.TyView.{ty};
ghost use Rattle.vx_model.specs.ChunkData.{row_values};
ghost use Rattle.vx_layout_spec.specs.LayoutTree.{segments_of};
ghost use Rattle.vx_layout_spec.specs.Rows.{and_then, counted, flat_rows};
ghost use Rattle.vx_segment_reader.specs.Codec.{segment_codec, cells_read};
ghost use Rattle.vx_segment_reader.specs.Segment.{decode as segment_of};
ghost use Rattle.vx_layout_tree.specs.FlatView.{flat_lay, listed_in};
ghost use Rattle.vx_segment_map.specs.SegmentView.{segment_in};
ghost use Rattle.vx_read.specs.Parts.{rows_in, values_of};
ghost use Rattle.vx_read.specs.Reading.{flat_fault};
ghost use Rattle.vx_read.specs.Answers.{Reads};

use crate::counts::test_count;
use std::alloc::{AllocError, Global};
use vx_chunk::Chunk;
use vx_layout_tree::FlatLayout;
use vx_model::{ArrayContext, DType, Value};
use vx_segment_map::{ReadError, SegmentMap};
use vx_segment_reader::{DecodeError, decode_segment};

/// The rows of a flat layout's segment, of which there must be so many.
#[tactic(auto, using(crate::proofs::FlatSteps::flat_rules))]
pub(crate) fn flat_rows(
    alloc: Global,
    dtype: &DType,
    row_count: u64,
    flat: &FlatLayout,
    segments: &SegmentMap,
) -> Result<Vec<Value>, ReadError>
    ensures { Reads rows_in result (and_then (counted row_count) (flat_rows segment_codec (segment_in segments.now) (listed_in (flat_lay flat.now)) (ty dtype.now) (segments_of (flat_lay flat.now)))) (flat_fault segment_codec (segment_in segments.now) (listed_in (flat_lay flat.now)) (ty dtype.now) row_count (segments_of (flat_lay flat.now))) }
{
    let number = flat.segment_id().0;
    let Some(segment) = segments.segment(number) else {
        return Err(ReadError::NoSegment(number));
    };
    let Some(rows) = decoded(alloc, flat.array_ctx(), dtype, segment.as_slice())? else {
        return Err(ReadError::BadSegment(number));
    };
    test_count(&rows, row_count)?;
    Ok(rows)
}

/// The rows of the chunk of a type that a segment is.
fn decoded(
    alloc: Global,
    ctx: &ArrayContext,
    dtype: &DType,
    bytes: &[u8],
) -> Result<Option<Vec<Value>>, AllocError>
    ensures { IfOk result (λ o. option_map rows_in o ≡ option_map values_of (cells_read (segment_of ctx.now (ty dtype.now) bytes.now))) }
{
    match decode_segment(alloc, ctx, dtype, bytes) {
        Ok(chunk) => Ok(Some(rows_of(alloc, chunk)?)),
        Err(DecodeError::Grammar(_) | DecodeError::BadType(_)) => Ok(None),
        Err(DecodeError::OutOfMemory) => Err(AllocError),
    }
}

fn rows_of(alloc: Global, chunk: Chunk) -> Result<Vec<Value>, AllocError>
    ensures { IfOk result (λ v. rows_in v ≡ row_values chunk) }
{
    match chunk.into_rows(alloc) {
        Ok(rows) => Ok(rows),
        Err(_) => Err(AllocError),
    }
}
