//! The chunk of a segment.

ghost use Rattle.std.specs.Prelude.{◌≡◌, Some, IfOk, IfSome};
ghost use Rattle.vx_model.specs.TyView.{ty};
ghost use Rattle.vx_model.specs.ChunkData.{row_values};
ghost use Rattle.vx_layout_spec.specs.LayoutTree.{segments_of};
ghost use Rattle.vx_layout_spec.specs.Rows.{and_then, counted, flat_rows};
ghost use Rattle.vx_segment_reader.specs.Codec.{segment_codec};
ghost use Rattle.vx_layout_tree.specs.FlatView.{flat_lay, listed_in};
ghost use Rattle.vx_segment_map.specs.SegmentView.{segment_in};

use std::alloc::{AllocError, Global};
use vx_chunk::Chunk;
use vx_layout_tree::FlatLayout;
use vx_model::DType;
use vx_segment_map::SegmentMap;
use vx_segment_reader::{DecodeError, decode_segment};

/// The chunk of a flat layout's segment, where it is one of so many rows.
#[tactic(auto, using(crate::proofs::FlatSteps::flat_rules))]
pub(crate) fn flat_chunk(
    alloc: Global,
    dtype: &DType,
    row_count: u64,
    flat: &FlatLayout,
    segments: &SegmentMap,
) -> Result<Option<Chunk>, AllocError>
    ensures { IfOk result (λ o. IfSome o (λ c. and_then (counted row_count) (flat_rows segment_codec (segment_in segments.now) (listed_in (flat_lay flat.now)) (ty dtype.now) (segments_of (flat_lay flat.now))) ≡ Some (row_values c))) }
{
    let number = flat.segment_id().0;
    let Some(segment) = segments.segment(number) else {
        return Ok(None);
    };
    match decode_segment(alloc, flat.array_ctx(), dtype, segment.as_slice()) {
        Ok(chunk) if chunk.len() == row_count => Ok(Some(chunk)),
        Ok(_) | Err(DecodeError::Grammar(_) | DecodeError::BadType(_)) => Ok(None),
        Err(DecodeError::OutOfMemory) => Err(AllocError),
    }
}
