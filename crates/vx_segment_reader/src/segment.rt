//! Reading a segment back.

ghost use Rattle.std.specs.Prelude.{◌≡◌, ◌+◌, ◌≤◌, ◌<◌, ◌^◌, Bool, length, map, Some, Ok, IfOk};
ghost use Rattle.vx_model.specs.TyView.{ty};
ghost use Rattle.vx_model.specs.ChunkData.{ChunkData, piece_type};
ghost use Rattle.vx_layout_spec.specs.Real.{Whole};
ghost use Rattle.vx_segment_writer.specs.Segment.{encode};
ghost use Rattle.vx_segment_spec.specs.Codec.{IsSegment};
ghost use Rattle.vx_segment_spec.specs.Segment.{halves_of, raw_of, piece_in, decode, segment_lengths, tree_lengths};
ghost use Rattle.vx_segment_reader.specs.Views.{Gives, head, raw};

use crate::buffers::{all_lengths, read_buffers};
use crate::error::DecodeError;
use crate::node::RawSegment;
use crate::pieces::read_piece;
use crate::rest::{Frame, Rest};
use crate::tree::read_tree;
use std::alloc::Global;
use vx_chunk::Chunk;
use vx_model::{ArrayContext, DType, EncodingId};

/// The bytes before the tree, and the tree.
#[tactic(auto, using(crate::proofs::SegmentSteps::half_rules, vx_segment_spec::proofs::TreeLaws::tree_again, vx_segment_spec::proofs::BufferLaws::halves_again))]
fn halves(bytes: &[u8]) -> Result<(&[u8], &[u8]), DecodeError>
    ensures halves { Gives (λ x. (x.0.now, x.1.now)) result (halves_of bytes.now) }
    ensures shorter { IfOk result (λ x. length x.0.now + 8 ≤ length bytes.now) }
    ensures in_memory { length bytes.now < 2 ^ 64 }
{
    if bytes.len() < 8 {
        return Err(DecodeError::Grammar(0));
    }
    let (front, last) = bytes.split_at(bytes.len() - 8);
    let length = u64::from_le_bytes([
        last[0], last[1], last[2], last[3], last[4], last[5], last[6], last[7],
    ]);
    if (front.len() as u64) < length {
        return Err(DecodeError::Grammar(front.len() as u64));
    }
    Ok(front.split_at(front.len() - length as usize))
}

/// The tree and the buffers, of every encoding.
#[tactic(auto, unfolding(vx_segment_spec::specs::Segment::raw_of))]
fn read_raw<'a>(alloc: Global, bytes: &'a [u8]) -> Result<RawSegment<'a>, DecodeError>
    ensures exact { Gives raw result (raw_of bytes.now) }
    ensures in_memory { length bytes.now < 2 ^ 64 }
{
    let (data, tree_bytes) = halves(bytes)?;
    let tree = read_tree(alloc, (bytes.len() - 8) as u64, tree_bytes)?;
    let lengths = all_lengths(alloc, &tree.nodes)?;
    let buffers = read_buffers(alloc, tree.padded, &lengths, data)?;
    Ok(RawSegment { tree, buffers })
}

/// The lengths in bytes of all buffers of a segment, in pre-order of their nodes, whatever its type.
pub fn buffer_lengths(alloc: Global, bytes: &[u8]) -> Result<Vec<u64>, DecodeError>
    ensures { Gives (λ v. v.items) result (segment_lengths bytes.now) }
{
    let segment = read_raw(alloc, bytes)?;
    Ok(all_lengths(alloc, &segment.tree.nodes)?)
}

/// The same of a segment's tree alone. Places count from the tree's first byte.
pub fn tree_buffer_lengths(alloc: Global, tree: &[u8]) -> Result<Vec<u64>, DecodeError>
    ensures { Gives (λ v. v.items) result (tree_lengths tree.now) }
{
    let read = read_tree(alloc, tree.len() as u64, tree)?;
    Ok(all_lengths(alloc, &read.nodes)?)
}

#[tactic(auto, unfolding(vx_segment_spec::specs::Segment::piece_in))]
fn read_chunk(
    alloc: Global,
    ids: &[EncodingId],
    dtype: &DType,
    bytes: &[u8],
) -> Result<Chunk, DecodeError>
    ensures exact { Gives (λ c. c) result (decode ids.now (ty dtype.now) bytes.now) }
    ensures in_memory { length bytes.now < 2 ^ 64 }
{
    let segment = read_raw(alloc, bytes)?;
    let frame = Frame {
        alloc,
        ids,
        total: segment.tree.nodes.len() as u64,
    };
    let rest = Rest {
        nodes: &segment.tree.nodes,
        buffers: &segment.buffers,
    };
    let (chunk, _) = read_piece(&frame, dtype, rest)?;
    Ok(chunk)
}

/// The chunk of a type that a segment is.
pub fn decode_segment(
    alloc: Global,
    ctx: &ArrayContext,
    dtype: &DType,
    bytes: &[u8],
) -> Result<Chunk, DecodeError>
    // What is read is the segment of the chunk, padded or not.
    ensures found { IfOk result (λ c. IsSegment ctx.now c bytes.now × (piece_type c ≡ ty dtype.now)) }
    // What is the segment of a chunk of the type is read, unless memory runs out.
    ensures only { (padding : Bool) (p : ChunkData) → Whole p → piece_type p ≡ ty dtype.now → encode ctx.now padding p ≡ Some bytes.now → Gives (λ c. c) result (Ok p) }
    // Which fault it is.
    ensures exact { Gives (λ c. c) result (decode ctx.now (ty dtype.now) bytes.now) }
{
    read_chunk(alloc, ctx.ids(), dtype, bytes)
}
