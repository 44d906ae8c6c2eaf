//! A chunk as the bytes of a segment.

ghost use Rattle.std.specs.Prelude.{◌≡◌, ◌<◌, ◌^◌, ◌∷◌, [], Some, None, length, OnOk, IfOk, IfErr};
ghost use Rattle.vx_model.specs.ChunkData.{pieces_of};
ghost use Rattle.vx_model.specs.Distinct.{first_repeat};
ghost use Rattle.vx_chunk.specs.Encoded.{encoding_of};
ghost use Rattle.vx_segment_writer.specs.Segment.{own_buffers, buffers, buffers_below, head_of, heads, heads_below, own_refusal, refused, refused_below, encode};
ghost use Rattle.vx_segment_writer.specs.Encoding.{HasEncodeCause};
ghost use Rattle.vx_segment_writer.specs.Written.{IsWritten};

use crate::buffers::add_own;
use crate::error::EncodeError;
use crate::head::{Head, child_count, extra, push_head};
use std::alloc::Global;
use vx_chunk::{Chunk, Node};
use vx_model::ArrayContext;

/// The node's own buffers and its head.
#[tactic(auto, using(crate::proofs::Steps::node_rules))]
fn push_node(
    ctx: &ArrayContext,
    padded: bool,
    chunk: &Chunk,
    out: &mut Vec<u8>,
    tree: &mut Vec<u8>,
) -> Result<(), EncodeError>
    ensures written { OnOk result (IsWritten padded out.old.items out.new.items tree.old.items tree.new.items (own_refusal ctx.now (encoding_of chunk.now)) (own_buffers chunk.now) (head_of ctx.now chunk.now ∷ [])) }
    ensures refused { IfErr result (HasEncodeCause (own_refusal ctx.now (encoding_of chunk.now))) }
{
    let encoding = chunk.encoding();
    let Some(index) = ctx.place(encoding) else {
        return Err(EncodeError::EncodingNotListed(encoding));
    };
    let mut lengths = Vec::new(*out.allocator());
    add_own(padded, out, &mut lengths, chunk)?;
    let head = Head {
        index,
        rows: chunk.len(),
        extra: extra(chunk),
        lengths,
        children: child_count(chunk),
    };
    push_head(tree, &head)?;
    Ok(())
}

/// The chunk's buffers and nodes.
#[cycle(encode)]
#[tactic(auto, using(crate::proofs::Steps::chunk_rules))]
fn push_chunk(
    ctx: &ArrayContext,
    padded: bool,
    chunk: &Chunk,
    out: &mut Vec<u8>,
    tree: &mut Vec<u8>,
) -> Result<(), EncodeError>
    ensures written { OnOk result (IsWritten padded out.old.items out.new.items tree.old.items tree.new.items (refused ctx.now chunk.now) (buffers chunk.now) (heads ctx.now chunk.now)) }
    ensures refused { IfErr result (HasEncodeCause (refused ctx.now chunk.now)) }
{
    push_node(ctx, padded, chunk, out, tree)?;
    match chunk.node() {
        Node::Plain { .. } | Node::Constant { .. } => Ok(()),
        Node::Dict { codes, values } => {
            push_chunk(ctx, padded, codes, out, tree)?;
            push_chunk(ctx, padded, values, out, tree)
        }
        Node::Chunked { parts, .. } => push_chunks(ctx, padded, parts, out, tree),
        Node::Struct { fields, .. } => push_chunks(ctx, padded, fields, out, tree),
        Node::List { elements, .. } => push_chunk(ctx, padded, elements, out, tree),
        Node::Extension { storage, .. } => push_chunk(ctx, padded, storage, out, tree),
    }
}

#[cycle(encode)]
#[tactic(auto, using(crate::proofs::Steps::chunk_rules))]
fn push_chunks(
    ctx: &ArrayContext,
    padded: bool,
    chunks: &[Chunk],
    out: &mut Vec<u8>,
    tree: &mut Vec<u8>,
) -> Result<(), EncodeError>
    ensures written { OnOk result (IsWritten padded out.old.items out.new.items tree.old.items tree.new.items (refused_below ctx.now (pieces_of chunks.now)) (buffers_below (pieces_of chunks.now)) (heads_below ctx.now (pieces_of chunks.now))) }
    ensures refused { IfErr result (HasEncodeCause (refused_below ctx.now (pieces_of chunks.now))) }
{
    for chunk in chunks {
        push_chunk(ctx, padded, chunk, out, tree)?;
    }
    Ok(())
}

/// The segment of a chunk: its buffers, its tree of encodings and the tree's length. With `padding` each buffer begins
/// at a multiple of eight bytes.
#[tactic(auto, using(crate::proofs::Steps::segment_rules))]
pub fn encode_segment(
    alloc: Global,
    ctx: &ArrayContext,
    chunk: &Chunk,
    padding: bool,
) -> Result<Vec<u8>, EncodeError>
    ensures ok { IfOk result (λ bytes. encode ctx.now padding chunk.now ≡ Some bytes.items) }
    ensures refused { IfErr result (HasEncodeCause (refused ctx.now chunk.now)) }
    ensures short { IfOk result (λ bytes. length bytes.items < 2 ^ 64) }
    ensures distinct { first_repeat ctx.now ≡ None }
{
    ctx.ids();
    let mut out = Vec::new(alloc);
    let mut tree = Vec::new(alloc);
    tree.push(padding as u8)?;
    push_chunk(ctx, padding, chunk, &mut out, &mut tree)?;
    out.extend_from_slice(&tree)?;
    out.extend_from_slice(&(tree.len() as u64).to_le_bytes())?;
    Ok(out)
}
