//! The nodes of the tree of encodings.

ghost use Rattle.std.specs.Prelude.{◌≡◌, ◌<◌, ◌++◌, length, OnOk};
ghost use Rattle.vx_model.specs.Words.{joined_by};
ghost use Rattle.vx_model.specs.CellData.{u64_bytes};
ghost use Rattle.vx_segment_writer.specs.Head.{head_spelling};
ghost use Rattle.vx_segment_writer.specs.Segment.{extra_of, child_count as children_of};
ghost use Rattle.vx_segment_writer.specs.Views.{head};

use std::alloc::AllocError;
use vx_chunk::{Chunk, Node};
use vx_model::DType;

/// A node without its children, which are the nodes behind it.
#[derive(Debug, Drop)]
pub(crate) struct Head {
    /// The encoding's place in the context.
    pub(crate) index: usize,
    pub(crate) rows: u64,
    pub(crate) extra: u8,
    /// The buffers' lengths in bytes.
    pub(crate) lengths: Vec<u64>,
    /// How many children it has.
    pub(crate) children: u64,
}

/// Of a dictionary the number of its codes' type.
pub(crate) fn extra(chunk: &Chunk) -> u8
    ensures { result ≡ extra_of chunk.now }
{
    let Node::Dict { codes, .. } = chunk.node() else {
        return 0;
    };
    match codes.dtype() {
        DType::Primitive(p, _) => p.number(),
        DType::Bool(_) | DType::Utf8(_) | DType::Binary(_) => 0,
        DType::List(..) | DType::Struct(..) | DType::Extension(_) => 0,
    }
}

#[tactic(auto, using(crate::proofs::Steps::count_rules))]
pub(crate) fn child_count(chunk: &Chunk) -> u64
    ensures { result ≡ children_of chunk.now }
{
    match chunk.node() {
        Node::Plain { .. } | Node::Constant { .. } => 0,
        Node::Dict { .. } => 2,
        Node::Chunked { parts, .. } => parts.len() as u64,
        Node::Struct { fields, .. } => fields.len() as u64,
        Node::List { .. } | Node::Extension { .. } => 1,
    }
}

/// Appends the node's bytes. It has at most 255 buffers.
#[tactic(auto, using(crate::proofs::Steps::text_rules))]
pub(crate) fn push_head(out: &mut Vec<u8>, node: &Head) -> Result<(), AllocError>
    requires { length node.now.lengths.items < 256 }
    ensures { OnOk result (out.new.items ≡ out.old.items ++ head_spelling (head node.now)) }
{
    out.extend_from_slice(&[(node.index % 256) as u8, (node.index / 256 % 256) as u8])?;
    out.extend_from_slice(&node.rows.to_le_bytes())?;
    out.extend_from_slice(&[node.extra, node.lengths.len() as u8])?;
    push_numbers(out, &node.lengths)?;
    out.extend_from_slice(&node.children.to_le_bytes())?;
    Ok(())
}

#[tactic(auto, using(crate::proofs::Steps::text_rules))]
pub(crate) fn push_numbers(out: &mut Vec<u8>, numbers: &[u64]) -> Result<(), AllocError>
    ensures { OnOk result (out.new.items ≡ out.old.items ++ joined_by u64_bytes numbers.now) }
{
    for number in numbers {
        out.extend_from_slice(&number.to_le_bytes())?;
    }
    Ok(())
}
