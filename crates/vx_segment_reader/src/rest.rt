//! What of a segment is still to be read.

ghost use Rattle.std.specs.Prelude.{◌≡◌, ◌&&◌, ◌==◌, length};
ghost use Rattle.vx_segment_spec.specs.Pieces.{number as next_number, node_of, buffer_of, is_shaped as shaped};
ghost use Rattle.vx_segment_reader.specs.Views.{Gives, head, frame as framed, rest as left};

use crate::error::DecodeError;
use crate::node::Node;
use std::alloc::Global;
use vx_model::EncodingId;

/// What a segment is read by.
#[derive(Clone, Copy)]
pub(crate) struct Frame<'a> {
    pub(crate) alloc: Global,
    /// The context: an encoding's index is its place here.
    pub(crate) ids: &'a [EncodingId],
    /// How many nodes the segment has.
    pub(crate) total: u64,
}

/// Nodes in pre-order, and their buffers in this order.
#[derive(Clone, Copy)]
pub(crate) struct Rest<'a> {
    pub(crate) nodes: &'a [Node],
    pub(crate) buffers: &'a [&'a [u8]],
}

/// The number of the next node in pre-order, from 0.
#[tactic(auto, using(crate::proofs::BufferSteps::lengths_rules))]
pub(crate) fn number(frame: &Frame, rest: Rest) -> u64
    ensures { result ≡ next_number (framed frame.now) (left rest.entry) }
{
    frame.total.saturating_sub(rest.nodes.len() as u64)
}

/// The next node.
pub(crate) fn next_node<'a>(
    frame: &Frame,
    rest: Rest<'a>,
) -> Result<(&'a Node, Rest<'a>), DecodeError>
    ensures { Gives (λ x. (head x.0.now, left x.1)) result (node_of (framed frame.now) (left rest.entry)) }
{
    match rest.nodes {
        [] => Err(DecodeError::BadType(number(frame, rest))),
        [node, nodes @ ..] => Ok((
            node,
            Rest {
                nodes,
                buffers: rest.buffers,
            },
        )),
    }
}

/// The next buffer, for the node of number `k`.
pub(crate) fn next_buffer<'a>(k: u64, rest: Rest<'a>) -> Result<(&'a [u8], Rest<'a>), DecodeError>
    ensures { Gives (λ x. (x.0.now, left x.1)) result (buffer_of k (left rest.entry)) }
{
    match rest.buffers {
        [] => Err(DecodeError::BadType(k)),
        [buffer, buffers @ ..] => Ok((
            buffer,
            Rest {
                nodes: rest.nodes,
                buffers,
            },
        )),
    }
}

/// Whether the node has so many buffers and children, and nothing more to tell.
pub(crate) fn is_shaped(buffers: usize, children: u64, node: &Node) -> bool
    ensures { result ≡ shaped buffers children (head node.now) }
{
    node.extra == 0 && (node.lengths.len() == buffers && node.children == children)
}
