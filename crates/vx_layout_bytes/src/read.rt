//! Reading a node.

ghost use Rattle.std.specs.Prelude.{◌≡◌, ◌≤◌, map, length, Ok, IfOk, OnOk};
ghost use Rattle.vx_layout_bytes.specs.Node.{Node, node, nodes_of};
ghost use Rattle.vx_layout_bytes.specs.Values.{IsWithin, AreBytes};
ghost use Rattle.vx_layout_bytes.specs.Spelled.{spelling};
ghost use Rattle.vx_layout_bytes.specs.Reading.{own_at as own_read, node_at as node_read, many_nodes, root_at};
ghost use Rattle.vx_layout_bytes.specs.Views.{Gives, own, raw};

use crate::error::GrammarError;
use crate::fields::{numbered_at, place_of, segments_at, u16_at, u64_at};
use crate::node::{Limits, RawNode};
use bytes::Bytes;
use std::alloc::Global;

/// A node without its children.
#[derive(Debug, Drop)]
pub(crate) struct Own {
    pub(crate) index: u16,
    pub(crate) rows: u64,
    pub(crate) metadata: Bytes,
    pub(crate) segments: Vec<u32>,
}

/// The node that the bytes are, all of them; its metadata are parts of the same memory. Nothing is built past the limits,
/// and memory grows with the bytes that are read, whatever they claim.
pub fn read_nodes(alloc: Global, bytes: Bytes, limits: Limits) -> Result<RawNode, GrammarError>
    requires { limits.depth ≤ 1024 }
    // What is read is spelled so, and within the limits.
    ensures found { IfOk result (λ n. IsWithin limits.depth limits.nodes (raw n) × (spelling (raw n) ≡ bytes)) }
    ensures octets { OnOk result (AreBytes bytes) }
    // What is within the limits and spelled so is read, unless memory runs out.
    ensures only { (n : Node) → IsWithin limits.depth limits.nodes n → spelling n ≡ bytes → Gives raw result (Ok n) }
    // Which fault it is.
    ensures exact { Gives raw result (root_at limits.depth limits.nodes bytes) }
{
    let stop = end_of(bytes.as_slice());
    read_root(alloc, stop, limits.depth, limits.nodes, bytes)
}

/// The place at which the bytes end.
pub(crate) fn end_of(bytes: &[u8]) -> u64
    ensures place { result ≡ length bytes.now }
    ensures octets { AreBytes bytes.now }
{
    bytes.len() as u64
}

#[tactic(auto, unfolding(crate::specs::Reading::root_at))]
fn read_root(
    alloc: Global,
    stop: u64,
    depth: u64,
    nodes: u64,
    bytes: Bytes,
) -> Result<RawNode, GrammarError>
    requires { stop ≡ length bytes }
    ensures { Gives raw result (root_at depth nodes bytes) }
{
    let mut bytes = bytes;
    let (node, _) = node_at(alloc, stop, depth, nodes, &mut bytes)?;
    if !bytes.is_empty() {
        return Err(GrammarError::Grammar(place_of(stop, &bytes)));
    }
    Ok(node)
}

#[tactic(auto, unfolding(crate::specs::Reading::own_at))]
pub(crate) fn own_at(
    alloc: Global,
    stop: u64,
    bytes: &mut Bytes,
) -> Result<(Own, u64), GrammarError>
    ensures { Gives (λ x. (own x.0, x.1, bytes.new)) result (own_read stop bytes.old) }
{
    let index = u16_at(stop, bytes)?;
    let rows = u64_at(stop, bytes)?;
    let metadata = numbered_at(stop, bytes)?;
    let segments = segments_at(alloc, stop, bytes)?;
    let children = u64_at(stop, bytes)?;
    Ok((
        Own {
            index,
            rows,
            metadata,
            segments,
        },
        children,
    ))
}

/// A node, `depth` deep at most and of `left` nodes at most, and how many nodes may still come.
#[cycle(reading)]
#[tactic(auto, using(crate::proofs::Loops::node_rules))]
pub(crate) fn node_at(
    alloc: Global,
    stop: u64,
    depth: u64,
    left: u64,
    bytes: &mut Bytes,
) -> Result<(RawNode, u64), GrammarError>
    ensures { Gives (λ x. (raw x.0, x.1, bytes.new)) result (node_read depth stop left bytes.old) }
{
    if depth == 0 {
        return Err(GrammarError::TooDeep(place_of(stop, bytes)));
    }
    if left == 0 {
        return Err(GrammarError::TooManyNodes(place_of(stop, bytes)));
    }
    let (own, count) = own_at(alloc, stop, bytes)?;
    let (children, left) = nodes_at(alloc, stop, depth - 1, left - 1, count, bytes)?;
    Ok((with_children(own, children), left))
}

#[tactic(auto, using(crate::proofs::Nodes::raw_is))]
fn with_children(head: Own, children: Vec<RawNode>) -> RawNode
    ensures { raw result ≡ node (own head) (nodes_of (map raw children.items)) }
{
    RawNode {
        index: head.index,
        rows: head.rows,
        metadata: head.metadata,
        segments: head.segments,
        children,
    }
}

/// So many nodes. The bytes and the limit bound their number, whatever `count` claims.
#[cycle(reading)]
fn nodes_at(
    alloc: Global,
    stop: u64,
    depth: u64,
    left: u64,
    count: u64,
    bytes: &mut Bytes,
) -> Result<(Vec<RawNode>, u64), GrammarError>
    ensures { Gives (λ x. (nodes_of (map raw x.0.items), x.1, bytes.new)) result (many_nodes (node_read depth stop) count left bytes.old) }
{
    let mut nodes = Vec::new(alloc);
    let mut left = left;
    for _ in 0..count {
        let (node, fewer) = node_at(alloc, stop, depth, left, bytes)?;
        nodes.push(node)?;
        left = fewer;
    }
    Ok((nodes, left))
}
