//! What views tell of their nodes.

ghost use Rattle.std.specs.Prelude.{◌≡◌, ◌≤◌, ◌-◌, ◌∷◌, [], drop, length, map, Ok, IfOk, OnOk, IsTrue};
ghost use Rattle.vx_layout_bytes.specs.Node.{Node, nodes_of, own_of};
ghost use Rattle.vx_layout_bytes.specs.Reading.{node_at as node_read, many_nodes, root_at};
ghost use Rattle.vx_layout_bytes.specs.Spelled.{spelling};
ghost use Rattle.vx_layout_bytes.specs.There.{is_node_at, are_nodes_at, node_there, only_value};
ghost use Rattle.vx_layout_bytes.specs.Values.{IsWithin, AreBytes};
ghost use Rattle.vx_layout_bytes.specs.Views.{Gives, raw, seen_node, seen_nodes, opened};

use crate::error::GrammarError;
use crate::fields::place_of;
use crate::node::{Limits, RawNode};
use crate::read::{end_of, node_at, own_at};
use crate::skip::skip_node;
use crate::view::{NodeView, NodeViews, OpenNode};
use bytes::Bytes;
use std::alloc::{AllocError, Global};
use vx_byte_reader::{u16_at, u64_at};

/// The node that the bytes are, all of them, as `read_nodes` reads it. It stays in the bytes: they are walked over once,
/// and nothing of them is kept.
pub fn view_root(alloc: Global, bytes: Bytes, limits: Limits) -> Result<NodeView, GrammarError>
    requires { limits.depth ≤ 1024 }
    // What is found is spelled so, and within the limits.
    ensures found { IfOk result (λ n. IsWithin limits.depth limits.nodes (seen_node n) × (spelling (seen_node n) ≡ bytes)) }
    ensures octets { OnOk result (AreBytes bytes) }
    // What is within the limits and spelled so is found, unless memory runs out.
    ensures only { (n : Node) → IsWithin limits.depth limits.nodes n → spelling n ≡ bytes → Gives seen_node result (Ok n) }
    // Which fault it is.
    ensures exact { Gives seen_node result (root_at limits.depth limits.nodes bytes) }
{
    let stop = end_of(bytes.as_slice());
    root_within(alloc, stop, limits.depth, limits.nodes, bytes)
}

#[tactic(auto, using(crate::proofs::There::root_rules))]
fn root_within(
    alloc: Global,
    stop: u64,
    depth: u64,
    nodes: u64,
    bytes: Bytes,
) -> Result<NodeView, GrammarError>
    requires stop { stop ≡ length bytes }
    requires octets { AreBytes bytes }
    ensures { Gives seen_node result (root_at depth nodes bytes) }
{
    let mut rest = bytes.clone()?;
    skip_node(alloc, stop, depth, nodes, &mut rest)?;
    if !rest.is_empty() {
        return Err(GrammarError::Grammar(place_of(stop, &rest)));
    }
    Ok(NodeView { bytes, place: 0 })
}

impl NodeView {
    /// The place of its kind's id in the context.
    pub fn index(&self) -> u16
        ensures { result ≡ (own_of (seen_node self.now)).index }
    {
        head_at(self.bytes.as_slice(), self.place).0
    }

    /// The node with its children as views: all below it is walked over once, and nothing of it is kept.
    pub fn open(self, alloc: Global) -> Result<OpenNode, AllocError>
        ensures { IfOk result (λ n. opened n ≡ seen_node self) }
    {
        let NodeView { bytes, place } = self;
        match open_at(alloc, bytes, place) {
            Ok(node) => Ok(node),
            // A node stands here, so nothing fails but memory.
            Err(_) => Err(AllocError),
        }
    }

    /// The node with all below it.
    #[tactic(auto, unfolding(crate::specs::There::node_there))]
    pub fn to_raw(&self, alloc: Global) -> Result<RawNode, AllocError>
        ensures { IfOk result (λ n. raw n ≡ seen_node self.now) }
    {
        let stop = self.bytes.len() as u64;
        let mut rest = rest_at(&self.bytes, self.place)?;
        match node_at(alloc, stop, stop, stop, &mut rest) {
            Ok((node, _)) => Ok(node),
            // A node stands here, so nothing fails but memory.
            Err(_) => Err(AllocError),
        }
    }

    /// The node by itself, among no others.
    pub fn alone(self, alloc: Global) -> Result<NodeViews, AllocError>
        ensures { IfOk result (λ v. seen_nodes v ≡ seen_node self ∷ []) }
    {
        let NodeView { bytes, place } = self;
        let places = vec![in alloc; place]?;
        Ok(NodeViews { bytes, places })
    }
}

/// The same as a part of the same memory.
#[tactic(auto, using(crate::proofs::There::within))]
fn rest_at(bytes: &Bytes, place: u64) -> Result<Bytes, AllocError>
    requires { IsTrue (is_node_at bytes.now place) }
    ensures { IfOk result (λ rest. rest ≡ drop place bytes.now) }
{
    let mut rest = bytes.clone()?;
    rest.advance(place as usize);
    Ok(rest)
}

/// The bytes from the place on.
#[tactic(auto, using(crate::proofs::There::within))]
fn from_place(bytes: &[u8], place: u64) -> &[u8]
    requires { IsTrue (is_node_at bytes.now place) }
    ensures { result.now ≡ drop place bytes.now }
{
    bytes.split_at(place as usize).1
}

/// The index and the rows of the node at the place.
#[tactic(auto, using(crate::proofs::There::head_rules))]
pub(crate) fn head_at(bytes: &[u8], place: u64) -> (u16, u64)
    requires { IsTrue (is_node_at bytes.now place) }
    ensures index { result.0 ≡ (own_of (node_there bytes.now place)).index }
    ensures rows { result.1 ≡ (own_of (node_there bytes.now place)).rows }
{
    let rest = from_place(bytes, place);
    match u16_at(rest) {
        Some((index, rest)) => match u64_at(rest) {
            Some((rows, _)) => (index, rows),
            None => (index, 0),
        },
        None => (0, 0),
    }
}

fn open_at(alloc: Global, bytes: Bytes, place: u64) -> Result<OpenNode, GrammarError>
    requires { IsTrue (is_node_at bytes place) }
    ensures { IfOk result (λ n. opened n ≡ node_there bytes place) }
{
    let stop = end_of(bytes.as_slice());
    let mut rest = rest_at(&bytes, place)?;
    let (own, count) = own_at(alloc, stop, &mut rest)?;
    let places = places_of(alloc, stop, count, &bytes, rest)?;
    Ok(OpenNode {
        index: own.index,
        rows: own.rows,
        metadata: own.metadata,
        segments: own.segments,
        children: NodeViews { bytes, places },
    })
}

/// The places of so many nodes, which stand one behind the other where the rest of the bytes begins.
#[tactic(auto, using(crate::proofs::Loops::with_none))]
fn places_of(
    alloc: Global,
    stop: u64,
    count: u64,
    bytes: &Bytes,
    rest: Bytes,
) -> Result<Vec<u64>, GrammarError>
    requires stop { stop ≡ length bytes.now }
    requires some { 1 ≤ stop }
    requires octets { AreBytes bytes.now }
    requires rest { drop (length bytes.now - length rest) bytes.now ≡ rest }
    ensures there { IfOk result (λ v. IsTrue (are_nodes_at bytes.now v.items)) }
    ensures nodes { Gives (λ v. nodes_of (map (node_there bytes.now) v.items)) result (only_value (many_nodes (node_read (stop - 1) stop) count (stop - 1) rest)) }
{
    let mut places = Vec::new(alloc);
    let mut rest = rest;
    let mut left = stop - 1;
    for _ in 0..count {
        let place = place_of(stop, &rest);
        let fewer = skip_node(alloc, stop, stop - 1, left, &mut rest)?;
        places.push(place)?;
        left = fewer;
    }
    Ok(places)
}
