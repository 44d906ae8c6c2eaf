//! Reading the tree of encodings, field by field.

ghost use Rattle.std.specs.Prelude.{◌≡◌, ◌-◌, length, map};
ghost use Rattle.std.specs.Int.{w16, w64};
ghost use Rattle.vx_byte_reader.specs.Places.{many_at};
ghost use Rattle.vx_segment_spec.specs.Reading.{number_at, byte_at, flag_at, node_at, nodes_at, tree_at};
ghost use Rattle.vx_segment_reader.specs.Views.{Gives, head, raw_tree};
ghost use Rattle.vx_segment_reader.specs.declared.error.DecodeError.TheVariants.{Grammar};

use crate::error::DecodeError;
use crate::node::{EncodingTree, Node};
use std::alloc::Global;
use vx_byte_reader::place_of;

/// The fault at what is left of the bytes that end at the place `stop`.
fn fault_at(stop: u64, rest: &[u8]) -> DecodeError
    ensures { result ≡ Grammar (stop - length rest.now) }
{
    DecodeError::Grammar(place_of(stop, rest))
}

fn u16_at(stop: u64, bytes: &[u8]) -> Result<(u16, &[u8]), DecodeError>
    ensures { Gives (λ x. (x.0, x.1.now)) result (number_at w16 stop bytes.now) }
{
    match vx_byte_reader::u16_at(bytes) {
        Some(field) => Ok(field),
        None => Err(fault_at(stop, bytes)),
    }
}

fn u64_at(stop: u64, bytes: &[u8]) -> Result<(u64, &[u8]), DecodeError>
    ensures { Gives (λ x. (x.0, x.1.now)) result (number_at w64 stop bytes.now) }
{
    match vx_byte_reader::u64_at(bytes) {
        Some(field) => Ok(field),
        None => Err(fault_at(stop, bytes)),
    }
}

fn u8_at(stop: u64, bytes: &[u8]) -> Result<(u8, &[u8]), DecodeError>
    ensures { Gives (λ x. (x.0, x.1.now)) result (byte_at stop bytes.now) }
{
    match vx_byte_reader::u8_at(bytes) {
        Some(field) => Ok(field),
        None => Err(fault_at(stop, bytes)),
    }
}

fn bool_at(stop: u64, bytes: &[u8]) -> Result<(bool, &[u8]), DecodeError>
    ensures { Gives (λ x. (x.0, x.1.now)) result (flag_at stop bytes.now) }
{
    match vx_byte_reader::flag_at(bytes) {
        Some(field) => Ok(field),
        None => Err(fault_at(stop, bytes)),
    }
}

#[tactic(auto, using(crate::proofs::Loops::many_rules))]
fn lengths_at(
    alloc: Global,
    stop: u64,
    count: u8,
    bytes: &[u8],
) -> Result<(Vec<u64>, &[u8]), DecodeError>
    ensures { Gives (λ x. (x.0.items, x.1.now)) result (many_at (number_at w64 stop) count bytes.now) }
{
    let mut lengths = Vec::new(alloc);
    let mut rest = bytes;
    for _ in 0..count {
        let (length, after) = u64_at(stop, rest)?;
        lengths.push(length)?;
        rest = after;
    }
    Ok((lengths, rest))
}

#[tactic(auto, unfolding(vx_segment_spec::specs::Reading::node_at))]
fn read_node(alloc: Global, stop: u64, bytes: &[u8]) -> Result<(Node, &[u8]), DecodeError>
    ensures { Gives (λ x. (head x.0, x.1.now)) result (node_at stop bytes.now) }
{
    let (index, rest) = u16_at(stop, bytes)?;
    let (rows, rest) = u64_at(stop, rest)?;
    let (extra, rest) = u8_at(stop, rest)?;
    let (count, rest) = u8_at(stop, rest)?;
    let (lengths, rest) = lengths_at(alloc, stop, count, rest)?;
    let (children, rest) = u64_at(stop, rest)?;
    Ok((
        Node {
            index,
            rows,
            extra,
            lengths,
            children,
        },
        rest,
    ))
}

/// The nodes of one tree in pre-order. The bytes bound their number, whatever they claim.
#[tactic(auto, using(crate::proofs::Loops::node_rules))]
fn read_nodes(alloc: Global, stop: u64, bytes: &[u8]) -> Result<(Vec<Node>, &[u8]), DecodeError>
    ensures { Gives (λ x. (map head x.0.items, x.1.now)) result (nodes_at (length bytes.now) 1 stop bytes.now) }
{
    let mut nodes = Vec::new(alloc);
    let mut rest = bytes;
    let mut pending = 1u128;
    for _ in 0..bytes.len() {
        if pending == 0 {
            return Ok((nodes, rest));
        }
        let (node, after) = read_node(alloc, stop, rest)?;
        pending = pending - 1 + node.children as u128;
        nodes.push(node)?;
        rest = after;
    }
    if pending > 0 {
        return Err(fault_at(stop, rest));
    }
    Ok((nodes, rest))
}

/// The tree that the bytes spell, all of the bytes, which end at the place `stop`.
#[tactic(auto, unfolding(vx_segment_spec::specs::Reading::tree_at))]
pub(crate) fn read_tree(alloc: Global, stop: u64, bytes: &[u8]) -> Result<EncodingTree, DecodeError>
    ensures { Gives raw_tree result (tree_at stop bytes.now) }
{
    let (padded, rest) = bool_at(stop, bytes)?;
    let (nodes, rest) = read_nodes(alloc, stop, rest)?;
    if !rest.is_empty() {
        return Err(fault_at(stop, rest));
    }
    Ok(EncodingTree { padded, nodes })
}
