//! Reading the buffers that a tree names.

ghost use Rattle.std.specs.Prelude.{◌≡◌, ◌+◌, ◌<◌, ◌^◌, length, map, IfOk};
ghost use Rattle.vx_segment_writer.specs.Segment.{padding_at};
ghost use Rattle.vx_segment_spec.specs.Segment.{set_byte as first_set, buffer_at as buffer_from, buffers_at, lengths_of};
ghost use Rattle.vx_segment_reader.specs.Views.{Gives, head};

use crate::error::DecodeError;
use crate::node::Node;
use std::alloc::{AllocError, Global};

/// The lengths of all buffers, a node's own before its children's.
#[tactic(auto, using(crate::proofs::BufferSteps::lengths_rules))]
pub(crate) fn all_lengths(alloc: Global, nodes: &[Node]) -> Result<Vec<u64>, AllocError>
    ensures { IfOk result (λ v. v.items ≡ lengths_of (map head nodes.now)) }
{
    let mut lengths = Vec::new(alloc);
    for node in nodes {
        lengths.extend_from_slice(&node.lengths)?;
    }
    Ok(lengths)
}

/// Bytes up to the next multiple of eight.
#[tactic(auto, using(crate::proofs::BufferSteps::padding_rules))]
fn padding_length(padded: bool, at: u64) -> u64
    ensures { result ≡ length (padding_at padded at) }
{
    if padded { (8 - at % 8) % 8 } else { 0 }
}

/// The place of the first byte that isn't 0, where the first byte's is `at`.
fn set_byte(at: u64, bytes: &[u8]) -> Option<u64>
    requires { at + length bytes.now < 2 ^ 64 }
    ensures { result ≡ first_set at bytes.now }
{
    for i in 0..bytes.len() {
        if bytes[i] != 0 {
            return Some(at + i as u64);
        }
    }
    None
}

fn buffer_at(
    padding: u64,
    at: u64,
    length: u64,
    bytes: &[u8],
) -> Result<(&[u8], &[u8]), DecodeError>
    requires { at + padding < 2 ^ 64 }
    ensures { Gives (λ x. (x.0.now, x.1.now)) result (buffer_from padding at length bytes.now) }
{
    if (bytes.len() as u64) < padding {
        return match set_byte(at, bytes) {
            Some(place) => Err(DecodeError::Grammar(place)),
            None => Err(DecodeError::Grammar(at + padding)),
        };
    }
    let (zeros, rest) = bytes.split_at(padding as usize);
    if let Some(place) = set_byte(at, zeros) {
        return Err(DecodeError::Grammar(place));
    }
    if (rest.len() as u64) < length {
        return Err(DecodeError::Grammar(at + padding));
    }
    Ok(rest.split_at(length as usize))
}

/// The buffers of these lengths, which with their padding are all of the bytes.
pub(crate) fn read_buffers<'a>(
    alloc: Global,
    padded: bool,
    lengths: &[u64],
    bytes: &'a [u8],
) -> Result<Vec<&'a [u8]>, DecodeError>
    requires { length bytes.now + 8 < 2 ^ 64 }
    ensures { Gives (λ v. map (λ b. b.now) v.items) result (buffers_at padded 0 lengths.now bytes.now) }
{
    let mut buffers = Vec::with_capacity(alloc, lengths.len())?;
    let mut rest = bytes;
    for length in lengths {
        let at = (bytes.len() - rest.len()) as u64;
        let (buffer, after) = buffer_at(padding_length(padded, at), at, *length, rest)?;
        buffers.push(buffer)?;
        rest = after;
    }
    if !rest.is_empty() {
        return Err(DecodeError::Grammar((bytes.len() - rest.len()) as u64));
    }
    Ok(buffers)
}
