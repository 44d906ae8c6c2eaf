//! The lengths of the buffers of a flat layout.

ghost use Rattle.std.specs.Prelude.{◌≡◌, option_map, IfOk, Ok, Some};
ghost use Rattle.vx_display.specs.Lengths.{by_tree, by_segment, known, flat_fault};
ghost use Rattle.vx_display.specs.Views.{map_of, Faults};

use crate::style::{Stop, Style};
use std::alloc::{AllocError, Global};
use vx_model::Blob;
use vx_segment_reader::{DecodeError, buffer_lengths, tree_buffer_lengths};

/// By the array tree, else by the segment of the number where segments are handed in.
pub(crate) fn known_lengths(
    style: &Style,
    tree: &Option<Blob>,
    number: u32,
) -> Result<Option<Vec<u64>>, Stop>
    ensures lengths { IfOk result (λ o. option_map (λ v. v.items) o ≡ known (map_of style.now) tree.now number) }
    ensures fault { Faults result (flat_fault (map_of style.now) tree.now number) (Ok tt) }
{
    if let Some(lengths) = lengths_by_tree(style.alloc, tree)? {
        return Ok(Some(lengths));
    }
    let Some(segments) = style.segments else {
        return Ok(None);
    };
    let Some(segment) = segments.segment(number) else {
        return Err(Stop::NoSegment(number));
    };
    match lengths_by_segment(style.alloc, segment)? {
        Some(lengths) => Ok(Some(lengths)),
        None => Err(Stop::BadSegment(number)),
    }
}

fn lengths_by_tree(alloc: Global, tree: &Option<Blob>) -> Result<Option<Vec<u64>>, AllocError>
    ensures { IfOk result (λ o. option_map (λ v. v.items) o ≡ by_tree tree.now) }
{
    let Some(tree) = tree else {
        return Ok(None);
    };
    match tree_buffer_lengths(alloc, tree.as_slice()) {
        Ok(lengths) => Ok(Some(lengths)),
        Err(DecodeError::Grammar(_) | DecodeError::BadType(_)) => Ok(None),
        Err(DecodeError::OutOfMemory) => Err(AllocError),
    }
}

fn lengths_by_segment(alloc: Global, segment: &Blob) -> Result<Option<Vec<u64>>, AllocError>
    ensures { IfOk result (λ o. option_map (λ v. v.items) o ≡ by_segment (Some segment.now)) }
{
    match buffer_lengths(alloc, segment.as_slice()) {
        Ok(lengths) => Ok(Some(lengths)),
        Err(DecodeError::Grammar(_) | DecodeError::BadType(_)) => Ok(None),
        Err(DecodeError::OutOfMemory) => Err(AllocError),
    }
}
