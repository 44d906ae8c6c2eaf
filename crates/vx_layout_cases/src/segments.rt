//! What is read from segments that a case gives: rows, and the lengths of buffers.
//!
//! The segments are numbered from the first word on. A segment is cells with commas between them, encoded as `bool` where
//! the first one is `true`, else as `i8?`; or bytes.

use crate::given::{FLAGS, MAYBE, bytes_in, push};
use anyhow::{Result, bail};
use std::alloc::{AllocError, Global};
use vx_case_lines::{Answer, cut};
use vx_chunk::Chunk;
use vx_encodings::all_encodings;
use vx_layout::{Layout, LayoutDisplay, ReadError, SegmentMap, read_rows};
use vx_model::{Blob, Cell, fits};
use vx_segment_writer::encode_segment;

fn segments(alloc: Global, args: &str) -> Result<SegmentMap> {
    let (first, rest) = cut(args);
    let first = first.parse::<u32>().unwrap_or(0);
    let mut list = Vec::new(alloc);
    for word in rest.split_whitespace() {
        push(&mut list, segment(alloc, word)?)?;
    }
    Ok(SegmentMap { first, list })
}

fn segment(alloc: Global, word: &str) -> Result<Blob> {
    if word.starts_with('x') {
        return Ok(Blob::from(bytes_in(alloc, word)?));
    }
    let encodings = all_encodings(alloc)?;
    let chunk = chunk(alloc, word)?;
    let encoded = encode_segment(alloc, &encodings, &chunk, true);
    drop(chunk);
    Ok(Blob::from(encoded?))
}

/// The cells as values of their type.
fn chunk(alloc: Global, word: &str) -> Result<Chunk> {
    let cells = cells(alloc, word)?;
    let dtype = if word.starts_with("true") {
        FLAGS
    } else {
        MAYBE
    };
    if !fits(&dtype, &cells) {
        drop(dtype);
        drop(cells);
        bail!("a cell is of another type");
    }
    Ok(Chunk::plain(dtype, cells))
}

/// An integer is the cell that is left.
fn cells(alloc: Global, text: &str) -> Result<Vec<Cell>, AllocError> {
    let mut cells = Vec::new(alloc);
    for word in text.split(',') {
        let cell = match word {
            "true" => Cell::Bool(true),
            "false" => Cell::Bool(false),
            "null" => Cell::Null,
            _ => Cell::Int(word.parse::<i128>().unwrap_or(0)),
        };
        cells.push(cell)?;
    }
    Ok(cells)
}

/// The rows, or the fault, as they are printed for a programmer.
pub(crate) fn tell_rows(alloc: Global, answer: &mut Answer, layout: &Layout, args: &str) {
    match segments(alloc, args) {
        Ok(segments) => {
            match read_rows(alloc, layout, &segments) {
                Ok(rows) => answer.push_debug(rows),
                Err(error) => push_fault(answer, error),
            }
            drop(segments);
        }
        Err(error) => answer.push(error),
    }
}

fn push_fault(answer: &mut Answer, error: ReadError) {
    match &error {
        ReadError::Foreign(id) => write!(answer, "Foreign({})", id.as_str()),
        error => answer.push_debug(error),
    }
    drop(error);
}

pub(crate) fn tell_tree<L: LayoutDisplay>(alloc: Global, answer: &mut Answer, layout: &L) {
    match layout.display_tree(alloc) {
        Ok(text) => {
            answer.push_str(text.as_str());
            drop(text);
        }
        Err(error) => answer.push(error),
    }
}

pub(crate) fn tell_lengths(alloc: Global, answer: &mut Answer, layout: &Layout, args: &str) {
    match segments(alloc, args) {
        Ok(segments) => {
            match layout.display_tree_with_segments(alloc, &segments) {
                Ok(text) => {
                    answer.push_str(text.as_str());
                    drop(text);
                }
                Err(error) => push_fault(answer, error),
            }
            drop(segments);
        }
        Err(error) => answer.push(error),
    }
}
