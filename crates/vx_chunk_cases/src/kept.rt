//! What calls give that borrow a chunk.

use crate::shown::{push_cells_of, push_chunks, push_list, push_made, push_values};
use anyhow::{Context, bail};
use std::alloc::{AllocError, Global};
use vx_case_lines::Answer;
use vx_chunk::Chunk;
use vx_chunk_conditions::are_of_type;
use vx_encodings::all_encodings;
use vx_model::{DType, Value, is_row_value};
use vx_segment_writer::encode_segment;

pub(crate) fn tell(alloc: Global, answer: &mut Answer, word: &str, chunk: &Chunk) {
    match word {
        "rows" => push_rows(alloc, answer, chunk),
        "cells" => push_cells_of(alloc, answer, chunk),
        "fields" => push_fields(alloc, answer, chunk),
        "lists" => push_lists(alloc, answer, chunk),
        "sizes" => push_sizes(answer, chunk),
        "segment" | "dense" => push_segment(alloc, answer, word, chunk),
        _ => push_made(alloc, answer, made(alloc, word, chunk)),
    }
}

/// The chunk that is made of the chunk.
fn made(alloc: Global, word: &str, chunk: &Chunk) -> anyhow::Result<Chunk> {
    match word {
        "canon" => Ok(chunk.canon(alloc)?),
        "twice" => twice(alloc, chunk),
        _ => slice(alloc, chunk, word),
    }
}

/// The rows behind themselves.
fn twice(alloc: Global, chunk: &Chunk) -> anyhow::Result<Chunk> {
    let parts = copies(alloc, chunk)?;
    let dtype = chunk.dtype();
    if !are_of_type(dtype, &parts) {
        drop(parts);
        bail!("not of one type");
    }
    match dtype.clone() {
        Ok(dtype) => Ok(Chunk::concat(alloc, dtype, parts)?),
        Err(error) => {
            drop(parts);
            Err(error.into())
        }
    }
}

/// Two copies.
fn copies(alloc: Global, chunk: &Chunk) -> Result<Vec<Chunk>, AllocError> {
    let first = chunk.clone()?;
    match chunk.clone() {
        Ok(second) => Ok(vec![in alloc; first, second]?),
        Err(error) => {
            drop(first);
            Err(error)
        }
    }
}

/// Which rows of a struct are valid.
pub(crate) fn validity(alloc: Global, chunk: &Chunk) -> anyhow::Result<Chunk> {
    if !chunk.dtype().is_struct() {
        bail!("no struct");
    }
    Ok(chunk.validity(alloc)?)
}

/// The rows from the first place to the second.
fn slice(alloc: Global, chunk: &Chunk, word: &str) -> anyhow::Result<Chunk> {
    let (from, to) = word.split_once("..").context("no such word")?;
    let from = from.parse::<u64>()?;
    let to = to.parse::<u64>()?;
    if from > to || to > chunk.len() {
        bail!("no such rows");
    }
    Ok(chunk.slice(alloc, from, to)?)
}

/// The rows, each of which is one of the type.
fn push_rows(alloc: Global, answer: &mut Answer, chunk: &Chunk) {
    match chunk.rows_of(alloc) {
        Ok(rows) => {
            push_fitting(alloc, answer, chunk.dtype(), &rows);
            drop(rows);
        }
        Err(error) => answer.push(error),
    }
}

fn push_fitting(alloc: Global, answer: &mut Answer, dtype: &DType, rows: &[Value]) {
    for row in rows {
        if !is_row_value(dtype, row) {
            answer.push_str("a row of another type");
        }
    }
    push_values(alloc, answer, rows);
}

/// A struct's fields.
fn push_fields(alloc: Global, answer: &mut Answer, chunk: &Chunk) {
    if chunk.dtype().is_struct() {
        push_chunks(alloc, answer, chunk.fields(alloc));
    } else {
        answer.push_str("no struct");
    }
}

/// A list's elements, offsets and flags.
fn push_lists(alloc: Global, answer: &mut Answer, chunk: &Chunk) {
    if chunk.dtype().is_list() {
        push_list(alloc, answer, chunk.list_parts(alloc));
    } else {
        answer.push_str("no list");
    }
}

/// How many rows, what is held, and what all rows take.
fn push_sizes(answer: &mut Answer, chunk: &Chunk) {
    answer.push(chunk.len());
    answer.push_str(" rows, held ");
    answer.push_given(chunk.nbytes());
    answer.push_str(", all rows ");
    answer.push_given(chunk.row_size());
}

fn push_segment(alloc: Global, answer: &mut Answer, word: &str, chunk: &Chunk) {
    match segment(alloc, chunk, word == "segment") {
        Ok(bytes) => {
            answer.push_hex(&bytes);
            drop(bytes);
        }
        Err(error) => answer.push(error),
    }
}

fn segment(alloc: Global, chunk: &Chunk, padding: bool) -> anyhow::Result<Vec<u8>> {
    let encodings = all_encodings(alloc)?;
    Ok(encode_segment(alloc, &encodings, chunk, padding)?)
}
