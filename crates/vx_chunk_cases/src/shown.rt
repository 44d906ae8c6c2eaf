//! Rows, cells and chunks as text: lists in square brackets, structs in braces, an invalid one behind an exclamation
//! mark, bytes as hex text.

use serde_json::Value as Json;
use std::alloc::{AllocError, Global};
use vx_case_lines::Answer;
use vx_chunk::{Chunk, ChunkError};
use vx_column::Column;
use vx_model::{Cell, Value};

/// Values as the program's report shows a row that is a list.
#[cycle(values)]
pub(crate) fn push_values(alloc: Global, answer: &mut Answer, values: &[Value]) {
    answer.push_str("[");
    for i in 0..values.len() {
        if i > 0 {
            answer.push_str(",");
        }
        push_value(alloc, answer, &values[i]);
    }
    answer.push_str("]");
}

#[cycle(values)]
fn push_value(alloc: Global, answer: &mut Answer, value: &Value) {
    match value {
        Value::Null => answer.push_str("null"),
        Value::Bool(b) => answer.push(*b),
        Value::Int(n) => answer.push(*n),
        Value::Utf8(text) => answer.push_given(quoted(alloc, text.as_str())),
        Value::Binary(bytes) => push_bytes(answer, bytes.as_slice()),
        Value::List(values) | Value::Struct(values) => push_values(alloc, answer, values),
    }
}

#[cycle(cells)]
fn push_cells(alloc: Global, answer: &mut Answer, cells: &[Cell]) {
    for i in 0..cells.len() {
        if i > 0 {
            answer.push_str(",");
        }
        push_cell(alloc, answer, &cells[i]);
    }
}

#[cycle(cells)]
fn push_cell(alloc: Global, answer: &mut Answer, cell: &Cell) {
    match cell {
        Cell::Null => answer.push_str("null"),
        Cell::Bool(b) => answer.push(*b),
        Cell::Int(n) => answer.push(*n),
        Cell::Utf8(text) => answer.push_given(quoted(alloc, text.as_str())),
        Cell::Binary(bytes) => push_bytes(answer, bytes.as_slice()),
        Cell::List(valid, cells) => {
            answer.push_str(if *valid { "[" } else { "![" });
            push_cells(alloc, answer, cells);
            answer.push_str("]");
        }
        Cell::Struct(valid, cells) => {
            answer.push_str(if *valid { "{" } else { "!{" });
            push_cells(alloc, answer, cells);
            answer.push_str("}");
        }
    }
}

fn quoted(alloc: Global, text: &str) -> Result<String, AllocError> {
    let json = Json::String(String::from_str(alloc, text)?);
    let text = json.to_string(alloc);
    drop(json);
    text
}

fn push_bytes(answer: &mut Answer, bytes: &[u8]) {
    answer.push_str("\"");
    answer.push_hex(bytes);
    answer.push_str("\"");
}

/// The cells in square brackets.
fn push_listed(alloc: Global, answer: &mut Answer, cells: &[Cell]) {
    answer.push_str("[");
    push_cells(alloc, answer, cells);
    answer.push_str("]");
}

pub(crate) fn push_own_cells(
    alloc: Global,
    answer: &mut Answer,
    cells: Result<Vec<Cell>, ChunkError>,
) {
    match cells {
        Ok(cells) => {
            push_listed(alloc, answer, &cells);
            drop(cells);
        }
        Err(error) => answer.push(error),
    }
}

pub(crate) fn push_cells_of(alloc: Global, answer: &mut Answer, chunk: &Chunk) {
    match chunk.as_column() {
        Some(Column::Cells(cells)) => push_listed(alloc, answer, cells),
        _ => push_own_cells(alloc, answer, chunk.cells(alloc)),
    }
}

/// What stands before a chunk's cells: its encoding and its type.
pub(crate) fn push_head(answer: &mut Answer, chunk: &Chunk) {
    answer.push_str(chunk.encoding().id());
    answer.push_str(" ");
    answer.push(chunk.dtype());
    answer.push_str(" ");
}

/// The chunk's encoding, its type and its cells.
fn push_chunk(alloc: Global, answer: &mut Answer, chunk: &Chunk) {
    push_head(answer, chunk);
    push_cells_of(alloc, answer, chunk);
}

pub(crate) fn push_made(alloc: Global, answer: &mut Answer, made: anyhow::Result<Chunk>) {
    match made {
        Ok(chunk) => {
            push_chunk(alloc, answer, &chunk);
            drop(chunk);
        }
        Err(error) => answer.push(error),
    }
}

/// The chunks, a bar behind each.
pub(crate) fn push_chunks(
    alloc: Global,
    answer: &mut Answer,
    chunks: Result<Vec<Chunk>, ChunkError>,
) {
    match chunks {
        Ok(chunks) => {
            push_each(alloc, answer, &chunks);
            drop(chunks);
        }
        Err(error) => answer.push(error),
    }
}

fn push_each(alloc: Global, answer: &mut Answer, chunks: &[Chunk]) {
    for chunk in chunks {
        push_chunk(alloc, answer, chunk);
        answer.push_str(" | ");
    }
}

/// A list's elements, offsets and flags.
pub(crate) fn push_list(
    alloc: Global,
    answer: &mut Answer,
    parts: Result<(Chunk, Vec<u64>, Vec<bool>), ChunkError>,
) {
    match parts {
        Ok((elements, offsets, valid)) => {
            push_chunk(alloc, answer, &elements);
            drop(elements);
            answer.push_str(" | ");
            answer.push_debug(offsets);
            answer.push_str(" | ");
            answer.push_debug(valid);
        }
        Err(error) => answer.push(error),
    }
}
