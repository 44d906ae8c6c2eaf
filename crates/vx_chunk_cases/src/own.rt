//! What calls give that consume a chunk.

use crate::given::chunk_in;
use crate::shown::{push_chunks, push_list, push_own_cells, push_values};
use serde_json::Value as Json;
use std::alloc::Global;
use vx_case_lines::Answer;
use vx_chunk::{Chunk, ChunkError};
use vx_model::Value;

pub(crate) fn tell(alloc: Global, answer: &mut Answer, word: &str, given: &Json) {
    match chunk_in(alloc, given) {
        Ok(chunk) => match word {
            "rows" => push_rows(alloc, answer, chunk.into_rows(alloc)),
            "cells" => push_own_cells(alloc, answer, chunk.into_cells(alloc)),
            "fields" => push_fields(alloc, answer, chunk),
            _ => push_lists(alloc, answer, chunk),
        },
        Err(error) => answer.push(error),
    }
}

fn push_rows(alloc: Global, answer: &mut Answer, rows: Result<Vec<Value>, ChunkError>) {
    match rows {
        Ok(rows) => {
            push_values(alloc, answer, &rows);
            drop(rows);
        }
        Err(error) => answer.push(error),
    }
}

fn push_fields(alloc: Global, answer: &mut Answer, chunk: Chunk) {
    if chunk.dtype().is_struct() {
        push_chunks(alloc, answer, chunk.into_fields(alloc));
    } else {
        drop(chunk);
        answer.push_str("no struct");
    }
}

fn push_lists(alloc: Global, answer: &mut Answer, chunk: Chunk) {
    if chunk.dtype().is_list() {
        push_list(alloc, answer, chunk.into_list_parts(alloc));
    } else {
        drop(chunk);
        answer.push_str("no list");
    }
}
