//! What each word prints: the answer, or why there is none.

use crate::given::{bytes_in, chunk_in, dtype_in};
use crate::shown::{push_head, push_made};
use crate::{kept, own};
use serde_json::Value;
use std::alloc::Global;
use vx_case_lines::Answer;
use vx_chunk::Chunk;
use vx_segment_reader::{buffer_lengths, tree_buffer_lengths};

pub(crate) fn tell(alloc: Global, answer: &mut Answer, word: &str, given: &Value) {
    match word {
        "nullable" | "storage" => tell_type(alloc, answer, word, given),
        "lengths" | "tree" => tell_lengths(alloc, answer, word, given),
        _ => tell_chunk(alloc, answer, word, given),
    }
}

fn tell_type(alloc: Global, answer: &mut Answer, word: &str, given: &Value) {
    match dtype_in(alloc, given) {
        Ok(dtype) => {
            if word == "nullable" {
                answer.push_given(dtype.as_nullable());
            } else {
                match dtype.as_extension() {
                    Some(storage) => answer.push(storage),
                    None => answer.push_str("no extension"),
                }
            }
            drop(dtype);
        }
        Err(error) => answer.push(error),
    }
}

fn tell_lengths(alloc: Global, answer: &mut Answer, word: &str, given: &Value) {
    match bytes_in(alloc, given) {
        Ok(bytes) => {
            let lengths = if word == "tree" {
                tree_buffer_lengths(alloc, &bytes)
            } else {
                buffer_lengths(alloc, &bytes)
            };
            drop(bytes);
            match lengths {
                Ok(lengths) => answer.push_debug(lengths),
                Err(error) => answer.push(error),
            }
        }
        Err(error) => answer.push(error),
    }
}

fn tell_chunk(alloc: Global, answer: &mut Answer, word: &str, given: &Value) {
    match chunk_in(alloc, given) {
        Ok(chunk) => {
            chunk.whole();
            tell_of(alloc, answer, word, &chunk, given);
            drop(chunk);
        }
        Err(error) => answer.push(error),
    }
}

fn tell_of(alloc: Global, answer: &mut Answer, word: &str, chunk: &Chunk, given: &Value) {
    match word {
        "rows" | "lists" => tell_agreed(alloc, answer, word, chunk, given),
        "cells" => {
            push_head(answer, chunk);
            tell_agreed(alloc, answer, word, chunk, given);
        }
        "fields" => {
            tell_agreed(alloc, answer, word, chunk, given);
            push_made(alloc, answer, kept::validity(alloc, chunk));
        }
        _ => kept::tell(alloc, answer, word, chunk),
    }
}

/// What the call that borrows the chunk gives, where the one that consumes it gives the same.
fn tell_agreed(alloc: Global, answer: &mut Answer, word: &str, chunk: &Chunk, given: &Value) {
    let mut borrowed = Answer::new(alloc);
    kept::tell(alloc, &mut borrowed, word, chunk);
    let mut owned = Answer::new(alloc);
    own::tell(alloc, &mut owned, word, given);
    answer.push_agreed(borrowed, owned);
}
