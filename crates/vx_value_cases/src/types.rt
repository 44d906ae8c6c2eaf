//! What is asked of a type.

use crate::{aggregates, matching, strategies, tables};
use serde_json::Value;
use std::alloc::Global;
use vx_case_lines::Answer;
use vx_chunk_json::read_type;

/// Of the words `fields`, `zoned`, `block`, `table` and `legacy`.
pub(crate) fn tell(alloc: Global, answer: &mut Answer, word: &str, of: &Value, given: &str) {
    match read_type(alloc, of) {
        Ok(dtype) => {
            match word {
                "fields" => matching::tell(alloc, answer, &dtype, given),
                "zoned" => aggregates::tell_kept(alloc, answer, &dtype),
                "block" => strategies::tell_block(answer, &dtype, given),
                "table" | "legacy" => tables::tell(alloc, answer, word, &dtype, given),
                _ => write!(answer, "no word {word}"),
            }
            drop(dtype);
        }
        Err(error) => answer.push(error),
    }
}
