//! A case and its answers.

use crate::{answers, files, legacy, maps, zones};
use serde_json::Value;
use std::alloc::Global;
use vx_case_lines::{Answer, asked, cut};
use vx_case_objects::{Case, read_typed};

/// The answer to the case of this name, whose line goes on so.
pub fn tell(alloc: Global, answer: &mut Answer, name: &str, rest: &str) {
    let (words, object) = asked(rest);
    match cut(words).0 {
        "zones" | "table" | "stats" | "legacy" => tell_typed(alloc, answer, name, words, object),
        _ => tell_chunk(alloc, answer, name, words, object),
    }
}

fn tell_typed(alloc: Global, answer: &mut Answer, name: &str, words: &str, object: &str) {
    match read_typed(alloc, object) {
        Ok(typed) => {
            let case = Case::new(name, words, &typed);
            match case.word {
                "zones" => zones::tell(alloc, answer, case),
                "table" => maps::tell(alloc, answer, case),
                "stats" => files::tell(alloc, answer, case),
                _ => legacy::tell(alloc, answer, case),
            }
            drop(typed);
        }
        Err(error) => answer.push_refusal(name, error),
    }
}

/// A line for each word of the case.
fn tell_chunk(alloc: Global, answer: &mut Answer, name: &str, words: &str, object: &str) {
    match Value::from_str(alloc, object) {
        Ok(given) => {
            for word in words.split_whitespace() {
                write!(answer, "{name} {word}: ");
                answers::tell(alloc, answer, word, &given);
                answer.push_str("\n");
            }
            drop(given);
        }
        Err(error) => answer.push_refusal(name, error),
    }
}
