//! A case and its answer.

use crate::jobs::{Parts, job_of};
use crate::steps::Ids;
use crate::{fails, reading, steps, trees, written};
use std::alloc::Global;
use vx_case_lines::{Answer, cut, halves};
use vx_write::column_count;

/// The answer to the case of a file, of this name, whose line goes on so.
pub fn tell_file(alloc: Global, answer: &mut Answer, name: &str, rest: &str) {
    let (word, given) = cut(rest);
    write!(answer, "{name}: ");
    match word {
        "rows" | "read" | "parsed" => reading::tell(alloc, answer, word, given),
        "columns" => tell_columns(alloc, answer, given),
        "spelled" => written::tell_spelled(alloc, answer, given),
        "fails" => fails::tell(alloc, answer, given),
        "counted" => written::tell_counted(alloc, answer, given),
        "stepped" => steps::tell(alloc, answer, given, Ids::Onward),
        "handed" => steps::tell(alloc, answer, given, Ids::Handed),
        _ => answer.push_str("no such word"),
    }
    answer.push_str("\n");
}

/// The answer to the case of bytes, of this name, whose line goes on so.
pub fn tell_bytes(alloc: Global, answer: &mut Answer, name: &str, rest: &str) {
    let (word, given) = cut(rest);
    write!(answer, "{name}: ");
    match word {
        "written" => written::tell(alloc, answer, given),
        "layout" | "parsed" => trees::tell(alloc, answer, word, given),
        _ => answer.push_str("no such word"),
    }
    answer.push_str("\n");
}

/// How many columns a strategy writes side by side, or `none`.
fn tell_columns(alloc: Global, answer: &mut Answer, given: &str) {
    let (by, of) = halves(given);
    match job_of(alloc, Parts::new(of, by, "")) {
        Ok(job) => {
            match column_count(&job.strategy, &job.schema) {
                Some(count) => answer.push(count),
                None => answer.push_str("none"),
            }
            drop(job);
        }
        Err(error) => answer.push(error),
    }
}
