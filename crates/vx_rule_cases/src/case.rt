//! A case and its answer.

use crate::given::Stream;
use crate::{images, rules, table, tallies, zones};
use std::alloc::Global;
use vx_case_lines::{Answer, asked, cut};
use vx_case_objects::{Case, list_in, read_typed};

/// The answer to the case of this name, whose line goes on so.
pub fn tell(alloc: Global, answer: &mut Answer, name: &str, rest: &str) {
    let (words, object) = asked(rest);
    let (word, given) = cut(words);
    if word == "tally" {
        tallies::tell(alloc, answer, name, given);
        return;
    }
    match read_typed(alloc, object) {
        Ok(typed) => {
            tell_stream(alloc, answer, Case::new(name, words, &typed));
            drop(typed);
        }
        Err(error) => answer.push_refusal(name, error),
    }
}

fn tell_stream(alloc: Global, answer: &mut Answer, case: Case) {
    match list_in(case.object, "batches") {
        Ok(batches) => {
            let stream = Stream {
                name: case.name,
                dtype: case.dtype,
                batches,
            };
            match case.word {
                "compress" => images::tell(alloc, answer, case.given, stream),
                "table" => table::tell(alloc, answer, stream),
                "zones" | "guard" => zones::tell(alloc, answer, case, stream),
                word => rules::tell(alloc, answer, word, case.given, stream),
            }
        }
        Err(error) => answer.push_refusal(case.name, error),
    }
}
