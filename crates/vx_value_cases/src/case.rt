//! A case and its answer.

use crate::{
    aggregates, booleans, fields, filters, hashes, lanes, options, overrides, paths, scalars,
    stats, stored, strategies, types,
};
use serde_json::Value;
use std::alloc::Global;
use vx_bloom::BloomFilter;
use vx_case_lines::{Answer, cut, halves};

/// The answer to the case of this name, whose line goes on so.
pub fn tell(alloc: Global, answer: &mut Answer, name: &str, rest: &str) {
    let (word, given) = cut(rest);
    write!(answer, "{name}: ");
    match word {
        "compare" | "child" => paths::tell(alloc, answer, word, given),
        "mask" => fields::tell(alloc, answer, given),
        "stat" | "stats" => stats::tell(answer, word, given),
        "overrides" => overrides::tell(alloc, answer, given),
        "field" => strategies::tell_field(alloc, answer, given),
        "defaults" => strategies::tell_defaults(answer),
        "aggregate" | "copy" | "dispatch" => tell_object(alloc, answer, word, given),
        "fields" | "zoned" | "block" | "table" | "legacy" => {
            tell_object(alloc, answer, word, given);
        }
        _ => tell_filter(alloc, answer, word, given),
    }
    answer.push_str("\n");
}

/// Of a word whose first part is an aggregate, a strategy or a type of a job.
fn tell_object(alloc: Global, answer: &mut Answer, word: &str, given: &str) {
    let (of, rest) = halves(given);
    match Value::from_str(alloc, of) {
        Ok(value) => {
            match word {
                "aggregate" => aggregates::tell(alloc, answer, &value),
                "copy" | "dispatch" => strategies::tell(alloc, answer, word, &value, rest),
                _ => types::tell(alloc, answer, word, &value, rest),
            }
            drop(value);
        }
        Err(error) => answer.push(error),
    }
}

fn tell_filter(alloc: Global, answer: &mut Answer, word: &str, given: &str) {
    match word {
        "hash" => hashes::tell(alloc, answer, given),
        "lanes" => lanes::tell(alloc, answer, given),
        "options" => options::tell(alloc, answer, given),
        "default_options" => options::tell_default(alloc, answer),
        "scalar" => scalars::tell(alloc, answer, given),
        "accumulate" => booleans::push_accumulated(alloc, answer, given),
        "insert_list" => booleans::push_inserted(alloc, answer, given == "null"),
        "state" => booleans::push_state(alloc, answer, given == "list"),
        "stored" | "stored_null" => stored::tell(alloc, answer, word, given),
        "id" => answer.push_str(BloomFilter.id()),
        _ => filters::tell(alloc, answer, word, given),
    }
}
