//! Filters as stored values.

use crate::filters::{Partial, filter, options};
use crate::given::count;
use std::alloc::Global;
use vx_bloom::{BloomFilter, PartialError};
use vx_case_lines::{Answer, halves};
use vx_model::Value;

/// Of the words `stored` and `stored_null`, which is read as the filter of no words.
pub(crate) fn tell(alloc: Global, answer: &mut Answer, word: &str, given: &str) {
    let (given, blocks) = halves(given);
    match filter(alloc, given) {
        Ok(filter) => {
            if word == "stored" {
                push_read(answer, &filter, read_again(alloc, &filter, count(blocks)));
            } else {
                push_read(answer, &filter, read_null(alloc, count(given)));
            }
            drop(filter);
        }
        Err(error) => answer.push(error),
    }
}

/// The filter's value, read as a filter of so many blocks.
fn read_again(alloc: Global, filter: &Partial, blocks: u32) -> Result<Partial, PartialError> {
    let stored = BloomFilter.to_scalar(alloc, filter)?;
    let read = BloomFilter.partial_from_scalar(alloc, &options(blocks), &stored);
    drop(stored);
    read
}

fn read_null(alloc: Global, blocks: u32) -> Result<Partial, PartialError> {
    let null = Value::Null;
    let read = BloomFilter.partial_from_scalar(alloc, &options(blocks), &null);
    drop(null);
    read
}

fn push_read(answer: &mut Answer, filter: &Partial, read: Result<Partial, PartialError>) {
    match read {
        Ok(read) => {
            write!(answer, "equal {}", read == *filter);
            drop(read);
        }
        Err(error) => answer.push_debug(error),
    }
}
