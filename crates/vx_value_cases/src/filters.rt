//! Filters, and their bytes.

use crate::given::{bytes, count};
use std::alloc::{AllocError, Global};
use std::num::NonZeroU32;
use vx_bloom::{BloomFilter, BloomOptions, BloomPartial, HashFn, PartialError};
use vx_case_lines::{Answer, cut, halves};
use vx_hash::XxHash3_64;

pub(crate) type Partial = BloomPartial<XxHash3_64>;

pub(crate) fn options(blocks: u32) -> BloomOptions {
    let blocks = NonZeroU32::new(blocks).unwrap_or(NonZeroU32::MIN);
    BloomOptions::new(blocks, HashFn::XxHash3_64)
}

/// The filter of so many blocks and of these words.
pub(crate) fn filter(alloc: Global, given: &str) -> Result<Partial, AllocError> {
    let (blocks, words) = cut(given);
    let mut partial = Partial::from(alloc, &options(count(blocks)))?;
    for word in words.split_whitespace() {
        partial.insert(word.as_bytes());
    }
    Ok(partial)
}

/// Of the words `filter`, `contains`, `read`, `saturated`, `union` and `merge`.
pub(crate) fn tell(alloc: Global, answer: &mut Answer, word: &str, given: &str) {
    let (first, rest) = halves(given);
    match word {
        "read" => push_read(alloc, answer, first, rest),
        "saturated" => push_saturated(alloc, answer, first),
        "filter" => push_bytes(alloc, answer, first),
        "contains" => push_contains(alloc, answer, first, rest),
        _ => {
            if let Err(error) = push_union(alloc, answer, word, first, rest) {
                answer.push(error);
            }
        }
    }
}

fn push_contains(alloc: Global, answer: &mut Answer, given: &str, word: &str) {
    match filter(alloc, given) {
        Ok(filter) => {
            answer.push(filter.contains(word.as_bytes()));
            drop(filter);
        }
        Err(error) => answer.push(error),
    }
}

fn push_bytes(alloc: Global, answer: &mut Answer, given: &str) {
    match filter(alloc, given) {
        Ok(filter) => {
            match filter.serialize(alloc) {
                Ok(bytes) => {
                    push_blocks(answer, &bytes);
                    drop(bytes);
                }
                Err(error) => answer.push(error),
            }
            drop(filter);
        }
        Err(error) => answer.push(error),
    }
}

fn push_blocks(answer: &mut Answer, bytes: &[u8]) {
    let count = bytes.iter().filter(|b| **b != 0).count();
    write!(answer, "{} bytes, {count} not 0", bytes.len());
    for (number, block) in bytes.chunks(32).enumerate() {
        push_block(answer, number, block);
    }
}

/// The block, where it isn't 0.
fn push_block(answer: &mut Answer, number: usize, block: &[u8]) {
    if block.iter().any(|b| *b != 0) {
        write!(answer, ", block {number} ");
        answer.push_hex(block);
    }
}

fn read(alloc: Global, digits: &str) -> Result<Partial, PartialError> {
    let bytes = bytes(alloc, digits);
    let read = Partial::deserialize(alloc, &bytes);
    drop(bytes);
    read
}

/// Whether the filter that the bytes are is the one that is wanted.
fn push_read(alloc: Global, answer: &mut Answer, digits: &str, wanted: &str) {
    match read(alloc, digits) {
        Ok(one) => {
            answer.push_str("equal ");
            match filter(alloc, wanted) {
                Ok(wanted) => {
                    answer.push(one == wanted);
                    drop(wanted);
                }
                Err(error) => answer.push(error),
            }
            drop(one);
        }
        Err(error) => answer.push_debug(error),
    }
}

fn push_saturated(alloc: Global, answer: &mut Answer, digits: &str) {
    match read(alloc, digits) {
        Ok(filter) => {
            answer.push(BloomFilter.is_saturated(&filter));
            answer.push_str(" ");
            answer.push(filter.is_saturated());
            drop(filter);
        }
        Err(error) => answer.push(error),
    }
}

/// The filter with a second one, and a third that both together are to be.
fn push_union(
    alloc: Global,
    answer: &mut Answer,
    word: &str,
    first: &str,
    rest: &str,
) -> Result<(), AllocError> {
    let (second, wanted) = halves(rest);
    let mut one = filter(alloc, first)?;
    let other = filter(alloc, second)?;
    let wanted = filter(alloc, wanted)?;
    write!(answer, "equal {}, then ", one == other);
    let united = if word == "union" {
        one.union(&other)
    } else {
        BloomFilter.merge_partials(&mut one, &other)
    };
    match united {
        Ok(()) => answer.push(one == wanted),
        Err(error) => answer.push_debug(error),
    }
    Ok(())
}
