//! Filters of booleans and nulls, and lists that they don't take.

ghost use Rattle.std.specs.Prelude.{IsTrue, true};
ghost use Rattle.vx_model.specs.Ty.{boolean};
ghost use Rattle.vx_model.specs.ValueData.{is_row_value};
ghost use Rattle.vx_model.specs.TreeView.{val};

use crate::filters::{Partial, filter};
use std::alloc::{AllocError, Global};
use vx_bloom::{BloomFilter, BloomOptions, Unsupported};
use vx_case_lines::{Answer, cut};
use vx_model::{DType, Nullability, Value};

/// A boolean, or null.
fn value(word: &str) -> Value
    ensures { IsTrue (is_row_value (boolean true) (val result)) }
{
    match word {
        "true" => Value::Bool(true),
        "false" => Value::Bool(false),
        _ => Value::Null,
    }
}

/// Inserts the two values of the words.
fn insert_pair(partial: &mut Partial, pair: &str) -> Result<(), Unsupported> {
    let (first, second) = cut(pair);
    let dtype = DType::Bool(Nullability::Nullable);
    let values = [value(first), value(second)];
    let inserted = BloomFilter.accumulate(partial, &dtype, &values);
    drop(values);
    drop(dtype);
    inserted
}

/// The filter of the pairs.
fn filter_of(alloc: Global, given: &str) -> anyhow::Result<Partial> {
    let mut partial = BloomFilter.empty_partial(alloc, &BloomOptions::default())?;
    for pair in given.split(" / ") {
        insert_pair(&mut partial, pair)?;
    }
    Ok(partial)
}

/// Whether the filter is empty, and which of the three values it contains.
pub(crate) fn push_accumulated(alloc: Global, answer: &mut Answer, given: &str) {
    match filter_of(alloc, given) {
        Ok(partial) => {
            if let Ok(empty) = filter(alloc, "256") {
                write!(answer, "empty {}", partial == empty);
                drop(empty);
            }
            for word in ["true", "false", "null"] {
                push_contains(answer, &partial, word);
            }
            drop(partial);
        }
        Err(error) => answer.push(error),
    }
}

fn push_contains(answer: &mut Answer, partial: &Partial, word: &str) {
    let dtype = DType::Bool(Nullability::Nullable);
    let value = value(word);
    match partial.contains_scalar(&dtype, &value) {
        Ok(contains) => write!(answer, ", {word} {contains}"),
        Err(error) => answer.push_debug(error),
    }
    drop(value);
    drop(dtype);
}

/// Lists of booleans, or booleans.
fn dtype_of(alloc: Global, list: bool) -> Result<DType, AllocError> {
    if list {
        let item = Box::new(alloc, DType::Bool(Nullability::Nullable))?;
        Ok(DType::List(item, Nullability::NonNullable))
    } else {
        Ok(DType::Bool(Nullability::Nullable))
    }
}

/// Inserts null, or the empty list, as a list of booleans.
fn insert_list(
    alloc: Global,
    partial: &mut Partial,
    null: bool,
) -> Result<Result<(), Unsupported>, AllocError> {
    let item = Box::new(alloc, DType::Bool(Nullability::Nullable))?;
    let dtype = DType::List(item, Nullability::NonNullable);
    let value = if null {
        Value::Null
    } else {
        Value::List(Vec::new(alloc))
    };
    let inserted = partial.insert_scalar(&dtype, &value);
    drop(value);
    drop(dtype);
    Ok(inserted)
}

/// What an empty filter says to it.
pub(crate) fn push_inserted(alloc: Global, answer: &mut Answer, null: bool) {
    match BloomFilter.empty_partial(alloc, &BloomOptions::default()) {
        Ok(mut partial) => {
            match insert_list(alloc, &mut partial, null) {
                Ok(Ok(())) => answer.push_str("Ok"),
                Ok(Err(error)) => answer.push_debug(error),
                Err(error) => answer.push(error),
            }
            drop(partial);
        }
        Err(error) => answer.push(error),
    }
}

/// Of the state on lists of booleans, or on booleans.
pub(crate) fn push_state(alloc: Global, answer: &mut Answer, list: bool) {
    match dtype_of(alloc, list) {
        Ok(dtype) => {
            match BloomFilter.state_dtype(&dtype) {
                Ok(Some(state)) => answer.push(state),
                Ok(None) => answer.push_str("none"),
                Err(error) => answer.push(error),
            }
            drop(dtype);
        }
        Err(error) => answer.push(error),
    }
}
