//! The calls of a source: which of them fail, and how many give all batches.

use serde_json::Value;
use std::alloc::{AllocError, Global};

/// The numbers of the source's calls that fail; none where the object has no list of them.
pub(crate) fn fails_in(alloc: Global, given: &Value) -> Result<Vec<u64>, AllocError> {
    let mut numbers = Vec::new(alloc);
    if let Some(listed) = listed_in(given, "fails") {
        for item in listed {
            numbers.push(item.as_u64().unwrap_or(0))?;
        }
    }
    Ok(numbers)
}

fn listed_in<'a>(given: &'a Value, key: &str) -> Option<&'a Vec<Value>> {
    given.get(key)?.as_array()
}

/// So many calls give all batches: one a batch, one a call that fails, and one for the end.
pub(crate) fn calls_of(given: &Value) -> usize {
    length_of(given, "batches")
        .saturating_add(length_of(given, "fails"))
        .saturating_add(1)
}

fn length_of(given: &Value, key: &str) -> usize {
    match listed_in(given, key) {
        Some(listed) => listed.len(),
        None => 0,
    }
}
