//! Parts of an object.

use anyhow::Context;
use serde_json::Value;
use std::alloc::Global;
use vx_aggregate::{AggregateFn, default_zoned_aggregate_fns};
use vx_chunk_json::read_type;
use vx_model::DType;
use vx_strategy_json::read_aggregate;

/// The type at the object's key.
pub fn dtype_in(alloc: Global, object: &Value, key: &str) -> anyhow::Result<DType> {
    let value = object.get(key).context("no type")?;
    Ok(read_type(alloc, value)?)
}

/// The list at the object's key.
pub fn list_in<'a>(object: &'a Value, key: &str) -> anyhow::Result<&'a Vec<Value>> {
    let value = object.get(key).context("no list")?;
    value.as_array().context("no list")
}

/// None where the object has no number under the key.
pub fn number_in(object: &Value, key: &str) -> Option<u64> {
    object.get(key)?.as_u64()
}

/// Those that the object lists (`aggregates`); where it has no list, those that are kept of the type by themselves.
pub fn aggregates_in(
    alloc: Global,
    object: &Value,
    dtype: &DType,
) -> anyhow::Result<Vec<AggregateFn>> {
    match object.get("aggregates") {
        Some(listed) => aggregates_of(alloc, listed),
        None => Ok(default_zoned_aggregate_fns(alloc, dtype)?),
    }
}

/// Those that the value lists.
pub fn aggregates_of(alloc: Global, value: &Value) -> anyhow::Result<Vec<AggregateFn>> {
    let listed = value.as_array().context("aggregates are no list")?;
    let mut aggregates = Vec::new(alloc);
    for item in listed {
        aggregates.push(read_aggregate(item)?)?;
    }
    Ok(aggregates)
}
