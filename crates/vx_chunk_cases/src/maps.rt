//! Zone maps.

use crate::ask::tell_asked;
use anyhow::Context;
use std::alloc::Global;
use vx_aggregate::AggregateFn;
use vx_case_lines::Answer;
use vx_case_objects::{Case, aggregates_in, dtype_in, number_in};
use vx_chunk::Chunk;
use vx_chunk_json::read_batch;
use vx_model::DType;
use vx_zone_map::{ZoneError, ZoneMap};

/// Of the table that the case gives.
pub(crate) fn tell(alloc: Global, answer: &mut Answer, case: Case) {
    match table_in(alloc, case) {
        Ok(table) => match aggregates_in(alloc, case.object, case.dtype) {
            Ok(aggregates) => tell_map(alloc, answer, case, table, aggregates, 0),
            Err(error) => {
                drop(table);
                answer.push_refusal(case.name, error);
            }
        },
        Err(error) => answer.push_refusal(case.name, error),
    }
}

fn table_in(alloc: Global, case: Case) -> anyhow::Result<Chunk> {
    let dtype = dtype_in(alloc, case.object, "type")?;
    let table = table_of(alloc, case, &dtype);
    drop(dtype);
    table
}

fn table_of(alloc: Global, case: Case, dtype: &DType) -> anyhow::Result<Chunk> {
    let value = case.object.get("table").context("no table")?;
    Ok(read_batch(alloc, dtype, value)?)
}

/// A line a predicate; one line where the table isn't taken.
pub(crate) fn tell_map(
    alloc: Global,
    answer: &mut Answer,
    case: Case,
    table: Chunk,
    aggregates: Vec<AggregateFn>,
    rows: u64,
) {
    match map_of(alloc, case, table, aggregates, rows) {
        Ok(map) => {
            tell_asked(alloc, answer, case, &map);
            drop(map);
        }
        Err(error) => answer.push_refusal(case.name, error),
    }
}

fn map_of(
    alloc: Global,
    case: Case,
    table: Chunk,
    aggregates: Vec<AggregateFn>,
    rows: u64,
) -> Result<ZoneMap, ZoneError> {
    let zone_len = number_in(case.object, "zone").unwrap_or(0);
    let row_count = number_in(case.object, "rows").unwrap_or(rows);
    match case.dtype.clone() {
        Ok(column) => ZoneMap::try_new(alloc, column, table, aggregates, zone_len, row_count),
        Err(error) => {
            drop(table);
            Err(ZoneError::from(error))
        }
    }
}
