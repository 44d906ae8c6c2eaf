//! Tables of statistics of the old form.

ghost use Rattle.std.specs.Prelude.{◌≡◌, IfOk};
ghost use Rattle.vx_model.specs.TyView.{ty};
ghost use Rattle.vx_model.specs.ChunkData.{piece_type};
ghost use Rattle.vx_aggregate.specs.Tables.{legacy_table};

use anyhow::Context;
use serde_json::Value as Json;
use std::alloc::Global;
use vx_aggregate::{AggregateFn, Stat, legacy_stats_table_dtype};
use vx_case_lines::Answer;
use vx_case_objects::{Case, push_values, stats_of};
use vx_chunk::Chunk;
use vx_chunk_json::read_chunk;
use vx_file_stats::legacy_stats_to_aggregates;
use vx_model::{DType, Value};

/// The aggregates, and a line a zone.
pub(crate) fn tell(alloc: Global, answer: &mut Answer, case: Case) {
    match stats_of(alloc, case.given) {
        Ok(stats) => {
            tell_of(alloc, answer, case, &stats);
            drop(stats);
        }
        Err(error) => answer.push_refusal(case.name, error),
    }
}

fn tell_of(alloc: Global, answer: &mut Answer, case: Case, stats: &[Stat]) {
    match table_in(alloc, case.object, case.dtype, stats) {
        Ok(table) => {
            let read = legacy_stats_to_aggregates(alloc, case.dtype, &table, stats);
            drop(table);
            match read {
                Ok((aggregates, zones)) => {
                    tell_aggregates(answer, case.name, &aggregates);
                    drop(aggregates);
                    tell_zones(alloc, answer, case.name, zones);
                }
                Err(error) => answer.push_refusal(case.name, error),
            }
        }
        Err(error) => answer.push_refusal(case.name, error),
    }
}

/// The table that the object says, of these statistics on the type.
fn table_in(alloc: Global, object: &Json, column: &DType, stats: &[Stat]) -> anyhow::Result<Chunk>
    ensures { IfOk result (λ c. piece_type c ≡ legacy_table (ty column.now) stats.now) }
{
    let value = object.get("table").context("no table")?;
    let dtype = legacy_stats_table_dtype(alloc, column, stats)?;
    let table = read_chunk(alloc, &dtype, value);
    drop(dtype);
    Ok(table?)
}

fn tell_aggregates(answer: &mut Answer, name: &str, aggregates: &[AggregateFn]) {
    write!(answer, "{name}:");
    for aggregate in aggregates {
        write!(answer, " {aggregate}");
    }
    answer.push_str("\n");
}

fn tell_zones(alloc: Global, answer: &mut Answer, name: &str, zones: Chunk) {
    match zones.into_rows(alloc) {
        Ok(rows) => {
            tell_rows(answer, name, &rows);
            drop(rows);
        }
        Err(error) => answer.push_refusal(name, error),
    }
}

fn tell_rows(answer: &mut Answer, name: &str, rows: &[Value]) {
    for i in 0..rows.len() {
        write!(answer, "{name} {i}: ");
        push_zone(answer, &rows[i]);
        answer.push_str("\n");
    }
}

fn push_zone(answer: &mut Answer, zone: &Value) {
    match zone {
        Value::Struct(values) if values.is_empty() => answer.push_str("nothing"),
        Value::Struct(values) => push_values(answer, values),
        _ => answer.push_str("no zone"),
    }
}
