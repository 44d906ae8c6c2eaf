//! The tables that aggregates and statistics fill.

use serde_json::Value;
use std::alloc::Global;
use vx_aggregate::{AggregateFn, aggregate_stats_table_dtype, legacy_stats_table_dtype};
use vx_case_lines::Answer;
use vx_case_objects::{aggregates_of, stats_of};
use vx_model::DType;

/// Of the words `table` and `legacy`.
pub(crate) fn tell(alloc: Global, answer: &mut Answer, word: &str, of: &DType, by: &str) {
    match table_by(alloc, word, of, by) {
        Ok(table) => {
            push_fields(answer, &table);
            drop(table);
        }
        Err(error) => answer.push(error),
    }
}

/// The table of aggregates, or of statistics.
fn table_by(alloc: Global, word: &str, of: &DType, by: &str) -> anyhow::Result<DType> {
    if word == "table" {
        let aggregates = aggregates(alloc, by)?;
        Ok(aggregate_stats_table_dtype(alloc, of, &aggregates)?)
    } else {
        let stats = stats_of(alloc, by)?;
        Ok(legacy_stats_table_dtype(alloc, of, &stats)?)
    }
}

fn aggregates(alloc: Global, json: &str) -> anyhow::Result<Vec<AggregateFn>> {
    let value = Value::from_str(alloc, json)?;
    let aggregates = aggregates_of(alloc, &value);
    drop(value);
    aggregates
}

/// The fields of a struct, with a mark behind the nullable ones.
fn push_fields(answer: &mut Answer, dtype: &DType) {
    if let DType::Struct(fields, _) = dtype {
        let mut comma = "";
        for field in &fields.fields {
            let mark = if field.dtype.is_nullable() { "?" } else { "" };
            write!(answer, "{comma}{}{mark}", field.name.as_str());
            comma = ", ";
        }
    }
}
