//! What is told of what was gathered.

ghost use Rattle.std.specs.Prelude.{◌≡◌, map, IfOk, if◌then◌else◌};
ghost use Rattle.vx_model.specs.TyView.{ty};
ghost use Rattle.vx_model.specs.TreeView.{val};
ghost use Rattle.vx_file_stats.specs.Precisions.{precision, set_data, exact, inexact};
ghost use Rattle.vx_file_stats.specs.FileStats.{bounded, fitting, counted, kept};
ghost use Rattle.vx_file_stats.specs.Gathering.{bound_data, column_data, max_told, min_told, set_told};

use crate::bound::BoundSoFar;
use crate::column::ColumnStats;
use crate::keeps::{is_byte_type, keeps};
use crate::precision::Precision;
use crate::rows::RowStats;
use crate::stats_set::StatsSet;
use std::alloc::AllocError;
use vx_aggregate::{AggregateFn, Stat};
use vx_model::{DType, Value, is_row_value};

/// A set a column.
#[tactic(auto, using(crate::proofs::ColumnSteps::set_rules))]
pub(crate) fn sets_of(
    asked: &[Stat],
    columns: Vec<ColumnStats>,
) -> Result<Vec<StatsSet>, AllocError>
    ensures { IfOk result (λ v. map set_data v.items ≡ map (set_told asked.now) (map column_data columns.items)) }
{
    let mut sets = Vec::with_capacity(*columns.allocator(), columns.len())?;
    for column in columns {
        sets.push(set_of(asked, column))?;
    }
    Ok(sets)
}

fn set_of(asked: &[Stat], column: ColumnStats) -> StatsSet
    ensures { set_data result ≡ set_told asked.now (column_data column) }
{
    let ColumnStats { dtype, rows, bytes } = column;
    let RowStats {
        upper,
        lower,
        total,
        null_rows,
    } = rows;
    let max = kept(keeps(asked, Stat::Max, &dtype), max_told(&dtype, upper));
    let min = kept(keeps(asked, Stat::Min, &dtype), min_told(lower));
    let sum = kept(keeps(asked, Stat::Sum, &dtype), fitting(&dtype, total));
    let null_count = kept(keeps(asked, Stat::NullCount, &dtype), counted(null_rows));
    let size = kept(
        keeps(asked, Stat::UncompressedSizeInBytes, &dtype),
        counted(bytes),
    );
    drop(dtype);
    StatsSet {
        max,
        min,
        sum,
        null_count,
        size,
    }
}

/// Nothing of what isn't kept.
fn kept(is_kept: bool, told: Precision) -> Precision
    ensures { precision result ≡ kept is_kept (precision told) }
{
    if is_kept {
        told
    } else {
        drop(told);
        Precision::Absent
    }
}

fn max_told(column: &DType, bound: BoundSoFar) -> Precision
    ensures { precision result ≡ max_told (ty column.now) (bound_data bound) }
{
    if is_byte_type(column) && bound.missing {
        drop(bound);
        return Precision::Absent;
    }
    min_told(bound)
}

fn min_told(bound: BoundSoFar) -> Precision
    ensures { precision result ≡ min_told (bound_data bound) }
{
    let BoundSoFar { value, cut, .. } = bound;
    bounded(cut, value)
}

/// Absent where there is none.
#[tactic(auto, using(vx_zone_record::proofs::ScalarSteps::scalar_rules))]
fn bounded(cut: bool, value: Value) -> Precision
    ensures { precision result ≡ bounded cut (val value) }
{
    match value {
        Value::Null => Precision::Absent,
        Value::Bool(b) => a_bound(cut, Value::Bool(b)),
        Value::Int(n) => a_bound(cut, Value::Int(n)),
        Value::Utf8(text) => a_bound(cut, Value::Utf8(text)),
        Value::Binary(bytes) => a_bound(cut, Value::Binary(bytes)),
        Value::List(values) => a_bound(cut, Value::List(values)),
        Value::Struct(values) => a_bound(cut, Value::Struct(values)),
    }
}

fn a_bound(cut: bool, value: Value) -> Precision
    ensures { precision result ≡ (if cut then inexact (val value) else exact (val value)) }
{
    if cut {
        Precision::Inexact(value)
    } else {
        Precision::Exact(value)
    }
}

/// Absent where it doesn't fit the type of the column's sums.
#[tactic(auto, using(crate::proofs::SumSteps::fitting_rules))]
fn fitting(column: &DType, total: Option<i128>) -> Precision
    ensures { precision result ≡ fitting (ty column.now) total }
{
    let Some(total) = total else {
        return Precision::Absent;
    };
    match AggregateFn::Sum.state_dtype(column) {
        Ok(Some(state)) => {
            let sum = Value::Int(total);
            if is_row_value(&state, &sum) {
                drop(state);
                return Precision::Exact(sum);
            }
            drop((state, sum));
            Precision::Absent
        }
        _ => Precision::Absent,
    }
}

/// Absent where no value holds it.
#[tactic(auto, using(crate::proofs::SizeSteps::counted_rules))]
fn counted(count: u128) -> Precision
    ensures { precision result ≡ counted count }
{
    if count > i128::MAX as u128 {
        return Precision::Absent;
    }
    Precision::Exact(Value::Int(count as i128))
}
