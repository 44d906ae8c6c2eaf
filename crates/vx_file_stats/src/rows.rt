//! What is gathered of rows.

ghost use Rattle.std.specs.Prelude.{◌≡◌, ◌||◌, map, IsTrue, IfOk, if◌then◌else◌};
ghost use Rattle.vx_model.specs.Words.{all_by};
ghost use Rattle.vx_model.specs.TyView.{ty};
ghost use Rattle.vx_model.specs.TreeView.{val};
ghost use Rattle.vx_typed.specs.Lent.{lent_cell};
ghost use Rattle.vx_column.specs.ColumnView.{column_cells};
ghost use Rattle.vx_model.specs.CellData.{fits};
ghost use Rattle.vx_model.specs.ValueData.{value};
ghost use Rattle.vx_model.specs.ChunkData.{piece_type, row_values};
ghost use Rattle.vx_zone_spec.specs.Record.{nulls, exact_sum, sum_value};
ghost use Rattle.vx_aggregate_spec.specs.Aggregate.{sum, sum_of_type};
ghost use Rattle.vx_aggregate.specs.declared.stat.Stat.TheVariants as stats;
ghost use Rattle.vx_zone_record_spec.specs.Held.{has_state};
ghost use Rattle.vx_file_stats.specs.FileStats.{both, keeps, number_in};
ghost use Rattle.vx_file_stats.specs.Gathering.{row_data, bound_data, no_rows, next_upper, next_lower, next_total, next_null_rows, with_rows};

use crate::bound::{BoundSoFar, max_with, min_with, no_bound};
use crate::keeps::keeps;
use std::alloc::{AllocError, Global};
use vx_aggregate::{AggregateFn, Stat};
use vx_chunk::Chunk;
use vx_column::Column;
use vx_model::{DType, Value};
use vx_typed::Lent;
use vx_zone_record::{null_rows, rows_value};

/// What is gathered of a column's rows. What isn't asked for stays as it began.
#[derive(Drop)]
pub(crate) struct RowStats {
    pub(crate) upper: BoundSoFar,
    pub(crate) lower: BoundSoFar,
    /// Nothing where some batch's sum doesn't fit its type.
    pub(crate) total: Option<i128>,
    /// Stops at the greatest number.
    pub(crate) null_rows: u128,
}

/// Those of no batch.
pub(crate) fn no_rows() -> RowStats
    ensures { row_data result ≡ no_rows }
{
    RowStats {
        upper: no_bound(),
        lower: no_bound(),
        total: Some(0),
        null_rows: 0,
    }
}

/// Those with one batch more. Rows that the chunk holds as a column aren't copied, and rows that no statistic reads
/// aren't made.
pub(crate) fn with_chunk(
    alloc: Global,
    asked: &[Stat],
    limit: u64,
    chunk: &Chunk,
    before: RowStats,
) -> Result<RowStats, AllocError>
    ensures { IfOk result (λ r. row_data r ≡ with_rows asked.now limit (piece_type chunk.now) (row_values chunk.now) (row_data before)) }
{
    if !reads_rows(asked, chunk.dtype()) {
        return Ok(before);
    }
    chunk.sound();
    if let Some(column) = chunk.as_column() {
        return with_column(alloc, asked, limit, chunk.dtype(), column, before);
    }
    let Ok(cells) = chunk.cells(alloc) else {
        drop(before);
        return Err(AllocError);
    };
    let column = Column::Cells(cells);
    with_column(alloc, asked, limit, chunk.dtype(), &column, before)
}

/// Those with the rows that a reader sees of this column.
fn with_column(
    alloc: Global,
    asked: &[Stat],
    limit: u64,
    dtype: &DType,
    column: &Column,
    before: RowStats,
) -> Result<RowStats, AllocError>
    requires { IsTrue (all_by (fits (ty dtype.now)) (column_cells column.now)) }
    ensures { IfOk result (λ r. row_data r ≡ with_rows asked.now limit (ty dtype.now) (map value (column_cells column.now)) (row_data before)) }
{
    match column.rows(alloc) {
        Ok(rows) => with_lent(alloc, asked, limit, dtype, &rows, before),
        Err(error) => {
            drop(before);
            Err(error)
        }
    }
}

/// Whether some statistic that is kept is one of the rows.
fn reads_rows(asked: &[Stat], column: &DType) -> bool
    ensures { result ≡ ((keeps asked.now stats.Max (ty column.now) || keeps asked.now stats.Min (ty column.now)) || (keeps asked.now stats.Sum (ty column.now) || keeps asked.now stats.NullCount (ty column.now))) }
{
    let bounds = keeps(asked, Stat::Max, column) || keeps(asked, Stat::Min, column);
    bounds || keeps(asked, Stat::Sum, column) || keeps(asked, Stat::NullCount, column)
}

/// Those with the rows that a reader sees of these cells.
fn with_lent(
    alloc: Global,
    asked: &[Stat],
    limit: u64,
    column: &DType,
    rows: &[Lent<'_>],
    before: RowStats,
) -> Result<RowStats, AllocError>
    requires { IsTrue (all_by (fits (ty column.now)) (map lent_cell rows.now)) }
    ensures { IfOk result (λ r. row_data r ≡ with_rows asked.now limit (ty column.now) (map value (map lent_cell rows.now)) (row_data before)) }
{
    let RowStats {
        upper,
        lower,
        total,
        null_rows,
    } = before;
    let Ok(upper) = next_upper(alloc, asked, limit, column, rows, upper) else {
        drop(lower);
        return Err(AllocError);
    };
    let Ok(lower) = next_lower(alloc, asked, limit, column, rows, lower) else {
        drop(upper);
        return Err(AllocError);
    };
    let Ok(total) = next_total(alloc, asked, column, rows, total) else {
        drop((upper, lower));
        return Err(AllocError);
    };
    Ok(RowStats {
        upper,
        lower,
        total,
        null_rows: next_null_rows(asked, column, rows, null_rows),
    })
}

#[tactic(auto, using(crate::proofs::KeepSteps::kept_rules))]
fn next_upper(
    alloc: Global,
    asked: &[Stat],
    limit: u64,
    column: &DType,
    rows: &[Lent<'_>],
    before: BoundSoFar,
) -> Result<BoundSoFar, AllocError>
    requires { IsTrue (all_by (fits (ty column.now)) (map lent_cell rows.now)) }
    ensures { IfOk result (λ b. bound_data b ≡ next_upper asked.now limit (ty column.now) (map value (map lent_cell rows.now)) (bound_data before)) }
{
    if !keeps(asked, Stat::Max, column) {
        return Ok(before);
    }
    max_with(alloc, limit, column, rows, before)
}

#[tactic(auto, using(crate::proofs::KeepSteps::kept_rules))]
fn next_lower(
    alloc: Global,
    asked: &[Stat],
    limit: u64,
    column: &DType,
    rows: &[Lent<'_>],
    before: BoundSoFar,
) -> Result<BoundSoFar, AllocError>
    requires { IsTrue (all_by (fits (ty column.now)) (map lent_cell rows.now)) }
    ensures { IfOk result (λ b. bound_data b ≡ next_lower asked.now limit (ty column.now) (map value (map lent_cell rows.now)) (bound_data before)) }
{
    if !keeps(asked, Stat::Min, column) {
        return Ok(before);
    }
    min_with(alloc, limit, column, rows, before)
}

#[tactic(auto, using(crate::proofs::KeepSteps::kept_rules))]
fn next_total(
    alloc: Global,
    asked: &[Stat],
    column: &DType,
    rows: &[Lent<'_>],
    before: Option<i128>,
) -> Result<Option<i128>, AllocError>
    requires { IsTrue (all_by (fits (ty column.now)) (map lent_cell rows.now)) }
    ensures { IfOk result (λ s. s ≡ next_total asked.now (ty column.now) (map value (map lent_cell rows.now)) before) }
{
    if !keeps(asked, Stat::Sum, column) {
        return Ok(before);
    }
    let sum = batch_sum(alloc, column, rows)?;
    both(sum, before)
}

/// The sum of the rows; nothing where it doesn't fit its type.
fn batch_sum(alloc: Global, column: &DType, rows: &[Lent<'_>]) -> Result<Option<i128>, AllocError>
    requires held { IsTrue (has_state (ty column.now) sum) }
    requires fit { IsTrue (all_by (fits (ty column.now)) (map lent_cell rows.now)) }
    ensures { IfOk result (λ s. s ≡ number_in (sum_value (sum_of_type (ty column.now)) (exact_sum (map value (map lent_cell rows.now))))) }
{
    let sum = rows_value(alloc, AggregateFn::Sum, column, rows)?;
    let number = number_in(&sum);
    drop(sum);
    Ok(number)
}

#[tactic(auto, using(vx_zone_record::proofs::ScalarSteps::scalar_rules))]
fn number_in(value: &Value) -> Option<i128>
    ensures { result ≡ number_in (val value.now) }
{
    match value {
        Value::Int(n) => Some(*n),
        Value::Null | Value::Bool(_) | Value::Utf8(_) | Value::Binary(_) => None,
        Value::List(_) | Value::Struct(_) => None,
    }
}

/// Both together. A total that 128 bits can't hold finds no memory.
fn both(sum: Option<i128>, total: Option<i128>) -> Result<Option<i128>, AllocError>
    ensures { IfOk result (λ s. s ≡ both sum total) }
{
    let Some(sum) = sum else {
        return Ok(None);
    };
    let Some(total) = total else {
        return Ok(None);
    };
    match sum.checked_add(total) {
        Some(both) => Ok(Some(both)),
        None => Err(AllocError),
    }
}

fn next_null_rows(asked: &[Stat], column: &DType, rows: &[Lent<'_>], before: u128) -> u128
    ensures { result ≡ next_null_rows asked.now (ty column.now) (map value (map lent_cell rows.now)) before }
{
    if !keeps(asked, Stat::NullCount, column) {
        return before;
    }
    before.saturating_add(u128::from(null_rows(rows)))
}
