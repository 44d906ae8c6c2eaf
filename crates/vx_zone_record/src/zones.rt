//! The record of a zone.

ghost use Rattle.std.specs.Prelude.{◌≡◌, List, map, IsTrue, IfOk, IfErr};
ghost use Rattle.vx_hash.specs.XxHash3.{xxhash3_64};
ghost use Rattle.vx_model.specs.Words.{all_by};
ghost use Rattle.vx_model.specs.TyView.{ty};
ghost use Rattle.vx_model.specs.TreeView.{tree, val};
ghost use Rattle.vx_typed.specs.Lent.{lent_cell};
ghost use Rattle.vx_model.specs.CellData.{fits};
ghost use Rattle.vx_model.specs.ValueData.{value, is_row_value};
ghost use Rattle.vx_aggregate_spec.specs.Aggregate.{Column, held_aggregates};
ghost use Rattle.vx_aggregate.specs.AggregateView.{aggregate as aggregate_of};
ghost use Rattle.vx_zone_spec.specs.Record.{zone_record};
ghost use Rattle.vx_zone_spec.specs.ZoneMap.{names_of};
ghost use Rattle.vx_zone_record_spec.specs.Held.{has_state, record_fits};

use crate::error::RecordError;
use crate::row::Row;
use crate::values::aggregate_value;
use std::alloc::{AllocError, Global};
use vx_aggregate::AggregateFn;
use vx_model::{Cell, DType, Value};
use vx_typed::Lent;

/// The record of a zone of these row values: one value an aggregate, in order. Walks the values once an aggregate, and
/// copies none but those that the record keeps. `vx_model::is_row_value` and `AggregateFn::state_dtype` test the
/// conditions.
pub fn zone_record(
    alloc: Global,
    aggregates: &[AggregateFn],
    column: &DType,
    values: &[Value],
) -> Result<Vec<Value>, RecordError>
    requires held { IsTrue (all_by (has_state (ty column.now)) (map aggregate_of aggregates.now)) }
    requires fit { IsTrue (all_by (is_row_value (ty column.now)) (map val values.now)) }
    ensures record { IfOk result (λ v. (columns : List Column) → names_of columns ≡ map aggregate_of aggregates.now
        → map val v.items ≡ zone_record xxhash3_64 (ty column.now) (map val values.now) columns) }
    ensures fits { IfOk result (λ v. IsTrue (record_fits (held_aggregates (map aggregate_of aggregates.now) (ty column.now)) (map val v.items))) }
    ensures memory { IfErr result (λ e. e ≡ RecordError.OutOfMemory) }
{
    Ok(rows_record(alloc, aggregates, column, values)?)
}

/// The same of the rows that a reader sees of these cells, as a plain chunk keeps them.
pub fn cells_record(
    alloc: Global,
    aggregates: &[AggregateFn],
    column: &DType,
    cells: &[Cell],
) -> Result<Vec<Value>, RecordError>
    requires held { IsTrue (all_by (has_state (ty column.now)) (map aggregate_of aggregates.now)) }
    requires fit { IsTrue (all_by (fits (ty column.now)) (map tree cells.now)) }
    ensures record { IfOk result (λ v. (columns : List Column) → names_of columns ≡ map aggregate_of aggregates.now
        → map val v.items ≡ zone_record xxhash3_64 (ty column.now) (map value (map tree cells.now)) columns) }
    ensures fits { IfOk result (λ v. IsTrue (record_fits (held_aggregates (map aggregate_of aggregates.now) (ty column.now)) (map val v.items))) }
    ensures memory { IfErr result (λ e. e ≡ RecordError.OutOfMemory) }
{
    Ok(rows_record(alloc, aggregates, column, cells)?)
}

/// The same of the rows of a column that are lent.
pub fn lent_record(
    alloc: Global,
    aggregates: &[AggregateFn],
    column: &DType,
    rows: &[Lent<'_>],
) -> Result<Vec<Value>, RecordError>
    requires held { IsTrue (all_by (has_state (ty column.now)) (map aggregate_of aggregates.now)) }
    requires fit { IsTrue (all_by (fits (ty column.now)) (map lent_cell rows.now)) }
    ensures record { IfOk result (λ v. (columns : List Column) → names_of columns ≡ map aggregate_of aggregates.now
        → map val v.items ≡ zone_record xxhash3_64 (ty column.now) (map value (map lent_cell rows.now)) columns) }
    ensures fits { IfOk result (λ v. IsTrue (record_fits (held_aggregates (map aggregate_of aggregates.now) (ty column.now)) (map val v.items))) }
    ensures memory { IfErr result (λ e. e ≡ RecordError.OutOfMemory) }
{
    Ok(rows_record(alloc, aggregates, column, rows)?)
}

fn rows_record<R: Row>(
    alloc: Global,
    aggregates: &[AggregateFn],
    column: &DType,
    rows: &[R],
) -> Result<Vec<Value>, AllocError>
    requires held { IsTrue (all_by (has_state (ty column.now)) (map aggregate_of aggregates.now)) }
    requires fit { IsTrue (all_by (is_row_value (ty column.now)) (map R.seen rows.now)) }
    ensures record { IfOk result (λ v. (columns : List Column) → names_of columns ≡ map aggregate_of aggregates.now
        → map val v.items ≡ zone_record xxhash3_64 (ty column.now) (map R.seen rows.now) columns) }
    ensures fits { IfOk result (λ v. IsTrue (record_fits (held_aggregates (map aggregate_of aggregates.now) (ty column.now)) (map val v.items))) }
{
    let _count = rows.len();
    let mut folded = Vec::with_capacity(alloc, aggregates.len())?;
    for aggregate in aggregates {
        folded.push(aggregate_value(alloc, *aggregate, column, rows)?)?;
    }
    Ok(folded)
}
