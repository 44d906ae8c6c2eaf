//! What records are made of, for folds that run on over many zones.

ghost use Rattle.std.specs.Prelude.{◌≡◌, map, IsTrue, IfOk};
ghost use Rattle.vx_hash.specs.XxHash3.{xxhash3_64};
ghost use Rattle.vx_model.specs.Words.{all_by};
ghost use Rattle.vx_model.specs.TyView.{ty};
ghost use Rattle.vx_model.specs.TreeView.{tree, val};
ghost use Rattle.vx_typed.specs.Lent.{lent_cell};
ghost use Rattle.vx_model.specs.CellData.{fits};
ghost use Rattle.vx_model.specs.ValueData.{value};
ghost use Rattle.vx_aggregate.specs.AggregateView.{aggregate as aggregate_of};
ghost use Rattle.vx_zone_spec.specs.Bounds.{upper_bound as above, lower_bound as below};
ghost use Rattle.vx_zone_spec.specs.Record.{aggregate_value, nulls};
ghost use Rattle.vx_zone_spec.specs.ValueOrder.{greater as greater_of, lesser as lesser_of};
ghost use Rattle.vx_zone_record_spec.specs.Held.{has_state};

use crate::bounds::{lower_bytes, lower_text, upper_bytes, upper_text};
use crate::row::Row;
use crate::scalar::{is_at_most, is_null};
use crate::{folds, values};
use std::alloc::{AllocError, Global};
use vx_aggregate::AggregateFn;
use vx_model::{Cell, DType, Value};
use vx_typed::Lent;

/// The aggregate's value of the rows that a reader sees of these cells, as `cells_record` has it.
pub fn cells_value(
    alloc: Global,
    aggregate: AggregateFn,
    column: &DType,
    cells: &[Cell],
) -> Result<Value, AllocError>
    requires held { IsTrue (has_state (ty column.now) (aggregate_of aggregate)) }
    requires fit { IsTrue (all_by (fits (ty column.now)) (map tree cells.now)) }
    ensures { IfOk result (λ v. val v ≡ aggregate_value xxhash3_64 (ty column.now) (map value (map tree cells.now)) (aggregate_of aggregate)) }
{
    values::aggregate_value(alloc, aggregate, column, cells)
}

/// The same of the rows of a column that are lent.
pub fn rows_value(
    alloc: Global,
    aggregate: AggregateFn,
    column: &DType,
    rows: &[Lent<'_>],
) -> Result<Value, AllocError>
    requires held { IsTrue (has_state (ty column.now) (aggregate_of aggregate)) }
    requires fit { IsTrue (all_by (fits (ty column.now)) (map lent_cell rows.now)) }
    ensures { IfOk result (λ v. val v ≡ aggregate_value xxhash3_64 (ty column.now) (map value (map lent_cell rows.now)) (aggregate_of aggregate)) }
{
    values::aggregate_value(alloc, aggregate, column, rows)
}

/// The rows that a reader sees as null.
#[tactic(auto, using(crate::proofs::PartSteps::seen_rules))]
pub fn null_count(cells: &[Cell]) -> u64
    ensures { result ≡ nulls (map value (map tree cells.now)) }
{
    folds::null_count(cells)
}

/// The same of the rows of a column that are lent.
#[tactic(auto, using(crate::proofs::PartSteps::seen_rules))]
pub fn null_rows(rows: &[Lent<'_>]) -> u64
    ensures { result ≡ nulls (map value (map lent_cell rows.now)) }
{
    folds::null_count(rows)
}

/// At least the value, in so many bytes and at most one more; null where there is no such bound. What isn't a text or
/// bytes stays.
#[tactic(auto, using(crate::proofs::ScalarSteps::scalar_rules))]
pub fn upper_bound(alloc: Global, value: &Value, most: u64) -> Result<Value, AllocError>
    ensures { IfOk result (λ v. val v ≡ above most (val value.now)) }
{
    match value {
        Value::Utf8(text) => upper_text(alloc, text.as_str(), most),
        Value::Binary(bytes) => upper_bytes(alloc, bytes.as_slice(), most),
        Value::Null | Value::Bool(_) | Value::Int(_) => value.clone(),
        Value::List(_) | Value::Struct(_) => value.clone(),
    }
}

/// At most the value, in at most so many bytes. What isn't a text or bytes stays.
#[tactic(auto, using(crate::proofs::ScalarSteps::scalar_rules))]
pub fn lower_bound(alloc: Global, value: &Value, most: u64) -> Result<Value, AllocError>
    ensures { IfOk result (λ v. val v ≡ below most (val value.now)) }
{
    match value {
        Value::Utf8(text) => lower_text(alloc, text.as_str(), most),
        Value::Binary(bytes) => lower_bytes(alloc, bytes.as_slice(), most),
        Value::Null | Value::Bool(_) | Value::Int(_) => value.clone(),
        Value::List(_) | Value::Struct(_) => value.clone(),
    }
}

/// The greater of the two; the other where one is null.
#[tactic(auto, using(crate::proofs::PartSteps::choice_rules))]
pub fn greater(a: Value, b: Value) -> Value
    ensures { val result ≡ greater_of (val a) (val b) }
{
    if is_null(a.scalar()) {
        drop(a);
        return b;
    }
    if is_null(b.scalar()) {
        drop(b);
        return a;
    }
    if is_at_most(a.scalar(), b.scalar()) {
        drop(a);
        b
    } else {
        drop(b);
        a
    }
}

/// The lesser of the two; the other where one is null.
#[tactic(auto, using(crate::proofs::PartSteps::choice_rules))]
pub fn lesser(a: Value, b: Value) -> Value
    ensures { val result ≡ lesser_of (val a) (val b) }
{
    if is_null(a.scalar()) {
        drop(a);
        return b;
    }
    if is_null(b.scalar()) {
        drop(b);
        return a;
    }
    if is_at_most(a.scalar(), b.scalar()) {
        drop(b);
        a
    } else {
        drop(a);
        b
    }
}
