//! Bounds of the batches so far.

ghost use Rattle.std.specs.Prelude.{◌≡◌, map, IsTrue, IfOk};
ghost use Rattle.vx_model.specs.Words.{all_by};
ghost use Rattle.vx_model.specs.TyView.{ty};
ghost use Rattle.vx_model.specs.TreeView.{val};
ghost use Rattle.vx_typed.specs.Lent.{lent_cell};
ghost use Rattle.vx_model.specs.CellData.{fits};
ghost use Rattle.vx_model.specs.ValueData.{value};
ghost use Rattle.vx_zone_spec.specs.ValueOrder.{greatest, least};
ghost use Rattle.vx_zone_record_spec.specs.Held.{has_state};
ghost use Rattle.vx_aggregate_spec.specs.Aggregate.{maximum, minimum};
ghost use Rattle.vx_file_stats.specs.FileStats.{is_longer};
ghost use Rattle.vx_file_stats.specs.Gathering.{bound_data, no_bound, max_with, min_with};

use std::alloc::{AllocError, Global};
use vx_aggregate::AggregateFn;
use vx_model::{DType, Value};
use vx_typed::Lent;
use vx_zone_record::{greater, lesser, lower_bound, rows_value, upper_bound};

/// A bound of the batches so far.
#[derive(Drop)]
pub(crate) struct BoundSoFar {
    /// Null where no batch has one.
    pub(crate) value: Value,
    /// It was cut in some batch.
    pub(crate) cut: bool,
    /// Some batch has none.
    pub(crate) missing: bool,
}

/// That of no batch.
pub(crate) fn no_bound() -> BoundSoFar
    ensures { bound_data result ≡ no_bound }
{
    BoundSoFar {
        value: Value::Null,
        cut: false,
        missing: false,
    }
}

/// The upper bound with one batch more, whose rows are these cells.
pub(crate) fn max_with(
    alloc: Global,
    limit: u64,
    column: &DType,
    rows: &[Lent<'_>],
    before: BoundSoFar,
) -> Result<BoundSoFar, AllocError>
    requires held { IsTrue (has_state (ty column.now) maximum) }
    requires fit { IsTrue (all_by (fits (ty column.now)) (map lent_cell rows.now)) }
    ensures { IfOk result (λ b. bound_data b ≡ max_with limit (greatest (map value (map lent_cell rows.now))) (bound_data before)) }
{
    let Ok(found) = rows_value(alloc, AggregateFn::Max, column, rows) else {
        drop(before);
        return Err(AllocError);
    };
    let cut = is_longer(&found, limit);
    let Ok(bound) = upper_bound(alloc, &found, limit) else {
        drop((found, before));
        return Err(AllocError);
    };
    drop(found);
    let missing = matches!(bound, Value::Null);
    Ok(BoundSoFar {
        value: greater(bound, before.value),
        cut: cut || before.cut,
        missing: missing || before.missing,
    })
}

/// The lower bound with one batch more, whose rows are these cells.
pub(crate) fn min_with(
    alloc: Global,
    limit: u64,
    column: &DType,
    rows: &[Lent<'_>],
    before: BoundSoFar,
) -> Result<BoundSoFar, AllocError>
    requires held { IsTrue (has_state (ty column.now) minimum) }
    requires fit { IsTrue (all_by (fits (ty column.now)) (map lent_cell rows.now)) }
    ensures { IfOk result (λ b. bound_data b ≡ min_with limit (least (map value (map lent_cell rows.now))) (bound_data before)) }
{
    let Ok(found) = rows_value(alloc, AggregateFn::Min, column, rows) else {
        drop(before);
        return Err(AllocError);
    };
    let cut = is_longer(&found, limit);
    let Ok(bound) = lower_bound(alloc, &found, limit) else {
        drop((found, before));
        return Err(AllocError);
    };
    drop(found);
    let missing = matches!(bound, Value::Null);
    Ok(BoundSoFar {
        value: lesser(bound, before.value),
        cut: cut || before.cut,
        missing: missing || before.missing,
    })
}

/// Whether the value is a text or bytes of more than so many bytes.
#[tactic(auto, using(crate::proofs::KeepSteps::longer_rules))]
fn is_longer(value: &Value, limit: u64) -> bool
    ensures { result ≡ is_longer limit (val value.now) }
{
    match value {
        Value::Utf8(text) => text.as_str().len() as u64 > limit,
        Value::Binary(bytes) => bytes.as_slice().len() as u64 > limit,
        Value::Null | Value::Bool(_) | Value::Int(_) | Value::List(_) | Value::Struct(_) => false,
    }
}
