//! The value of one aggregate.

ghost use Rattle.std.specs.Prelude.{◌≡◌, ◌-ℤ◌, pos, false, map, IsTrue, IfOk, IfNone, IfSome};
ghost use Rattle.vx_hash.specs.XxHash3.{xxhash3_64};
ghost use Rattle.vx_model.specs.declared.ptype.PType.{PType};
ghost use Rattle.vx_model.specs.Numbers.{int_fits};
ghost use Rattle.vx_model.specs.Words.{all_by};
ghost use Rattle.vx_model.specs.TyView.{ty};
ghost use Rattle.vx_model.specs.TreeView.{val};
ghost use Rattle.vx_model.specs.ValueData.{is_row_value};
ghost use Rattle.vx_aggregate_spec.specs.Aggregate.{sum_of_type, sum_type};
ghost use Rattle.vx_aggregate.specs.AggregateView.{aggregate as aggregate_of};
ghost use Rattle.vx_zone_spec.specs.Record.{sum_value, aggregate_value};
ghost use Rattle.vx_zone_record_spec.specs.Held.{has_state};

use crate::bounds::{lower_bound, upper_bound};
use crate::filter::filter;
use crate::folds::{SumParts, greatest, least, null_count, total};
use crate::row::Row;
use crate::scalar::to_value;
use std::alloc::{AllocError, Global};
use vx_aggregate::AggregateFn;
use vx_model::{DType, Nullability, PType, Value, is_row_value};

/// The aggregate's value of these rows.
pub(crate) fn aggregate_value<R: Row>(
    alloc: Global,
    aggregate: AggregateFn,
    column: &DType,
    rows: &[R],
) -> Result<Value, AllocError>
    requires held { IsTrue (has_state (ty column.now) (aggregate_of aggregate)) }
    requires fit { IsTrue (all_by (is_row_value (ty column.now)) (map R.seen rows.now)) }
    ensures { IfOk result (λ v. val v ≡ aggregate_value xxhash3_64 (ty column.now) (map R.seen rows.now) (aggregate_of aggregate)) }
{
    match aggregate {
        AggregateFn::Max => to_value(alloc, greatest(rows)),
        AggregateFn::Min => to_value(alloc, least(rows)),
        AggregateFn::BoundedMax(most) => upper_bound(alloc, greatest(rows), u64::from(most.get())),
        AggregateFn::BoundedMin(most) => lower_bound(alloc, least(rows), u64::from(most.get())),
        AggregateFn::NullCount => Ok(Value::Int(i128::from(null_count(rows)))),
        AggregateFn::Sum => Ok(sum_value(sum_ptype(column), total(rows))),
        AggregateFn::Bloom(blocks) => filter(alloc, blocks, column, rows),
    }
}

/// Null where the sum doesn't fit the type.
#[tactic(auto, using(crate::proofs::SumSteps::sum_rules))]
fn sum_value(ptype: Option<PType>, total: SumParts) -> Value
    ensures { val result ≡ sum_value ptype (pos total.above -ℤ pos total.below) }
{
    let Some(ptype) = ptype else {
        return Value::Null;
    };
    let Some(sum) = difference(total.above, total.below) else {
        return Value::Null;
    };
    let sum = Value::Int(sum);
    let dtype = DType::Primitive(ptype, Nullability::NonNullable);
    let fits = is_row_value(&dtype, &sum);
    drop(dtype);
    if fits {
        sum
    } else {
        drop(sum);
        Value::Null
    }
}

/// None where no integer type has it.
#[tactic(auto, using(crate::proofs::SumSteps::sum_rules))]
fn difference(above: u128, below: u128) -> Option<i128>
    ensures some { IfSome result (λ n. n ≡ pos above -ℤ pos below) }
    ensures none { IfNone result ((p : PType) → int_fits p (pos above -ℤ pos below) ≡ false) }
{
    if above >= below {
        let size = above - below;
        if size > u128::from(u64::MAX) {
            return None;
        }
        return Some(size as i128);
    }
    let size = below - above;
    if size > u128::from(u64::MAX) {
        return None;
    }
    Some(-(size as i128))
}

/// The type of a column's sums.
fn sum_ptype(column: &DType) -> Option<PType>
    ensures { result ≡ sum_of_type (ty column.now) }
{
    match column {
        DType::Bool(_) => Some(PType::U64),
        DType::Primitive(ptype, _) => Some(sum_type(*ptype)),
        DType::Utf8(_) | DType::Binary(_) | DType::List(..) | DType::Struct(..) => None,
        DType::Extension(ext) => sum_ptype(&ext.storage),
    }
}

fn sum_type(ptype: PType) -> PType
    ensures { result ≡ sum_type ptype }
{
    match ptype {
        PType::U8 | PType::U16 | PType::U32 | PType::U64 => PType::U64,
        PType::I8 | PType::I16 | PType::I32 | PType::I64 => PType::I64,
    }
}
