//! The aggregates that a column can hold.

ghost use Rattle.std.specs.Prelude.{◌≡◌, ◌++◌, map, IsTrue, IfOk, OnOk};
ghost use Rattle.vx_model.specs.Words.{all_by};
ghost use Rattle.vx_model.specs.TyView.{ty};
ghost use Rattle.vx_aggregate_spec.specs.Aggregate.{held_aggregates, state_type, with_state};
ghost use Rattle.vx_aggregate.specs.AggregateView.{aggregate as aggregate_of};
ghost use Rattle.vx_zone_spec.specs.ZoneMap.{names_of};
ghost use Rattle.vx_zone_record_spec.specs.Held.{has_state};

use std::alloc::{AllocError, Global};
use vx_aggregate::AggregateFn;
use vx_model::DType;

/// Those of the aggregates that have a state on the column's type, in order.
#[tactic(auto, using(crate::proofs::HeldSteps::held_rules))]
pub fn held_aggregates(
    alloc: Global,
    aggregates: &[AggregateFn],
    column: &DType,
) -> Result<Vec<AggregateFn>, AllocError>
    ensures names { IfOk result (λ v. map aggregate_of v.items ≡ names_of (held_aggregates (map aggregate_of aggregates.now) (ty column.now))) }
    ensures columns { IfOk result (λ v. held_aggregates (map aggregate_of v.items) (ty column.now) ≡ held_aggregates (map aggregate_of aggregates.now) (ty column.now)) }
    ensures held { IfOk result (λ v. IsTrue (all_by (has_state (ty column.now)) (map aggregate_of v.items))) }
{
    let mut kept = Vec::with_capacity(alloc, aggregates.len())?;
    for aggregate in aggregates {
        push_held(&mut kept, column, *aggregate)?;
    }
    Ok(kept)
}

#[tactic(auto, using(crate::proofs::HeldSteps::push_rules))]
fn push_held(
    kept: &mut Vec<AggregateFn>,
    column: &DType,
    aggregate: AggregateFn,
) -> Result<(), AllocError>
    ensures { OnOk result (map aggregate_of kept.new.items ≡ map aggregate_of kept.old.items ++
        names_of (with_state (aggregate_of aggregate) (state_type (aggregate_of aggregate) (ty column.now)))) }
{
    let state = aggregate.state_dtype(column)?;
    let is_held = state.is_some();
    drop(state);
    if is_held {
        kept.push(aggregate)?;
    }
    Ok(())
}
