//! The columns that a table can have.

ghost use Rattle.std.specs.Prelude.{◌≡◌, ◌++◌, map, IfOk, OnOk};
ghost use Rattle.vx_model.specs.TyView.{ty};
ghost use Rattle.vx_aggregate_spec.specs.Aggregate.{held_aggregates, state_type, with_state};
ghost use Rattle.vx_aggregate.specs.AggregateView.{aggregate as aggregate_of};
ghost use Rattle.vx_zone_table.specs.Columns.{held_column};

use std::alloc::{AllocError, Global};
use vx_aggregate::AggregateFn;
use vx_model::DType;

/// An aggregate that the column can hold, with the type of its values.
#[derive(Drop)]
pub(crate) struct HeldColumn {
    pub(crate) aggregate: AggregateFn,
    pub(crate) state: DType,
}

/// Those of the aggregates that have a state on the column's type, in order.
#[tactic(auto, using(crate::proofs::HeldSteps::held_rules))]
pub(crate) fn held_columns(
    alloc: Global,
    column: &DType,
    aggregates: &[AggregateFn],
) -> Result<Vec<HeldColumn>, AllocError>
    ensures { IfOk result (λ v. map held_column v.items ≡ held_aggregates (map aggregate_of aggregates.now) (ty column.now)) }
{
    let mut columns = Vec::with_capacity(alloc, aggregates.len())?;
    for aggregate in aggregates {
        push_held(&mut columns, column, *aggregate)?;
    }
    Ok(columns)
}

#[tactic(auto, using(crate::proofs::HeldSteps::held_rules))]
fn push_held(
    columns: &mut Vec<HeldColumn>,
    column: &DType,
    aggregate: AggregateFn,
) -> Result<(), AllocError>
    ensures { OnOk result (map held_column columns.new.items ≡ map held_column columns.old.items ++
        with_state (aggregate_of aggregate) (state_type (aggregate_of aggregate) (ty column.now))) }
{
    if let Some(state) = aggregate.state_dtype(column)? {
        columns.push(HeldColumn { aggregate, state })?;
    }
    Ok(())
}
