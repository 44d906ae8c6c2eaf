//! Zoned nodes, as they stand before their first chunk.

ghost use Rattle.std.specs.Prelude.{◌≡◌, List, [], map, IsTrue, IfOk, IfErr, OnOk};
ghost use Rattle.std.specs.Arc.{arc_value};
ghost use Rattle.vx_model.specs.TyView.{ty};
ghost use Rattle.vx_aggregate_spec.specs.Aggregate.{held_aggregates as columns_of};
ghost use Rattle.vx_aggregate.specs.AggregateView.{aggregate as aggregate_of};
ghost use Rattle.vx_zone_spec.specs.ZoneMap.{names_of};
ghost use Rattle.vx_sink.specs.ContextView.{allowed_in};
ghost use Rattle.vx_strategy_options.specs.RuleViews.{zone_rule};
ghost use Rattle.vx_turn_laws.specs.Guard.{guard};
ghost use Rattle.vx_zone_table.specs.BuilderView.{gathered};
ghost use Rattle.vx_plan.specs.ZonedNode.{recorded, forbidden_faults};
ghost use Rattle.vx_machine_node.specs.Causes.{StartMay};
ghost use Rattle.vx_machine_fresh.specs.Fresh.{BeginsZones, forbidden_among, ZonesRefused};

use std::alloc::{AllocError, Global};
use std::sync::Arc;
use vx_aggregate::{AggregateFn, default_zoned_aggregate_fns};
use vx_machine_node::ZonedNode;
use vx_model::{DType, Text};
use vx_sequence::SequencePointer;
use vx_sink::LayoutWriterContext;
use vx_strategy::ZonedStrategy;
use vx_write_answer::WriteError;
use vx_zone_guard::ZoneGuard;
use vx_zone_record::held_aggregates;
use vx_zone_table::ZoneTableBuilder;

/// What is recorded of a column: of what is asked for, or else of the defaults, what its type can hold.
fn recorded(
    alloc: Global,
    zoned: &ZonedStrategy,
    dtype: &DType,
) -> Result<Vec<AggregateFn>, AllocError>
    ensures columns { IfOk result (λ v. columns_of (map aggregate_of v.items) (ty dtype.now) ≡ recorded (zone_rule zoned.now.rule) (ty dtype.now)) }
    ensures names { IfOk result (λ v. map aggregate_of v.items ≡ names_of (recorded (zone_rule zoned.now.rule) (ty dtype.now))) }
{
    match zoned.aggregates() {
        Some(asked) => held_aggregates(alloc, asked, dtype),
        None => {
            let asked = default_zoned_aggregate_fns(alloc, dtype)?;
            held_aggregates(alloc, &asked, dtype)
        }
    }
}

/// Refuses the first one that isn't allowed.
fn all_allowed(
    alloc: Global,
    ctx: &LayoutWriterContext,
    aggregates: &[AggregateFn],
) -> Result<(), WriteError>
    ensures allowed { OnOk result (forbidden_among (allowed_in ctx.now) (map aggregate_of aggregates.now) ≡ []) }
    ensures refused { IfErr result (ZonesRefused (forbidden_among (allowed_in ctx.now) (map aggregate_of aggregates.now))) }
    ensures cause { IfErr result StartMay }
{
    'aggregates: for aggregate in aggregates {
        if !ctx.allows_aggregate(aggregate.id()) {
            let id = String::from_str(alloc, aggregate.id())?;
            return Err(WriteError::ForbiddenAggregate(Text::from(id)));
        }
    }
    Ok(())
}

/// What records a column, and what gathers the records.
fn zone_parts(
    alloc: Global,
    ctx: &LayoutWriterContext,
    zoned: &ZonedStrategy,
    dtype: &DType,
) -> Result<(ZoneGuard, ZoneTableBuilder), WriteError>
    ensures guard { IfOk result (λ r. (r.0.typed ≡ ty dtype.now) × (r.0.zone_len ≡ (zone_rule zoned.now.rule).zone_len) × (r.0.columns ≡ recorded (zone_rule zoned.now.rule) (ty dtype.now)) × (r.0.last ≡ r.0.zone_len)) }
    ensures records { IfOk result (λ r. gathered r.1 ≡ record { columns = recorded (zone_rule zoned.now.rule) (ty dtype.now); records = [] }) }
    ensures allowed { OnOk result (forbidden_faults (allowed_in ctx.now) (recorded (zone_rule zoned.now.rule) (ty dtype.now)) ≡ []) }
    ensures refused { IfErr result (ZonesRefused (forbidden_faults (allowed_in ctx.now) (recorded (zone_rule zoned.now.rule) (ty dtype.now)))) }
    ensures cause { IfErr result StartMay }
{
    let aggregates = recorded(alloc, zoned, dtype)?;
    all_allowed(alloc, ctx, &aggregates)?;
    let records = ZoneTableBuilder::new(alloc, dtype, &aggregates)?;
    match guard_of(alloc, zoned, aggregates, dtype) {
        Ok(guard) => Ok((guard, records)),
        Err(_) => {
            drop(records);
            Err(WriteError::OutOfMemory)
        }
    }
}

fn guard_of(
    alloc: Global,
    zoned: &ZonedStrategy,
    aggregates: Vec<AggregateFn>,
    dtype: &DType,
) -> Result<ZoneGuard, AllocError>
    ensures { IfOk result (λ g. g ≡ guard (zone_rule zoned.now.rule).zone_len (map aggregate_of aggregates.items) (ty dtype.now)) }
{
    let Ok(copy) = dtype.clone() else {
        drop(aggregates);
        return Err(AllocError);
    };
    match ZoneGuard::new(alloc, zoned.zone_len(), aggregates, copy) {
        Ok(guard) => Ok(guard),
        Err(_) => Err(AllocError),
    }
}

/// A node that has recorded nothing.
pub fn zones_node(
    alloc: Global,
    ctx: &LayoutWriterContext,
    zoned: &ZonedStrategy,
    dtype: Arc<DType>,
    eof: SequencePointer,
) -> Result<ZonedNode, (WriteError, SequencePointer)>
    ensures node { IfOk result (λ n. (n.dtype ≡ dtype) × (n.eof ≡ eof)) }
    ensures begins { IfOk result (BeginsZones (allowed_in ctx.now) zoned.now) }
    ensures refused { IfErr result (λ r. (r.1 ≡ eof) × ZonesRefused (forbidden_faults (allowed_in ctx.now) (recorded (zone_rule zoned.now.rule) (ty (arc_value dtype)))) r.0) }
    ensures cause { IfErr result (λ r. StartMay r.0) }
{
    let Ok(stats) = zoned.stats().clone() else {
        drop(dtype);
        return Err((WriteError::OutOfMemory, eof));
    };
    match zone_parts(alloc, ctx, zoned, &dtype) {
        Ok((guard, records)) => Ok(ZonedNode {
            dtype,
            zone_len: zoned.zone_len(),
            guard,
            records,
            stats,
            eof,
            rows: 0,
        }),
        Err(error) => {
            drop((dtype, stats));
            Err((error, eof))
        }
    }
}
