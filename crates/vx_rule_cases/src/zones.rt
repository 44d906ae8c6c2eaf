//! Records of zones, and the table of them.

ghost use Rattle.std.specs.Prelude.{◌≡◌, map, IfOk, IfSome, OnOk, IsTrue};
ghost use Rattle.vx_model.specs.TyView.{ty};
ghost use Rattle.vx_model.specs.TreeView.{val};
ghost use Rattle.vx_aggregate_spec.specs.Aggregate.{held_aggregates};
ghost use Rattle.vx_aggregate.specs.AggregateView.{aggregate as aggregate_of};
ghost use Rattle.vx_zone_record_spec.specs.Held.{record_fits};
ghost use Rattle.vx_zone_table.specs.BuilderView.{gathered};

use crate::given::Stream;
use crate::lines::{of_type, tell_lines};
use crate::shown::push_chunk;
use anyhow::{Context, Error};
use serde_json::Value as Json;
use std::alloc::{AllocError, Global};
use std::num::NonZeroU32;
use vx_aggregate::AggregateFn;
use vx_case_lines::Answer;
use vx_case_objects::{Case, aggregates_in, push_values};
use vx_chunk::Chunk;
use vx_chunk_json::read_batch;
use vx_model::{DType, Value};
use vx_nodes::{NodeError, ZoneGuard};
use vx_zone_table::ZoneTableBuilder;

/// Of the words `zones` and `guard`; where a batch is refused, the last line says why.
pub(crate) fn tell(alloc: Global, answer: &mut Answer, case: Case, stream: Stream) {
    match aggregates_in(alloc, case.object, case.dtype) {
        Ok(aggregates) => {
            let told = tell_zones(alloc, answer, case, &aggregates, stream);
            drop(aggregates);
            if let Err(error) = told {
                answer.push_refusal(case.name, error);
            }
        }
        Err(error) => answer.push_refusal(case.name, error),
    }
}

/// A line a chunk and one a record, as the guard gives them as a rule; or a line a record, and the table.
fn tell_zones(
    alloc: Global,
    answer: &mut Answer,
    case: Case,
    aggregates: &[AggregateFn],
    stream: Stream,
) -> anyhow::Result<()> {
    let rows = NonZeroU32::new(case.given.parse::<u32>()?).context("no rows")?;
    let guard = guard_of(alloc, rows, aggregates, stream.dtype)?;
    if case.word == "guard" {
        tell_lines(alloc, answer, guard, stream);
        return Ok(());
    }
    tell_guarded(alloc, answer, guard, aggregates, stream)
}

fn guard_of(
    alloc: Global,
    rows: NonZeroU32,
    aggregates: &[AggregateFn],
    dtype: &DType,
) -> Result<ZoneGuard, NodeError>
    ensures typed { IfOk result (λ g. g.typed ≡ ty dtype.now) }
    ensures columns { IfOk result (λ g. g.columns ≡ held_aggregates (map aggregate_of aggregates.now) (ty dtype.now)) }
{
    let listed = Vec::from_slice(alloc, aggregates)?;
    Ok(ZoneGuard::new(alloc, rows, listed, dtype.clone()?)?)
}

fn tell_guarded(
    alloc: Global,
    answer: &mut Answer,
    guard: ZoneGuard,
    aggregates: &[AggregateFn],
    stream: Stream,
) -> anyhow::Result<()>
    requires typed { guard.typed ≡ ty stream.dtype.now }
    requires columns { guard.columns ≡ held_aggregates (map aggregate_of aggregates.now) (ty stream.dtype.now) }
{
    match ZoneTableBuilder::new(alloc, stream.dtype, aggregates) {
        Ok(builder) => tell_all(alloc, answer, guard, builder, stream),
        Err(error) => {
            drop(guard);
            Err(Error::from(error))
        }
    }
}

fn tell_all(
    alloc: Global,
    answer: &mut Answer,
    mut guard: ZoneGuard,
    mut builder: ZoneTableBuilder,
    stream: Stream,
) -> anyhow::Result<()>
    requires typed { guard.typed ≡ ty stream.dtype.now }
    requires columns { (gathered builder).columns ≡ guard.columns }
{
    let pushed = push_records(alloc, answer, &mut guard, &mut builder, stream);
    drop(guard);
    match pushed {
        Ok(()) => {
            match builder.finish(alloc) {
                Ok(Some((table, aggregates))) => {
                    push_columns(alloc, answer, stream.name, &table, &aggregates);
                    drop(aggregates);
                    drop(table);
                }
                Ok(None) => write!(answer, "{}: no table\n", stream.name),
                Err(error) => answer.push_refusal(stream.name, error),
            }
            Ok(())
        }
        Err(error) => {
            drop(builder);
            Err(error)
        }
    }
}

/// A line of each record, which the builder takes.
fn push_records(
    alloc: Global,
    answer: &mut Answer,
    guard: &mut ZoneGuard,
    builder: &mut ZoneTableBuilder,
    stream: Stream,
) -> anyhow::Result<()>
    requires typed { guard.old.typed ≡ ty stream.dtype.now }
    requires columns { (gathered builder.old).columns ≡ guard.old.columns }
{
    for i in 0..stream.batches.len() {
        let record = record_of(alloc, guard, stream.dtype, &stream.batches[i])?;
        push_zone(answer, builder, stream.name, i, record)?;
    }
    Ok(())
}

/// The record of the batch.
fn record_of(
    alloc: Global,
    guard: &mut ZoneGuard,
    dtype: &DType,
    batch: &Json,
) -> anyhow::Result<Option<Vec<Value>>>
    requires { guard.old.typed ≡ ty dtype.now }
    ensures typed { OnOk result (guard.new.typed ≡ guard.old.typed) }
    ensures columns { OnOk result (guard.new.columns ≡ guard.old.columns) }
    ensures fits { IfOk result (λ z. IfSome z (λ v. IsTrue (record_fits guard.old.columns (map val v.items)))) }
{
    let chunk = of_type(dtype, read_batch(alloc, dtype, batch)?)?;
    match guard.react(alloc, &chunk) {
        Ok(record) => {
            drop(chunk);
            Ok(record)
        }
        Err(error) => {
            drop(chunk);
            Err(Error::from(error))
        }
    }
}

fn push_zone(
    answer: &mut Answer,
    builder: &mut ZoneTableBuilder,
    name: &str,
    batch: usize,
    zone: Option<Vec<Value>>,
) -> Result<(), AllocError>
    requires { IfSome zone (λ v. IsTrue (record_fits (gathered builder.old).columns (map val v.items))) }
    ensures { OnOk result ((gathered builder.new).columns ≡ (gathered builder.old).columns) }
{
    match zone {
        Some(values) => push_record(answer, builder, name, batch, values),
        None => {
            write!(answer, "{name} {batch}: no record\n");
            Ok(())
        }
    }
}

fn push_record(
    answer: &mut Answer,
    builder: &mut ZoneTableBuilder,
    name: &str,
    batch: usize,
    values: Vec<Value>,
) -> Result<(), AllocError>
    requires { IsTrue (record_fits (gathered builder.old).columns (map val values.items)) }
    ensures { OnOk result ((gathered builder.new).columns ≡ (gathered builder.old).columns) }
{
    write!(answer, "{name} {batch}: ");
    push_values(answer, &values);
    answer.push_str("\n");
    builder.push(values)
}

/// A line of the table, and the aggregates of its columns.
fn push_columns(
    alloc: Global,
    answer: &mut Answer,
    name: &str,
    table: &Chunk,
    aggregates: &[AggregateFn],
) {
    write!(answer, "{name}: ");
    push_chunk(alloc, answer, table);
    for aggregate in aggregates {
        write!(answer, " {aggregate}");
    }
    answer.push_str("\n");
}
