//! The table of the records of zones.

ghost use Rattle.std.specs.Prelude.{◌≡◌, map, IfOk, OnOk, IsTrue};
ghost use Rattle.vx_model.specs.TyView.{ty};
ghost use Rattle.vx_model.specs.TreeView.{val};
ghost use Rattle.vx_aggregate_spec.specs.Aggregate.{held_aggregates as columns_held};
ghost use Rattle.vx_aggregate.specs.AggregateView.{aggregate as aggregate_of};
ghost use Rattle.vx_zone_record_spec.specs.Held.{record_fits};
ghost use Rattle.vx_zone_table.specs.BuilderView.{gathered};

use crate::maps::tell_map;
use anyhow::bail;
use serde_json::Value as Json;
use std::alloc::Global;
use vx_aggregate::AggregateFn;
use vx_case_lines::Answer;
use vx_case_objects::{Case, aggregates_in, list_in};
use vx_chunk_json::read_batch;
use vx_model::{Cell, DType, Value, fits};
use vx_zone_record::{cells_record, held_aggregates};
use vx_zone_table::ZoneTableBuilder;

/// A zone's rows and its record.
#[derive(Drop)]
struct BatchRecord {
    rows: u64,
    values: Vec<Value>,
}

/// Of the table of the batches' records.
pub(crate) fn tell(alloc: Global, answer: &mut Answer, case: Case) {
    match aggregates_in(alloc, case.object, case.dtype) {
        Ok(aggregates) => {
            tell_of(alloc, answer, case, &aggregates);
            drop(aggregates);
        }
        Err(error) => answer.push_refusal(case.name, error),
    }
}

fn tell_of(alloc: Global, answer: &mut Answer, case: Case, aggregates: &[AggregateFn]) {
    match ZoneTableBuilder::new(alloc, case.dtype, aggregates) {
        Ok(builder) => tell_zones(alloc, answer, case, aggregates, builder),
        Err(error) => answer.push_refusal(case.name, error),
    }
}

fn tell_zones(
    alloc: Global,
    answer: &mut Answer,
    case: Case,
    aggregates: &[AggregateFn],
    mut builder: ZoneTableBuilder,
)
    requires { (gathered builder).columns ≡ columns_held (map aggregate_of aggregates.now) (ty case.dtype.now) }
{
    match push_zones(alloc, &mut builder, case, aggregates) {
        Ok(rows) => match builder.finish(alloc) {
            Ok(Some((table, kept))) => tell_map(alloc, answer, case, table, kept, rows),
            Ok(None) => write!(answer, "{}: no table\n", case.name),
            Err(error) => answer.push_refusal(case.name, error),
        },
        Err(error) => {
            drop(builder);
            answer.push_refusal(case.name, error);
        }
    }
}

/// The builder takes the record of each batch. Gives the rows of all.
fn push_zones(
    alloc: Global,
    builder: &mut ZoneTableBuilder,
    case: Case,
    aggregates: &[AggregateFn],
) -> anyhow::Result<u64>
    requires { (gathered builder.old).columns ≡ columns_held (map aggregate_of aggregates.now) (ty case.dtype.now) }
{
    let batches = list_in(case.object, "batches")?;
    let mut rows = 0;
    for batch in batches {
        rows = push_zone(alloc, builder, case.dtype, aggregates, batch, rows)?;
    }
    Ok(rows)
}

/// The builder takes the batch's record. Gives the rows with those of the batch.
fn push_zone(
    alloc: Global,
    builder: &mut ZoneTableBuilder,
    dtype: &DType,
    aggregates: &[AggregateFn],
    batch: &Json,
    rows: u64,
) -> anyhow::Result<u64>
    requires { (gathered builder.old).columns ≡ columns_held (map aggregate_of aggregates.now) (ty dtype.now) }
    ensures { OnOk result ((gathered builder.new).columns ≡ (gathered builder.old).columns) }
{
    let zone = read_zone(alloc, dtype, aggregates, batch)?;
    let BatchRecord { rows: more, values } = zone;
    builder.push(values)?;
    Ok(rows.saturating_add(more))
}

fn read_zone(
    alloc: Global,
    dtype: &DType,
    aggregates: &[AggregateFn],
    batch: &Json,
) -> anyhow::Result<BatchRecord>
    ensures { IfOk result (λ z. IsTrue (record_fits (columns_held (map aggregate_of aggregates.now) (ty dtype.now)) (map val z.values.items))) }
{
    let chunk = read_batch(alloc, dtype, batch)?;
    let cells = chunk.into_cells(alloc)?;
    let told = zone_of(alloc, dtype, aggregates, &cells);
    drop(cells);
    told
}

fn zone_of(
    alloc: Global,
    dtype: &DType,
    aggregates: &[AggregateFn],
    cells: &[Cell],
) -> anyhow::Result<BatchRecord>
    ensures { IfOk result (λ z. IsTrue (record_fits (columns_held (map aggregate_of aggregates.now) (ty dtype.now)) (map val z.values.items))) }
{
    if !fits(dtype, cells) {
        bail!("a batch of another type");
    }
    let held = held_aggregates(alloc, aggregates, dtype)?;
    let values = cells_record(alloc, &held, dtype, cells)?;
    let rows = cells.len() as u64;
    Ok(BatchRecord { rows, values })
}
