//! Tables of statistics of the old form.

ghost use Rattle.std.specs.Prelude.{◌≡◌, ◌++◌, [], length, drop, map, option_map, option_to_list, IsTrue, IfOk, IfErr, OnOk};
ghost use Rattle.std.specs.Vec.Iter.{into_iter_items};
ghost use Rattle.vx_model.specs.TyView.{ty};
ghost use Rattle.vx_model.specs.ChunkData.{piece_type, struct_piece, pieces_of};
ghost use Rattle.vx_chunk.specs.Conditions.{makes_struct};
ghost use Rattle.vx_aggregate_spec.specs.Tables.{stats_table};
ghost use Rattle.vx_aggregate.specs.AggregateView.{aggregate as aggregate_of};
ghost use Rattle.vx_aggregate.specs.Tables.{legacy_table, stat_fields};
ghost use Rattle.vx_file_stats.specs.Legacy.{held_stat, taken, legacy_aggregates, legacy_columns, legacy_piece};

use crate::keeps::has_values;
use std::alloc::{AllocError, Global};
use std::vec::IntoIter;
use vx_aggregate::{AggregateFn, Stat, aggregate_stats_table_dtype};
use vx_chunk::{Chunk, ChunkError};
use vx_model::DType;

/// A table of statistics of the old form as aggregates and a table of zones: the columns of those statistics that have an
/// aggregate, in their order. A bound that was cut is a bound still, so the flags are left out.
pub fn legacy_stats_to_aggregates(
    alloc: Global,
    column_dtype: &DType,
    table: &Chunk,
    stats: &[Stat],
) -> Result<(Vec<AggregateFn>, Chunk), ChunkError>
    requires { piece_type table.now ≡ legacy_table (ty column_dtype.now) stats.now }
    ensures aggregates { IfOk result (λ r. map aggregate_of r.0.items ≡ legacy_aggregates (ty column_dtype.now) stats.now) }
    ensures table { IfOk result (λ r. r.1 ≡ legacy_piece (ty column_dtype.now) stats.now table.now) }
    ensures memory { IfErr result (λ e. e ≡ ChunkError.OutOfMemory) }
{
    table.sound();
    let fields = table.fields(alloc)?;
    let columns = kept_columns(alloc, column_dtype, stats, fields)?;
    match kept_aggregates(alloc, column_dtype, stats) {
        Ok(aggregates) => table_of(alloc, column_dtype, aggregates, columns, table.len()),
        Err(_) => {
            drop(columns);
            Err(ChunkError::OutOfMemory)
        }
    }
}

/// The table of these columns, and the aggregates.
fn table_of(
    alloc: Global,
    column_dtype: &DType,
    aggregates: Vec<AggregateFn>,
    columns: Vec<Chunk>,
    zones: u64,
) -> Result<(Vec<AggregateFn>, Chunk), ChunkError>
    requires { IsTrue (makes_struct (stats_table (ty column_dtype.now) (map aggregate_of aggregates.items)) columns.items [] zones) }
    ensures aggregates { IfOk result (λ r. r.0.items ≡ aggregates.items) }
    ensures table { IfOk result (λ r. r.1 ≡ struct_piece (stats_table (ty column_dtype.now) (map aggregate_of aggregates.items)) (pieces_of columns.items) [] zones) }
    ensures memory { IfErr result (λ e. e ≡ ChunkError.OutOfMemory) }
{
    match aggregate_stats_table_dtype(alloc, column_dtype, &aggregates) {
        Ok(dtype) => {
            let table = Chunk::strukt(dtype, columns, Vec::new(alloc), zones);
            Ok((aggregates, table))
        }
        Err(_) => {
            drop(columns);
            Err(ChunkError::OutOfMemory)
        }
    }
}

/// The aggregates of the statistics that have one.
#[tactic(auto, using(crate::proofs::LegacySteps::aggregate_rules))]
fn kept_aggregates(
    alloc: Global,
    column_dtype: &DType,
    stats: &[Stat],
) -> Result<Vec<AggregateFn>, AllocError>
    ensures { IfOk result (λ v. map aggregate_of v.items ≡ legacy_aggregates (ty column_dtype.now) stats.now) }
{
    let mut aggregates = Vec::with_capacity(alloc, stats.len())?;
    for stat in stats {
        if let Some(aggregate) = held_aggregate(*stat, column_dtype) {
            aggregates.push(aggregate)?;
        }
    }
    Ok(aggregates)
}

/// The statistic's aggregate, where its values have a type.
#[tactic(auto, using(crate::proofs::LegacySteps::held_rules))]
fn held_aggregate(stat: Stat, column_dtype: &DType) -> Option<AggregateFn>
    ensures { option_to_list (option_map aggregate_of result) ≡ held_stat (ty column_dtype.now) stat }
{
    if has_values(stat, column_dtype) {
        stat.aggregate_fn()
    } else {
        None
    }
}

/// The columns of those statistics.
#[tactic(auto, using(crate::proofs::LegacySteps::column_rules))]
fn kept_columns(
    alloc: Global,
    column_dtype: &DType,
    stats: &[Stat],
    fields: Vec<Chunk>,
) -> Result<Vec<Chunk>, AllocError>
    ensures { IfOk result (λ v. v.items ≡ legacy_columns (ty column_dtype.now) stats.now fields.items) }
{
    let mut columns = Vec::with_capacity(alloc, stats.len())?;
    let mut rest = fields.into_iter();
    for stat in stats {
        push_column(&mut columns, &mut rest, *stat, column_dtype)?;
    }
    Ok(columns)
}

/// The statistic's column, where it is kept, and the fields behind all of it.
#[tactic(auto, using(crate::proofs::LegacySteps::push_rules))]
fn push_column(
    columns: &mut Vec<Chunk>,
    rest: &mut IntoIter<Chunk>,
    stat: Stat,
    column_dtype: &DType,
) -> Result<(), AllocError>
    ensures columns { OnOk result (columns.new.items ≡ columns.old.items ++ taken (held_stat (ty column_dtype.now) stat) (into_iter_items rest.old)) }
    ensures rest { OnOk result (into_iter_items rest.new ≡ drop (length (stat_fields (ty column_dtype.now) stat)) (into_iter_items rest.old)) }
{
    if !has_values(stat, column_dtype) {
        return Ok(());
    }
    let Some(column) = rest.next() else {
        return Ok(());
    };
    match stat {
        Stat::Max => {
            columns.push(column)?;
            skip(rest);
        }
        Stat::Min => {
            columns.push(column)?;
            skip(rest);
        }
        Stat::Sum | Stat::NullCount => columns.push(column)?,
        Stat::UncompressedSizeInBytes => drop(column),
    }
    Ok(())
}

/// Drops the next field.
fn skip(rest: &mut IntoIter<Chunk>)
    ensures { into_iter_items rest.new ≡ drop 1 (into_iter_items rest.old) }
{
    drop(rest.next());
}
