//! Zone maps.

ghost use Rattle.std.specs.Prelude.{◌≡◌, length, map, true, IfOk, IfErr};
ghost use Rattle.vx_model.specs.TyView.{ty};
ghost use Rattle.vx_model.specs.ChunkData.{piece_type, cells as cells_in};
ghost use Rattle.vx_aggregate_spec.specs.Aggregate.{held_aggregates};
ghost use Rattle.vx_aggregate_spec.specs.Tables.{stats_table};
ghost use Rattle.vx_aggregate.specs.AggregateView.{aggregate as aggregate_of};
ghost use Rattle.vx_zone_spec.specs.ZoneMap.{names_of, zones_fit};
ghost use Rattle.vx_zone_map.specs.Columns.{name_in};
ghost use Rattle.vx_zone_map.specs.Answers.{RefusesTable};

use crate::columns::{ZoneColumn, columns_of};
use crate::counts::{rows_at, zones_fit};
use crate::error::ZoneError;
use crate::predicate::{Predicate, fits};
use crate::rule::rules_out;
use crate::zone::Zone;
use std::alloc::Global;
use vx_aggregate::{AggregateFn, aggregate_stats_table_dtype};
use vx_chunk::Chunk;
use vx_model::DType;

/// The zone table of a column as a reader has it. Contracts see the column's type, the aggregates that it was made
/// with, the zone length, the column's rows and the table's rows.
#[derive(Debug, Drop)]
pub struct ZoneMap {
    pub(crate) dtype: DType,
    pub(crate) aggregates: Vec<AggregateFn>,
    /// Of those of the aggregates that the type can hold.
    pub(crate) columns: Vec<ZoneColumn>,
    pub(crate) zone_len: u64,
    pub(crate) row_count: u64,
    pub(crate) zones: u64,
    ghost names: { map name_in columns.items ≡ names_of (held_aggregates (map aggregate_of aggregates.items) (ty dtype)) },
}

impl ZoneMap {
    ghost use Rattle.std.specs.Prelude.{◌≡◌, true, map, IsTrue, IfOk, IfErr};
    ghost use Rattle.vx_hash.specs.XxHash3.{xxhash3_64};
    ghost use Rattle.vx_model.specs.TyView.{ty};
    ghost use Rattle.vx_model.specs.ChunkData.{row_values};
    ghost use Rattle.vx_aggregate.specs.AggregateView.{aggregate as aggregate_of};
    ghost use Rattle.vx_zone_spec.specs.Pruning.{predicate_fits};
    ghost use Rattle.vx_zone_spec.specs.ZoneMap.{skips};
    ghost use Rattle.vx_zone_map.specs.PredicateView.{predicate_data};
    ghost use Rattle.vx_zone_map.specs.MapView.{zone_map};
    ghost use Rattle.vx_zone_map.specs.Answers.{TakesTable, RefusesTable, RefusesPredicate, NoneMatches};

    /// The zone map of a column of so many rows, from a table of the type that `aggregate_stats_table_dtype` says. An
    /// aggregate that the column's type can't hold has no column in it. Looks at each cell of the table once, and moves
    /// the cells of a struct chunk of plain columns; those of other chunks are copied. The order of the refusals: the
    /// table's type, then the rows.
    pub fn try_new(
        alloc: Global,
        column_dtype: DType,
        table: Chunk,
        aggregate_fns: Vec<AggregateFn>,
        zone_len: u64,
        row_count: u64,
    ) -> Result<ZoneMap, ZoneError>
        ensures map { IfOk result (λ m. zone_map m ≡ record {
          column = ty column_dtype;
          aggregates = map aggregate_of aggregate_fns.items;
          zone_len = zone_len;
          row_count = row_count;
          zones = row_values table;
        }) }
        ensures taken { IfOk result (λ m. TakesTable (ty column_dtype) (map aggregate_of aggregate_fns.items) table zone_len row_count) }
        ensures refused { IfErr result (RefusesTable (ty column_dtype) (map aggregate_of aggregate_fns.items) table zone_len row_count) }
    {
        let zones = table.len();
        let checked = check(
            alloc,
            &column_dtype,
            &table,
            &aggregate_fns,
            zone_len,
            row_count,
        );
        if let Err(error) = checked {
            drop(table);
            drop(column_dtype);
            return Err(error);
        }
        let Ok(columns) = columns_of(alloc, &column_dtype, table, &aggregate_fns) else {
            drop(column_dtype);
            return Err(ZoneError::OutOfMemory);
        };
        Ok(ZoneMap {
            dtype: column_dtype,
            aggregates: aggregate_fns,
            columns,
            zone_len,
            row_count,
            zones,
        })
    }

    /// Of each zone whether it can be skipped: exactly where its record rules the predicate out. Asks memory for the
    /// answer alone: literals are compared where they stand, and a stored filter is read in place, one block of it. For
    /// each zone takes time by the predicate's comparisons and the table's columns; a literal is hashed once for each
    /// filter that bounds leave to tell.
    #[tactic(auto, using(crate::proofs::PruneSteps::prune_rules))]
    pub fn prune(&self, alloc: Global, predicate: &Predicate) -> Result<Vec<bool>, ZoneError>
        ensures zones { IfOk result (λ v. v.items ≡ skips xxhash3_64 (zone_map self.now) (predicate_data predicate.now)) }
        ensures sound { IfOk result (λ v. NoneMatches (zone_map self.now) (predicate_data predicate.now) v.items) }
        ensures fits { IfOk result (λ v. IsTrue (predicate_fits (zone_map self.now).column (predicate_data predicate.now))) }
        ensures refused { IfErr result (RefusesPredicate (zone_map self.now).column (predicate_data predicate.now)) }
    {
        if !fits(predicate, &self.dtype) {
            return Err(ZoneError::PredicateType);
        }
        let columns = self.columns.as_slice();
        let mut skips = Vec::with_capacity(alloc, self.zones as usize)?;
        for place in 0..self.zones {
            let rows = rows_at(self.zone_len, self.row_count, self.zones, place);
            let zone = Zone {
                dtype: &self.dtype,
                columns,
                place: place as usize,
                rows,
            };
            let skipped = rules_out(predicate, false, zone);
            skips.push(skipped)?;
        }
        Ok(skips)
    }
}

/// Whether the table is one of the column and the aggregates, and its zones but the last lie within the rows.
#[tactic(auto, using(crate::proofs::TypeSteps::type_rules))]
fn check(
    alloc: Global,
    column: &DType,
    table: &Chunk,
    aggregates: &[AggregateFn],
    zone_len: u64,
    row_count: u64,
) -> Result<(), ZoneError>
    ensures typed { IfOk result (λ _. piece_type table.now ≡ stats_table (ty column.now) (map aggregate_of aggregates.now)) }
    ensures rows { IfOk result (λ _. zones_fit zone_len row_count (length (cells_in table.now)) ≡ true) }
    ensures refused { IfErr result (RefusesTable (ty column.now) (map aggregate_of aggregates.now) table.now zone_len row_count) }
{
    let dtype = aggregate_stats_table_dtype(alloc, column, aggregates)?;
    let same = *table.dtype() == dtype;
    drop(dtype);
    if !same {
        return Err(ZoneError::TableType);
    }
    if !zones_fit(zone_len, row_count, table.len()) {
        return Err(ZoneError::ZoneRows);
    }
    Ok(())
}
