//! The columns of a zone table.

ghost use Rattle.std.specs.Prelude.{◌≡◌, length, map, IsTrue, IfOk, IfErr};
ghost use Rattle.vx_model.specs.TyView.{ty};
ghost use Rattle.vx_model.specs.ChunkData.{piece_type, cells as cells_in, row_values};
ghost use Rattle.vx_layout_spec.specs.Rows.{zipped};
ghost use Rattle.vx_aggregate_spec.specs.Aggregate.{held_aggregates as columns_held};
ghost use Rattle.vx_aggregate_spec.specs.Tables.{stats_table};
ghost use Rattle.vx_aggregate.specs.AggregateView.{aggregate as aggregate_of};
ghost use Rattle.vx_zone_spec.specs.ZoneMap.{names_of};
ghost use Rattle.vx_zone_record.specs.Scalars.{scalar_value, shallow};
ghost use Rattle.vx_zone_map.specs.Columns.{name_in, seen_values, value_at, column_cells};

use crate::error::ZoneError;
use std::alloc::Global;
use vx_aggregate::AggregateFn;
use vx_chunk::Chunk;
use vx_model::{Cell, DType};
use vx_zone_record::{Row, Scalar, held_aggregates};

/// An aggregate's values, one a zone.
#[derive(Debug, Drop)]
pub(crate) struct ZoneColumn {
    pub(crate) aggregate: AggregateFn,
    pub(crate) cells: Vec<Cell>,
}

/// The value at the place; null past the end.
#[tactic(auto, using(crate::proofs::ColumnSteps::value_rules))]
pub(crate) fn scalar_at(column: &ZoneColumn, place: usize) -> Scalar<'_>
    ensures { scalar_value result ≡ shallow (value_at place (seen_values column.now)) }
{
    if place < column.cells.len() {
        column.cells[place].scalar()
    } else {
        Scalar::Null
    }
}

/// The columns of the table: those of the aggregates that the column's type can hold, in their order. Moves the cells
/// of fields that are plain chunks; others are copied.
#[tactic(auto, using(crate::proofs::TableRows::table_rules))]
pub(crate) fn columns_of(
    alloc: Global,
    column: &DType,
    table: Chunk,
    aggregates: &[AggregateFn],
) -> Result<Vec<ZoneColumn>, ZoneError>
    requires { piece_type table ≡ stats_table (ty column.now) (map aggregate_of aggregates.now) }
    ensures names { IfOk result (λ v. map name_in v.items ≡ names_of (columns_held (map aggregate_of aggregates.now) (ty column.now))) }
    ensures rows { IfOk result (λ v. zipped (length (cells_in table)) (map seen_values v.items) ≡ row_values table) }
    ensures memory { IfErr result (λ e. e ≡ ZoneError.OutOfMemory) }
{
    table.whole();
    let Ok(held) = held_aggregates(alloc, aggregates, column) else {
        drop(table);
        return Err(ZoneError::OutOfMemory);
    };
    let Ok(fields) = table.into_fields(alloc) else {
        return Err(ZoneError::OutOfMemory);
    };
    with_names(alloc, &held, fields)
}

/// Each field's cells with the name at its place.
#[tactic(auto, using(crate::proofs::ColumnSteps::column_rules))]
fn with_names(
    alloc: Global,
    aggregates: &[AggregateFn],
    fields: Vec<Chunk>,
) -> Result<Vec<ZoneColumn>, ZoneError>
    requires { length aggregates.now ≡ length fields.items }
    ensures names { IfOk result (λ v. map name_in v.items ≡ map aggregate_of aggregates.now) }
    ensures cells { IfOk result (λ v. map column_cells v.items ≡ map cells_in fields.items) }
    ensures memory { IfErr result (λ e. e ≡ ZoneError.OutOfMemory) }
{
    let mut columns = Vec::with_capacity(alloc, fields.len())?;
    let mut place = 0;
    for field in fields {
        let aggregate = aggregates[place];
        let Ok(cells) = field.into_cells(alloc) else {
            return Err(ZoneError::OutOfMemory);
        };
        columns.push(ZoneColumn { aggregate, cells })?;
        place += 1;
    }
    Ok(columns)
}
