//! The chunk of a table.

ghost use Rattle.std.specs.Prelude.{◌≡◌, ◌++◌, ◌∷◌, [], true, false, map, IfOk, OnOk, IsTrue};
ghost use Rattle.vx_model.specs.Words.{all_by};
ghost use Rattle.vx_model.specs.Ty.{struct, tys_of};
ghost use Rattle.vx_model.specs.ChunkData.{plain_piece};
ghost use Rattle.vx_model.specs.TyView.{ty, field_ty};
ghost use Rattle.vx_aggregate.specs.AggregateView.{aggregate as aggregate_of};
ghost use Rattle.vx_zone_spec.specs.ZoneTable.{state_cell, table_columns, table_piece};
ghost use Rattle.vx_zone_table.specs.Columns.{filled_column};
ghost use Rattle.vx_zone_table.specs.Gathered.{aggregates_in};
ghost use Rattle.vx_zone_table.specs.Parts.{column_fits, column_names, are_whole};

use crate::cells::into_cells;
use crate::column::TableColumn;
use std::alloc::{AllocError, Global};
use vx_aggregate::AggregateFn;
use vx_chunk::Chunk;
use vx_model::{DType, Nullability, StructField, StructFields};

/// The columns of a table, each in three parts.
#[derive(Drop)]
struct TableParts {
    aggregates: Vec<AggregateFn>,
    fields: Vec<StructField>,
    chunks: Vec<Chunk>,
}

/// The table of these columns of so many zones, and their aggregates.
#[tactic(auto, using(crate::proofs::PartSteps::table_rules))]
pub(crate) fn table_of(
    alloc: Global,
    columns: Vec<TableColumn>,
    zones: usize,
) -> Result<(Chunk, Vec<AggregateFn>), AllocError>
    requires { IsTrue (are_whole zones (map filled_column columns.items)) }
    ensures table { IfOk result (λ r. r.0 ≡ table_piece (map filled_column columns.items) zones) }
    ensures aggregates { IfOk result (λ r. map aggregate_of r.1.items ≡ aggregates_in (map filled_column columns.items)) }
{
    let parts = parts_of(alloc, columns)?;
    let TableParts {
        aggregates,
        fields,
        chunks,
    } = parts;
    let dtype = struct_of(fields);
    let table = Chunk::strukt(dtype, chunks, Vec::new(alloc), zones as u64);
    Ok((table, aggregates))
}

#[tactic(auto, using(vx_model::proofs::Views::view_rules))]
fn struct_of(fields: Vec<StructField>) -> DType
    ensures { ty result ≡ struct (tys_of (map field_ty fields.items)) false }
{
    DType::Struct(StructFields { fields }, Nullability::NonNullable)
}

#[tactic(auto, using(crate::proofs::PartSteps::part_rules))]
fn parts_of(alloc: Global, columns: Vec<TableColumn>) -> Result<TableParts, AllocError>
    requires { IsTrue (all_by column_fits (map filled_column columns.items)) }
    ensures aggregates { IfOk result (λ p. map aggregate_of p.aggregates.items ≡ aggregates_in (map filled_column columns.items)) }
    ensures fields { IfOk result (λ p. map field_ty p.fields.items ≡ column_names (map filled_column columns.items)) }
    ensures chunks { IfOk result (λ p. p.chunks.items ≡ table_columns (map filled_column columns.items)) }
{
    let aggregates = Vec::with_capacity(alloc, columns.len())?;
    let fields = Vec::with_capacity(alloc, columns.len())?;
    let chunks = Vec::with_capacity(alloc, columns.len())?;
    let mut parts = TableParts {
        aggregates,
        fields,
        chunks,
    };
    for column in columns {
        push_column(&mut parts, column)?;
    }
    Ok(parts)
}

#[tactic(auto, using(crate::proofs::PartSteps::push_rules))]
fn push_column(parts: &mut TableParts, column: TableColumn) -> Result<(), AllocError>
    requires { IsTrue (column_fits (filled_column column)) }
    ensures aggregates { OnOk result (map aggregate_of parts.new.aggregates.items ≡ map aggregate_of parts.old.aggregates.items ++ aggregates_in (filled_column column ∷ [])) }
    ensures fields { OnOk result (map field_ty parts.new.fields.items ≡ map field_ty parts.old.fields.items ++ column_names (filled_column column ∷ [])) }
    ensures chunks { OnOk result (parts.new.chunks.items ≡ parts.old.chunks.items ++ table_columns (filled_column column ∷ [])) }
{
    let TableColumn {
        aggregate,
        name,
        state,
        values,
    } = column;
    let cells = into_cells(values)?;
    let dtype = state.clone()?;
    parts.chunks.push(Chunk::plain(state, cells))?;
    parts.fields.push(StructField { name, dtype })?;
    parts.aggregates.push(aggregate)?;
    Ok(())
}
