//! What is gathered of a batch, column by column.

ghost use Rattle.std.specs.Prelude.{◌≡◌, map, IfOk};
ghost use Rattle.vx_model.specs.Ty.{tys_of};
ghost use Rattle.vx_model.specs.TyView.{ty, field_ty};
ghost use Rattle.vx_file_stats.specs.FileStats.{column_types, column_pieces, types_in};
ghost use Rattle.vx_file_stats.specs.Gathering.{column_data, no_column, with_pieces};

use crate::column::{ColumnStats, no_column, with_piece};
use std::alloc::{AllocError, Global};
use std::slice;
use vx_aggregate::Stat;
use vx_chunk::{Chunk, Node};
use vx_model::{DType, StructField};

/// The columns of the type, before the first batch.
#[tactic(auto, using(crate::proofs::ColumnSteps::type_rules))]
pub(crate) fn no_columns(alloc: Global, dtype: &DType) -> Result<Vec<ColumnStats>, AllocError>
    ensures { IfOk result (λ v. map column_data v.items ≡ map no_column (column_types (ty dtype.now))) }
{
    if let Some(fields) = dtype.as_struct() {
        return no_fields(alloc, fields);
    }
    let mut columns = Vec::with_capacity(alloc, 1)?;
    columns.push(no_column(dtype.clone()?))?;
    Ok(columns)
}

#[tactic(auto, using(crate::proofs::ColumnSteps::field_rules))]
fn no_fields(alloc: Global, fields: &[StructField]) -> Result<Vec<ColumnStats>, AllocError>
    ensures { IfOk result (λ v. map column_data v.items ≡ map no_column (types_in (tys_of (map field_ty fields.now)))) }
{
    let mut columns = Vec::with_capacity(alloc, fields.len())?;
    for field in fields {
        columns.push(no_column(field.dtype.clone()?))?;
    }
    Ok(columns)
}

/// The columns with one batch more. The fields of a batch that is held as a struct are looked at where they are; those
/// of another are copied into columns.
#[tactic(auto, using(crate::proofs::ColumnSteps::batch_rules))]
pub(crate) fn with_batch(
    alloc: Global,
    asked: &[Stat],
    limit: u64,
    batch: &Chunk,
    before: Vec<ColumnStats>,
) -> Result<Vec<ColumnStats>, AllocError>
    ensures { IfOk result (λ v. map column_data v.items ≡ with_pieces asked.now limit (map column_data before.items) (column_pieces batch.now)) }
{
    if !batch.dtype().is_struct() {
        return with_pieces(alloc, asked, limit, slice::from_ref(batch), before);
    }
    if let Node::Struct { fields, .. } = batch.node() {
        return with_pieces(alloc, asked, limit, fields, before);
    }
    let Ok(fields) = batch.fields(alloc) else {
        drop(before);
        return Err(AllocError);
    };
    let columns = with_pieces(alloc, asked, limit, &fields, before);
    drop(fields);
    columns
}

/// The columns with a piece more of each.
#[tactic(auto, using(crate::proofs::ColumnSteps::piece_rules))]
fn with_pieces(
    alloc: Global,
    asked: &[Stat],
    limit: u64,
    pieces: &[Chunk],
    before: Vec<ColumnStats>,
) -> Result<Vec<ColumnStats>, AllocError>
    ensures { IfOk result (λ v. map column_data v.items ≡ with_pieces asked.now limit (map column_data before.items) pieces.now) }
{
    let mut columns = Vec::with_capacity(alloc, before.len())?;
    let mut i = 0;
    for column in before {
        if i < pieces.len() {
            columns.push(with_piece(alloc, asked, limit, &pieces[i], column)?)?;
            i += 1;
        } else {
            drop(column);
        }
    }
    Ok(columns)
}
