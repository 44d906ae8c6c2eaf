//! The columns of all batches.

ghost use Rattle.std.specs.Prelude.{◌≡◌, [], map, length, All, None, IsTrue, IfOk, IfErr, OnOk};
ghost use Rattle.vx_model.specs.Ty.{is_struct};
ghost use Rattle.vx_model.specs.TyView.{ty};
ghost use Rattle.vx_model.specs.ChunkData.{piece_type};
ghost use Rattle.vx_strategy_spec.specs.Walk.{duplicate};
ghost use Rattle.vx_chunk_cells.specs.Parts.{struct_fields};
ghost use Rattle.vx_split.specs.Causes.{IsRefused};
ghost use Rattle.vx_column_batches.specs.Beside.{columns_of, width_of, chunks_beside, dealt};

use std::alloc::{AllocError, Global};
use vx_chunk::Chunk;
use vx_model::DType;
use vx_split::{ColumnSplit, SplitError};

/// The chunks of batches of a struct type, column by column: validity where the type is nullable, then the fields. There are
/// `count` columns.
pub fn split_all(
    alloc: Global,
    dtype: &DType,
    batches: Vec<Chunk>,
    count: usize,
) -> Result<Vec<Vec<Chunk>>, SplitError>
    requires structs { IsTrue (is_struct (ty dtype.now)) }
    requires typed { All (λ b. piece_type b ≡ ty dtype.now) batches.items }
    requires count { count ≡ width_of (ty dtype.now) }
    ensures columns { IfOk result (λ v. map (λ c. c.items) v.items ≡ chunks_beside count (map (columns_of (ty dtype.now)) batches.items)) }
    ensures distinct { OnOk result (duplicate (struct_fields (ty dtype.now)) ≡ None) }
    ensures refused { IfErr result (IsRefused (ty dtype.now)) }
{
    let split = ColumnSplit::new(alloc, dtype.clone()?)?;
    let mut columns = empty_columns(alloc, count, batches.len())?;
    split_each(alloc, &split, batches, &mut columns)?;
    Ok(columns)
}

fn split_each(
    alloc: Global,
    split: &ColumnSplit,
    batches: Vec<Chunk>,
    columns: &mut Vec<Vec<Chunk>>,
) -> Result<(), SplitError>
    requires structs { IsTrue (is_struct split.now) }
    requires typed { All (λ b. piece_type b ≡ split.now) batches.items }
    requires none { map (λ c. c.items) columns.old.items ≡ chunks_beside (width_of split.now) [] }
    ensures columns { OnOk result (map (λ c. c.items) columns.new.items ≡ chunks_beside (width_of split.now) (map (columns_of split.now) batches.items)) }
    ensures memory { IfErr result (λ e. e ≡ SplitError.OutOfMemory) }
{
    'batches: for batch in batches {
        let parts = split_one(alloc, split, batch)?;
        deal(columns, parts)?;
    }
    Ok(())
}

/// The columns of one batch.
fn split_one(alloc: Global, split: &ColumnSplit, batch: Chunk) -> Result<Vec<Chunk>, SplitError>
    requires structs { IsTrue (is_struct split.now) }
    requires typed { piece_type batch ≡ split.now }
    ensures columns { IfOk result (λ v. v.items ≡ columns_of split.now batch) }
    ensures count { IfOk result (λ v. length v.items ≡ width_of split.now) }
    ensures memory { IfErr result (λ e. e ≡ SplitError.OutOfMemory) }
{
    batch.sound();
    match split.react(alloc, batch) {
        Ok(parts) => Ok(parts),
        Err(error) => Err(error),
    }
}

/// So many columns without a chunk, with room for some.
fn empty_columns(alloc: Global, count: usize, room: usize) -> Result<Vec<Vec<Chunk>>, AllocError>
    ensures { IfOk result (λ v. map (λ c. c.items) v.items ≡ chunks_beside count []) }
{
    let mut columns = Vec::with_capacity(alloc, count)?;
    for _c in 0..count {
        columns.push(Vec::with_capacity(alloc, room)?)?;
    }
    Ok(columns)
}

/// A chunk behind each column, as far as there are chunks.
fn deal(columns: &mut Vec<Vec<Chunk>>, parts: Vec<Chunk>) -> Result<(), AllocError>
    ensures { OnOk result (map (λ c. c.items) columns.new.items ≡ dealt (map (λ c. c.items) columns.old.items) parts.items) }
{
    let mut parts = parts.into_iter();
    for column in columns.iter_mut() {
        match parts.next() {
            Some(part) => column.push(part)?,
            None => return Ok(()),
        }
    }
    Ok(())
}
