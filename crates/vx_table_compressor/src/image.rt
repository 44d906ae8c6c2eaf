//! Images of chunks.

ghost use Rattle.std.specs.Prelude.{◌≡◌, map, IsTrue, IfOk, MatchOption};
ghost use Rattle.vx_model.specs.Words.{all_by};
ghost use Rattle.vx_model.specs.CellData.{fits};
ghost use Rattle.vx_model.specs.ChunkData.{plain_piece, cells as cells_in};
ghost use Rattle.vx_model.specs.TyView.{ty};
ghost use Rattle.vx_model.specs.TreeView.{tree};
ghost use Rattle.vx_column.specs.ColumnView.{column_cells};
ghost use Rattle.vx_compressor_spec.specs.TableImage.{table_image, chosen_image, small_image, coded_image};
ghost use Rattle.vx_table_compressor.specs.Images.{image_of, constant_rows};

use crate::dictionary::dictionary;
use crate::same::are_alike;
use std::alloc::{AllocError, Global};
use vx_chunk::Chunk;
use vx_chunk_cells::is_dict_type;
use vx_column::Column;
use vx_model::{Cell, DType, EncodingId};
use vx_typed::own_cell;

/// The chunk's image under the number.
#[tactic(auto, using(crate::proofs::ImageSteps::chunk_rules))]
pub(crate) fn image(alloc: Global, which: u32, chunk: &Chunk) -> Result<Chunk, AllocError>
    ensures { IfOk result (λ c. c ≡ table_image which chunk.now) }
{
    chunk.sound();
    if which == 1 && is_constant(chunk) {
        return Ok(chunk.clone()?);
    }
    match chunk.as_column() {
        Some(column) => lent_image(alloc, which, chunk.dtype(), column),
        None => own_image(alloc, which, chunk.dtype(), cells_of(alloc, chunk)?),
    }
}

/// Whether the chunk is so many rows of one cell, and at least one.
#[tactic(auto, using(crate::proofs::ImageSteps::constant_rules))]
fn is_constant(chunk: &Chunk) -> bool
    ensures { result ≡ constant_rows chunk.now }
{
    match chunk.encoding() {
        EncodingId::Constant => chunk.len() > 0,
        EncodingId::Plain | EncodingId::Dict | EncodingId::Chunked => false,
        EncodingId::List | EncodingId::Struct | EncodingId::Extension => false,
    }
}

fn cells_of(alloc: Global, chunk: &Chunk) -> Result<Vec<Cell>, AllocError>
    ensures { IfOk result (λ v. map tree v.items ≡ cells_in chunk.now) }
{
    match chunk.cells(alloc) {
        Ok(cells) => Ok(cells),
        Err(_) => Err(AllocError),
    }
}

/// The image of rows that their owner keeps: where it is the plain chunk, typed values are shared and cells copied.
fn lent_image(
    alloc: Global,
    which: u32,
    dtype: &DType,
    column: &Column,
) -> Result<Chunk, AllocError>
    requires { IsTrue (all_by (fits (ty dtype.now)) (column_cells column.now)) }
    ensures { IfOk result (λ c. c ≡ image_of which (ty dtype.now) (column_cells column.now)) }
{
    if let Some(image) = packed(alloc, which, dtype, column)? {
        return Ok(image);
    }
    Ok(Chunk::column(dtype.clone()?, column.clone()?))
}

/// The image of rows: where it is the plain chunk, they are moved or made typed values.
fn own_image(
    alloc: Global,
    which: u32,
    dtype: &DType,
    cells: Vec<Cell>,
) -> Result<Chunk, AllocError>
    requires { IsTrue (all_by (fits (ty dtype.now)) (map tree cells.items)) }
    ensures { IfOk result (λ c. c ≡ image_of which (ty dtype.now) (map tree cells.items)) }
{
    let column = Column::from_cells(alloc, dtype, cells)?;
    if let Some(image) = packed(alloc, which, dtype, &column)? {
        return Ok(image);
    }
    Ok(Chunk::column(dtype.clone()?, column))
}

/// The image of rows, and nothing where it is the plain chunk.
fn packed(
    alloc: Global,
    which: u32,
    dtype: &DType,
    column: &Column,
) -> Result<Option<Chunk>, AllocError>
    requires { IsTrue (all_by (fits (ty dtype.now)) (column_cells column.now)) }
    ensures { IfOk result (λ r. MatchOption r (image_of which (ty dtype.now) (column_cells column.now) ≡ plain_piece (ty dtype.now) (column_cells column.now)) (λ c. c ≡ image_of which (ty dtype.now) (column_cells column.now))) }
{
    if which == 1 {
        return chosen(alloc, dtype, column);
    }
    if which == 2 {
        return coded(alloc, dtype, column);
    }
    Ok(None)
}

/// A constant where there is a row and all cells are the same, else a dictionary of few values.
#[tactic(auto, using(crate::proofs::ImageSteps::chosen_rules))]
fn chosen(alloc: Global, dtype: &DType, column: &Column) -> Result<Option<Chunk>, AllocError>
    requires { IsTrue (all_by (fits (ty dtype.now)) (column_cells column.now)) }
    ensures { IfOk result (λ r. MatchOption r (chosen_image (ty dtype.now) (column_cells column.now) ≡ plain_piece (ty dtype.now) (column_cells column.now)) (λ c. c ≡ chosen_image (ty dtype.now) (column_cells column.now))) }
{
    if !are_alike(column) {
        return small(alloc, dtype, column);
    }
    let cell = own_cell(alloc, column.row(0))?;
    let rows = column.len() as u64;
    Ok(Some(Chunk::constant(dtype.clone()?, cell, rows)))
}

/// A dictionary where the type has one and at most half of the cells are distinct.
#[tactic(auto, using(crate::proofs::ImageSteps::small_rules))]
fn small(alloc: Global, dtype: &DType, column: &Column) -> Result<Option<Chunk>, AllocError>
    requires { IsTrue (all_by (fits (ty dtype.now)) (column_cells column.now)) }
    ensures { IfOk result (λ r. MatchOption r (small_image (ty dtype.now) (column_cells column.now) ≡ plain_piece (ty dtype.now) (column_cells column.now)) (λ c. c ≡ small_image (ty dtype.now) (column_cells column.now))) }
{
    if !is_dict_type(dtype) {
        return Ok(None);
    }
    dictionary(alloc, dtype, column, column.len() as u64 / 2)
}

/// A dictionary where the type has one.
#[tactic(auto, using(crate::proofs::ImageSteps::coded_rules))]
fn coded(alloc: Global, dtype: &DType, column: &Column) -> Result<Option<Chunk>, AllocError>
    requires { IsTrue (all_by (fits (ty dtype.now)) (column_cells column.now)) }
    ensures { IfOk result (λ r. MatchOption r (coded_image (ty dtype.now) (column_cells column.now) ≡ plain_piece (ty dtype.now) (column_cells column.now)) (λ c. c ≡ coded_image (ty dtype.now) (column_cells column.now))) }
{
    if !is_dict_type(dtype) {
        return Ok(None);
    }
    dictionary(alloc, dtype, column, column.len() as u64)
}
