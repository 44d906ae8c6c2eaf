//! Chunks without parts, and dictionaries of them.

ghost use Rattle.std.specs.Prelude.{◌≡◌, ◌+◌, if◌then◌else◌, length, IfOk, IsTrue, slice_get};
ghost use Rattle.vx_model.specs.Words.{all_by};
ghost use Rattle.vx_model.specs.CellData.{fits};
ghost use Rattle.vx_model.specs.TyView.{ty};
ghost use Rattle.vx_model.specs.TreeView.{tree};
ghost use Rattle.vx_column.specs.ColumnView.{column_cells};
ghost use Rattle.vx_cell_codec.specs.Reading.{cells_at, only_cell_at};
ghost use Rattle.vx_cell_codec.specs.Columns.{offsets_at, flags_at};
ghost use Rattle.vx_segment_spec.specs.Pieces.{given, flags_of, plain_at, constant_at, simple_at};
ghost use Rattle.vx_segment_reader.specs.Views.{Gives, given_of, head, frame as framed, rest as left};

use crate::error::DecodeError;
use crate::node::Node;
use crate::rest::{Frame, Rest, is_shaped, next_buffer, next_node, number};
use std::alloc::Global;
use vx_cell_codec::{CellError, read_cell, read_flags, read_offsets};
use vx_chunk::Chunk;
use vx_column::Column;
use vx_column_codec::read_column;
use vx_model::{Cell, DType, EncodingId};

/// The fault of the node of number `k`, where its cells can't be read.
fn fault_of(k: u64, error: CellError) -> DecodeError
    ensures { given_of k error result }
{
    match error {
        CellError::NoCells => DecodeError::BadType(k),
        CellError::OutOfMemory => DecodeError::OutOfMemory,
    }
}

fn column_of(
    alloc: Global,
    dtype: &DType,
    k: u64,
    rows: u64,
    bytes: &[u8],
) -> Result<Column, DecodeError>
    ensures read { Gives column_cells result (given k (cells_at (ty dtype.now) rows bytes.now)) }
    ensures fit { IfOk result (λ c. IsTrue (all_by (fits (ty dtype.now)) (column_cells c))) }
{
    match read_column(alloc, dtype, rows, bytes) {
        Ok(column) => Ok(column),
        Err(error) => Err(fault_of(k, error)),
    }
}

fn cell_of(alloc: Global, dtype: &DType, k: u64, bytes: &[u8]) -> Result<Cell, DecodeError>
    ensures read { Gives tree result (given k (only_cell_at (ty dtype.now) bytes.now)) }
    ensures fit { IfOk result (λ c. IsTrue (fits (ty dtype.now) (tree c))) }
{
    match read_cell(alloc, dtype, bytes) {
        Ok(cell) => Ok(cell),
        Err(error) => Err(fault_of(k, error)),
    }
}

/// One offset more than rows, ascending.
pub(crate) fn offsets_of(
    alloc: Global,
    k: u64,
    rows: u64,
    bytes: &[u8],
) -> Result<Vec<u64>, DecodeError>
    ensures read { Gives (λ v. v.items) result (given k (offsets_at rows bytes.now)) }
    ensures count { IfOk result (λ v. length v.items ≡ rows + 1) }
{
    match read_offsets(alloc, rows, bytes) {
        Ok(offsets) => Ok(offsets),
        Err(error) => Err(fault_of(k, error)),
    }
}

/// A flag a row where the type is nullable; else none, and no buffer.
#[tactic(auto, unfolding(vx_segment_spec::specs::Pieces::flags_of))]
pub(crate) fn validity_of<'a>(
    alloc: Global,
    nullable: bool,
    k: u64,
    rows: u64,
    rest: Rest<'a>,
) -> Result<(Vec<bool>, Rest<'a>), DecodeError>
    ensures read { Gives (λ x. (x.0.items, left x.1)) result (flags_of nullable k rows (left rest.entry)) }
    ensures count { IfOk result (λ x. length x.0.items ≡ (if nullable then rows else 0)) }
{
    if !nullable {
        return Ok((Vec::new(alloc), rest));
    }
    let (buffer, rest) = next_buffer(k, rest)?;
    match read_flags(alloc, rows, buffer) {
        Ok(flags) => Ok((flags, rest)),
        Err(error) => Err(fault_of(k, error)),
    }
}

#[tactic(auto, unfolding(vx_segment_spec::specs::Pieces::plain_at))]
pub(crate) fn read_plain<'a>(
    alloc: Global,
    dtype: &DType,
    k: u64,
    node: &Node,
    rest: Rest<'a>,
) -> Result<(Chunk, Rest<'a>), DecodeError>
    ensures { Gives (λ x. (x.0, left x.1)) result (plain_at (ty dtype.now) k (head node.now) (left rest.entry)) }
{
    if !is_shaped(1, 0, node) {
        return Err(DecodeError::BadType(k));
    }
    let (buffer, rest) = next_buffer(k, rest)?;
    let column = column_of(alloc, dtype, k, node.rows, buffer)?;
    let dtype = dtype.clone()?;
    Ok((Chunk::column(dtype, column), rest))
}

#[tactic(auto, unfolding(vx_segment_spec::specs::Pieces::constant_at))]
pub(crate) fn read_constant<'a>(
    alloc: Global,
    dtype: &DType,
    k: u64,
    node: &Node,
    rest: Rest<'a>,
) -> Result<(Chunk, Rest<'a>), DecodeError>
    ensures { Gives (λ x. (x.0, left x.1)) result (constant_at (ty dtype.now) k (head node.now) (left rest.entry)) }
{
    if !is_shaped(1, 0, node) {
        return Err(DecodeError::BadType(k));
    }
    let (buffer, rest) = next_buffer(k, rest)?;
    let cell = cell_of(alloc, dtype, k, buffer)?;
    let dtype = dtype.clone()?;
    Ok((Chunk::constant(dtype, cell, node.rows), rest))
}

/// The encoding whose index this is.
pub(crate) fn encoding_at(frame: &Frame, index: u16) -> Option<EncodingId>
    ensures { result ≡ slice_get frame.now.ids.now index }
{
    frame.ids.get(index as usize).copied()
}

/// A plain or a constant chunk.
#[tactic(auto, unfolding(vx_segment_spec::specs::Pieces::simple_at))]
pub(crate) fn read_simple<'a>(
    frame: &Frame,
    dtype: &DType,
    rest: Rest<'a>,
) -> Result<(Chunk, Rest<'a>), DecodeError>
    ensures { Gives (λ x. (x.0, left x.1)) result (simple_at (framed frame.now) (ty dtype.now) (left rest.entry)) }
{
    let k = number(frame, rest);
    let (node, rest) = next_node(frame, rest)?;
    match encoding_at(frame, node.index) {
        Some(EncodingId::Plain) => read_plain(frame.alloc, dtype, k, node, rest),
        Some(EncodingId::Constant) => read_constant(frame.alloc, dtype, k, node, rest),
        Some(EncodingId::Dict | EncodingId::Chunked | EncodingId::List) => Err(DecodeError::BadType(
            k,
        )),
        Some(EncodingId::Struct | EncodingId::Extension) => Err(DecodeError::BadType(k)),
        None => Err(DecodeError::BadType(k)),
    }
}
