//! The buffers of a node. Each call appends a buffer behind its padding, and its length to the lengths.

ghost use Rattle.std.specs.Prelude.{◌≡◌, ◌++◌, ◌∷◌, [], map, length, OnOk, IsTrue};
ghost use Rattle.vx_model.specs.Words.{all_by, joined_by};
ghost use Rattle.vx_model.specs.CellData.{bit, u64_bytes, fits, spelling};
ghost use Rattle.vx_model.specs.TyView.{ty};
ghost use Rattle.vx_model.specs.TreeView.{tree};
ghost use Rattle.vx_column.specs.ColumnView.{column_cells};
ghost use Rattle.vx_segment_writer.specs.Segment.{own_buffers, padding_at, validity_buffer};
ghost use Rattle.vx_segment_writer.specs.Written.{HasBuffers};

use crate::head::push_numbers;
use std::alloc::AllocError;
use vx_cell_codec::push_cell;
use vx_chunk::{Chunk, Node};
use vx_column::Column;
use vx_column_codec::push_column;
use vx_model::{Cell, DType};

/// Zeros up to the next multiple of eight.
#[tactic(auto, using(crate::proofs::Steps::padding_rules))]
fn push_padding(out: &mut Vec<u8>, padded: bool) -> Result<(), AllocError>
    ensures { OnOk result (out.new.items ≡ out.old.items ++ padding_at padded (length out.old.items)) }
{
    if padded {
        let end = out.len() + (8 - out.len() % 8) % 8;
        out.resize(end, 0)?;
    }
    Ok(())
}

#[tactic(auto, using(crate::proofs::Steps::buffer_rules))]
fn add_column(
    padded: bool,
    out: &mut Vec<u8>,
    lengths: &mut Vec<u64>,
    dtype: &DType,
    column: &Column,
) -> Result<(), AllocError>
    requires { IsTrue (all_by (fits (ty dtype.now)) (column_cells column.now)) }
    ensures { OnOk result (HasBuffers padded out.old.items out.new.items lengths.old.items lengths.new.items (joined_by (spelling (ty dtype.now)) (column_cells column.now) ∷ [])) }
{
    push_padding(out, padded)?;
    let start = out.len();
    push_column(out, dtype, column)?;
    lengths.push((out.len() - start) as u64)?;
    Ok(())
}

#[tactic(auto, using(crate::proofs::Steps::buffer_rules))]
fn add_cell(
    padded: bool,
    out: &mut Vec<u8>,
    lengths: &mut Vec<u64>,
    dtype: &DType,
    cell: &Cell,
) -> Result<(), AllocError>
    requires { IsTrue (fits (ty dtype.now) (tree cell.now)) }
    ensures { OnOk result (HasBuffers padded out.old.items out.new.items lengths.old.items lengths.new.items (spelling (ty dtype.now) (tree cell.now) ∷ [])) }
{
    push_padding(out, padded)?;
    let start = out.len();
    push_cell(out, dtype, cell)?;
    lengths.push((out.len() - start) as u64)?;
    Ok(())
}

#[tactic(auto, using(crate::proofs::Steps::buffer_rules))]
fn add_offsets(
    padded: bool,
    out: &mut Vec<u8>,
    lengths: &mut Vec<u64>,
    offsets: &[u64],
) -> Result<(), AllocError>
    ensures { OnOk result (HasBuffers padded out.old.items out.new.items lengths.old.items lengths.new.items (joined_by u64_bytes offsets.now ∷ [])) }
{
    push_padding(out, padded)?;
    let start = out.len();
    push_numbers(out, offsets)?;
    lengths.push((out.len() - start) as u64)?;
    Ok(())
}

#[tactic(auto, using(crate::proofs::Steps::buffer_rules))]
fn push_flags(out: &mut Vec<u8>, flags: &[bool]) -> Result<(), AllocError>
    ensures { OnOk result (out.new.items ≡ out.old.items ++ map bit flags.now) }
{
    for flag in flags {
        out.push(*flag as u8)?;
    }
    Ok(())
}

/// A byte a row where the type is nullable; else no buffer.
#[tactic(auto, using(crate::proofs::Steps::buffer_rules))]
fn add_validity(
    padded: bool,
    out: &mut Vec<u8>,
    lengths: &mut Vec<u64>,
    dtype: &DType,
    valid: &[bool],
) -> Result<(), AllocError>
    ensures { OnOk result (HasBuffers padded out.old.items out.new.items lengths.old.items lengths.new.items (validity_buffer (ty dtype.now) valid.now)) }
{
    if dtype.is_nullable() {
        push_padding(out, padded)?;
        push_flags(out, valid)?;
        lengths.push(valid.len() as u64)?;
    }
    Ok(())
}

/// The node's own buffers, and their lengths.
#[tactic(auto, using(crate::proofs::Steps::own_rules))]
pub(crate) fn add_own(
    padded: bool,
    out: &mut Vec<u8>,
    lengths: &mut Vec<u64>,
    chunk: &Chunk,
) -> Result<(), AllocError>
    ensures { OnOk result (HasBuffers padded out.old.items out.new.items lengths.old.items lengths.new.items (own_buffers chunk.now)) }
{
    match chunk.node() {
        Node::Plain { dtype, column } => add_column(padded, out, lengths, dtype, column),
        Node::Constant { dtype, cell, .. } => add_cell(padded, out, lengths, dtype, cell),
        Node::List {
            dtype,
            offsets,
            valid,
            ..
        } => {
            add_offsets(padded, out, lengths, offsets)?;
            add_validity(padded, out, lengths, dtype, valid)
        }
        Node::Struct { dtype, valid, .. } => add_validity(padded, out, lengths, dtype, valid),
        Node::Dict { .. } | Node::Chunked { .. } | Node::Extension { .. } => Ok(()),
    }
}
