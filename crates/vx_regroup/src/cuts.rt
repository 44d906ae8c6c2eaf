//! Rows cut off in blocks.

ghost use Rattle.std.specs.Prelude.{◌≡◌, ◌≤◌, ◌-◌, ◌++◌, length, take, drop, sum, IsTrue, IfOk, OnOk};
ghost use Rattle.vx_model.specs.Words.{all_by};
ghost use Rattle.vx_model.specs.CellData.{fits};
ghost use Rattle.vx_model.specs.ChunkData.{plain_piece};
ghost use Rattle.vx_model.specs.TyView.{ty};
ghost use Rattle.vx_column.specs.ColumnView.{column_cells};
ghost use Rattle.vx_rules.specs.Blocks.{cut_off, last_block};

use std::alloc::{AllocError, Global};
use vx_chunk::Chunk;
use vx_column::Column;
use vx_model::DType;

/// The first rows in plain chunks of these sizes, and the rows that are left: typed values stay where they are, in memory
/// that the chunks and the rest share, and each cell is moved once.
pub(crate) fn blocks_off(
    alloc: Global,
    dtype: &DType,
    rows: Column,
    sizes: &[usize],
    cut: usize,
) -> Result<(Vec<Chunk>, Column), AllocError>
    requires fit { IsTrue (all_by (fits (ty dtype.now)) (column_cells rows)) }
    requires summed { sum sizes.now ≡ cut }
    requires within { cut ≤ length (column_cells rows) }
    ensures leaves { IfOk result (λ r. r.0.items ≡ cut_off (ty dtype.now) (column_cells rows) sizes.now) }
    ensures left { IfOk result (λ r. column_cells r.1 ≡ drop cut (column_cells rows)) }
{
    let (front, rest) = rows.split(alloc, cut as u64)?;
    let blocks = blocks_of(alloc, dtype, front, sizes)?;
    Ok((blocks, rest))
}

/// All rows in plain chunks of these sizes, cut from the back.
fn blocks_of(
    alloc: Global,
    dtype: &DType,
    rows: Column,
    sizes: &[usize],
) -> Result<Vec<Chunk>, AllocError>
    requires fit { IsTrue (all_by (fits (ty dtype.now)) (column_cells rows)) }
    requires summed { sum sizes.now ≡ length (column_cells rows) }
    ensures { IfOk result (λ v. v.items ≡ cut_off (ty dtype.now) (column_cells rows) sizes.now) }
{
    let mut front = rows;
    let mut blocks = Vec::with_capacity(alloc, sizes.len())?;
    for k in 0..sizes.len() {
        let (before, block) = last_off(alloc, dtype, front, sizes[sizes.len() - 1 - k])?;
        front = before;
        blocks.push(block)?;
    }
    blocks.reverse();
    Ok(blocks)
}

/// The rows before the last ones, and these in a plain chunk.
fn last_off(
    alloc: Global,
    dtype: &DType,
    rows: Column,
    size: usize,
) -> Result<(Column, Chunk), AllocError>
    requires fit { IsTrue (all_by (fits (ty dtype.now)) (column_cells rows)) }
    requires within { size ≤ length (column_cells rows) }
    ensures before { IfOk result (λ r. column_cells r.0 ≡ take (length (column_cells rows) - size) (column_cells rows)) }
    ensures block { IfOk result (λ r. r.1 ≡ plain_piece (ty dtype.now) (drop (length (column_cells rows) - size) (column_cells rows))) }
{
    let dtype = dtype.clone()?;
    let place = rows.len() - size;
    let (before, block) = rows.split(alloc, place as u64)?;
    Ok((before, Chunk::column(dtype, block)))
}

/// A last block, where rows are left.
#[tactic(auto, using(crate::proofs::CutSteps::last_rules))]
pub(crate) fn push_last(
    dtype: &DType,
    left: Column,
    blocks: &mut Vec<Chunk>,
) -> Result<(), AllocError>
    requires { IsTrue (all_by (fits (ty dtype.now)) (column_cells left)) }
    ensures { OnOk result (blocks.new.items ≡ blocks.old.items ++ last_block (ty dtype.now) (column_cells left)) }
{
    if left.len() == 0 {
        return Ok(());
    }
    blocks.push(Chunk::column(dtype.clone()?, left))?;
    Ok(())
}
