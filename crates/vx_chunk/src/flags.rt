//! Which rows of lists and structs are valid.

ghost use Rattle.std.specs.Prelude.{◌≡◌, ◌++◌, false, map, IsTrue, IfOk, IfErr, OnOk};
ghost use Rattle.vx_model.specs.Ty.{boolean, is_struct};
ghost use Rattle.vx_model.specs.CellData.{bool_cell};
ghost use Rattle.vx_model.specs.ChunkData.{piece_type, pieces_of, plain_piece, cells as cells_in, joined_cells};
ghost use Rattle.vx_layout_spec.specs.Parts.{flag_of as is_valid, validity_piece};

use crate::error::ChunkError;
use crate::node::{Chunk, Node};
use std::alloc::{AllocError, Global};
use vx_chunk_cells::{flag_of, push_row_flags, push_same_flag};
use vx_column::{AnyLeaves, Column};
use vx_model::{DType, Nullability};
use vx_typed::Leaves;

impl Chunk {
    /// One Bool a row of a struct chunk, plain: whether the row is valid, all true where the type isn't nullable.
    pub fn validity(&self, alloc: Global) -> Result<Chunk, ChunkError>
        requires { IsTrue (is_struct (piece_type self.now)) }
        ensures flags { IfOk result (λ c. c ≡ validity_piece self.now) }
        ensures memory { IfErr result (λ e. e ≡ ChunkError.OutOfMemory) }
    {
        let flags = flags(self, alloc)?;
        Ok(flag_chunk(alloc, flags)?)
    }
}

/// A plain chunk of the flags, which are moved.
#[tactic(auto, using(crate::proofs::FlagSteps::chunk_rules))]
pub fn flag_chunk(alloc: Global, flags: Vec<bool>) -> Result<Chunk, AllocError>
    ensures { IfOk result (λ c. c ≡ plain_piece (boolean false) (map bool_cell flags.items)) }
{
    let leaves = Leaves::new(alloc, flags)?;
    let column = Column::Leaves(AnyLeaves::Bool(leaves));
    Ok(Chunk::column(DType::Bool(Nullability::NonNullable), column))
}

/// A flag a row: whether it is no invalid list or struct.
#[tactic(auto, using(crate::proofs::FlagSteps::flag_rules))]
pub(crate) fn flags(chunk: &Chunk, alloc: Global) -> Result<Vec<bool>, AllocError>
    ensures { IfOk result (λ v. v.items ≡ map is_valid (cells_in chunk.now)) }
{
    let mut flags = Vec::with_capacity(alloc, chunk.len() as usize)?;
    push_valid(chunk, &mut flags)?;
    Ok(flags)
}

#[cycle(flags)]
#[tactic(auto, using(crate::proofs::FlagSteps::flag_rules))]
fn push_valid(chunk: &Chunk, out: &mut Vec<bool>) -> Result<(), AllocError>
    ensures { OnOk result (out.new.items ≡ out.old.items ++ map is_valid (cells_in chunk.now)) }
{
    match &chunk.node {
        Node::Plain { column, .. } => column.push_flags(out),
        Node::Constant { cell, rows, .. } => push_same_flag(flag_of(cell), *rows, out),
        Node::Dict { codes, .. } => push_same_flag(true, codes.len(), out),
        Node::Chunked { parts, .. } => push_parts_valid(parts, out),
        Node::List { offsets, valid, .. } => push_row_flags(valid, (offsets.len() - 1) as u64, out),
        Node::Struct { valid, rows, .. } => push_row_flags(valid, *rows, out),
        Node::Extension { storage, .. } => push_valid(storage, out),
    }
}

#[cycle(flags)]
#[tactic(auto, using(crate::proofs::FlagSteps::flag_rules))]
fn push_parts_valid(parts: &[Chunk], out: &mut Vec<bool>) -> Result<(), AllocError>
    ensures { OnOk result (out.new.items ≡ out.old.items ++ map is_valid (joined_cells (pieces_of parts.now))) }
{
    for part in parts {
        push_valid(part, out)?;
    }
    Ok(())
}
