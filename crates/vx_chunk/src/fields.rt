//! The fields of a struct chunk.

ghost use Rattle.std.specs.Prelude.{◌≡◌, map, IsTrue, IfOk, IfErr};
ghost use Rattle.vx_model.specs.Ty.{is_struct, tys_of};
ghost use Rattle.vx_model.specs.TyView.{ty, field_ty};
ghost use Rattle.vx_model.specs.Words.{all_by};
ghost use Rattle.vx_model.specs.CellData.{fits};
ghost use Rattle.vx_model.specs.TreeView.{tree};
ghost use Rattle.vx_model.specs.ChunkData.{piece_type, cells as cells_in};
ghost use Rattle.vx_chunk_cells.specs.Columns.{trees_in};
ghost use Rattle.vx_chunk_cells.specs.Parts.{struct_fields};
ghost use Rattle.vx_chunk.specs.Parts.{typed_columns, columns_fit};
ghost use Rattle.vx_layout_spec.specs.Parts.{field_pieces, plain_fields};

use crate::copy::copy_all;
use crate::error::ChunkError;
use crate::node::{Chunk, Node};
use std::alloc::{AllocError, Global};
use vx_chunk_cells::{columns_of, types_of};
use vx_model::{Cell, DType, StructField};

impl Chunk {
    /// The fields of a struct chunk in order, those of invalid rows too: its own chunks where it is held as a struct,
    /// else plain ones. All are copies.
    pub fn fields(&self, alloc: Global) -> Result<Vec<Chunk>, ChunkError>
        requires { IsTrue (is_struct (piece_type self.now)) }
        ensures fields { IfOk result (λ v. v.items ≡ field_pieces (struct_fields (piece_type self.now)) self.now) }
        ensures memory { IfErr result (λ e. e ≡ ChunkError.OutOfMemory) }
    {
        if let Node::Struct { fields, .. } = &self.node {
            return Ok(copy_all(fields)?);
        }
        Ok(self.plain_fields(alloc)?)
    }

    /// The fields as `fields` gives them: its own chunks where it is held as a struct are moved, and so are the cells
    /// that `into_cells` moves, where their type has no typed values.
    pub fn into_fields(self, alloc: Global) -> Result<Vec<Chunk>, ChunkError>
        requires { IsTrue (is_struct (piece_type self)) }
        ensures fields { IfOk result (λ v. v.items ≡ field_pieces (struct_fields (piece_type self)) self) }
        ensures memory { IfErr result (λ e. e ≡ ChunkError.OutOfMemory) }
    {
        let node = self.into_node();
        match node {
            Node::Struct { dtype, fields, .. } => {
                drop(dtype);
                Ok(fields)
            }
            other => Chunk { node: other }.into_plain_fields(alloc),
        }
    }

    fn plain_fields(&self, alloc: Global) -> Result<Vec<Chunk>, ChunkError>
        requires { IsTrue (is_struct (piece_type self.now)) }
        ensures fields { IfOk result (λ v. v.items ≡ plain_fields (struct_fields (piece_type self.now)) (cells_in self.now)) }
        ensures memory { IfErr result (λ e. e ≡ ChunkError.OutOfMemory) }
    {
        self.sound();
        let cells = self.cells(alloc)?;
        Ok(field_columns(alloc, self.dtype(), cells)?)
    }

    fn into_plain_fields(self, alloc: Global) -> Result<Vec<Chunk>, ChunkError>
        requires { IsTrue (is_struct (piece_type self)) }
        ensures fields { IfOk result (λ v. v.items ≡ plain_fields (struct_fields (piece_type self)) (cells_in self)) }
        ensures memory { IfErr result (λ e. e ≡ ChunkError.OutOfMemory) }
    {
        self.sound();
        let Ok(dtype) = self.dtype().clone() else {
            drop(self);
            return Err(ChunkError::OutOfMemory);
        };
        let Ok(cells) = self.into_cells(alloc) else {
            drop(dtype);
            return Err(ChunkError::OutOfMemory);
        };
        let fields = field_columns(alloc, &dtype, cells);
        drop(dtype);
        Ok(fields?)
    }
}

/// A plain chunk of each field of the structs, of typed values where the field's type has them.
fn field_columns(alloc: Global, dtype: &DType, cells: Vec<Cell>) -> Result<Vec<Chunk>, AllocError>
    requires structs { IsTrue (is_struct (ty dtype.now)) }
    requires fit { IsTrue (all_by (fits (ty dtype.now)) (map tree cells.items)) }
    ensures { IfOk result (λ v. v.items ≡ plain_fields (struct_fields (ty dtype.now)) (map tree cells.items)) }
{
    let types = types_of(dtype);
    let columns = columns_of(alloc, cells, types.len())?;
    typed(alloc, types, columns)
}

/// A plain chunk of each column.
#[tactic(auto, using(crate::proofs::FieldSteps::field_rules))]
fn typed(
    alloc: Global,
    types: &[StructField],
    columns: Vec<Vec<Cell>>,
) -> Result<Vec<Chunk>, AllocError>
    requires { IsTrue (columns_fit (tys_of (map field_ty types.now)) (map trees_in columns.items)) }
    ensures { IfOk result (λ v. v.items ≡ typed_columns (tys_of (map field_ty types.now)) (map trees_in columns.items)) }
{
    let mut chunks = Vec::with_capacity(alloc, types.len())?;
    let mut i = 0;
    for column in columns {
        let dtype = types[i].dtype.clone()?;
        chunks.push(Chunk::typed(alloc, dtype, column)?)?;
        i += 1;
    }
    Ok(chunks)
}
