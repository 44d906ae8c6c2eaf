//! The constructors.

ghost use Rattle.std.specs.Prelude.{◌≡◌, ◌<◌, ◌^◌, ◌↔◌, map, length, IsTrue, IsOk, IfOk, IfErr};
ghost use Rattle.vx_model.specs.Words.{all_by};
ghost use Rattle.vx_model.specs.CellData.{fits};
ghost use Rattle.vx_model.specs.TyView.{ty};
ghost use Rattle.vx_model.specs.TreeView.{tree};
ghost use Rattle.vx_column.specs.ColumnView.{column_cells};
ghost use Rattle.vx_model.specs.ChunkData.{plain_piece, constant_piece, dict_piece, chunked_piece, list_piece, struct_piece, extension_piece, pieces_of, joined_cells, are_parts, has_storage, piece_type};
ghost use Rattle.vx_chunk.specs.Conditions.{makes_dict, makes_list, makes_struct, IsPast};

use crate::error::ChunkError;
use crate::node::{Chunk, Node};
use crate::reads::{all_sound, total_rows};
use std::alloc::{AllocError, Global};
use vx_column::Column;
use vx_model::{Cell, DType};

impl Chunk {
    /// The rows as a list of cells. `vx_model::fits` tests the condition.
    pub fn plain(dtype: DType, cells: Vec<Cell>) -> Chunk
        requires { IsTrue (all_by (fits (ty dtype)) (map tree cells.items)) }
        ensures { result ≡ plain_piece (ty dtype) (map tree cells.items) }
    {
        Chunk {
            node: Node::Plain {
                dtype,
                column: Column::Cells(cells),
            },
        }
    }

    /// The rows of a column. `vx_model::fits` tests the condition of cells.
    pub fn column(dtype: DType, column: Column) -> Chunk
        requires { IsTrue (all_by (fits (ty dtype)) (column_cells column)) }
        ensures { result ≡ plain_piece (ty dtype) (column_cells column) }
    {
        let _rows = column.len();
        Chunk {
            node: Node::Plain { dtype, column },
        }
    }

    /// The rows as typed values where the type has them, else as cells. `vx_model::fits` tests the condition.
    pub fn typed(alloc: Global, dtype: DType, cells: Vec<Cell>) -> Result<Chunk, AllocError>
        requires { IsTrue (all_by (fits (ty dtype)) (map tree cells.items)) }
        ensures { IfOk result (λ c. c ≡ plain_piece (ty dtype) (map tree cells.items)) }
    {
        match Column::from_cells(alloc, &dtype, cells) {
            Ok(column) => Ok(Chunk::column(dtype, column)),
            Err(error) => {
                drop(dtype);
                Err(error)
            }
        }
    }

    /// So many rows of one cell. `vx_model::fits_one` tests the condition.
    pub fn constant(dtype: DType, cell: Cell, rows: u64) -> Chunk
        requires { IsTrue (fits (ty dtype) (tree cell)) }
        ensures { result ≡ constant_piece (ty dtype) (tree cell) rows }
    {
        Chunk {
            node: Node::Constant { dtype, cell, rows },
        }
    }

    /// Row i is the value whose place is code i. `vx_chunk_conditions::makes_dict` tests the condition.
    pub fn dict(alloc: Global, codes: Chunk, values: Chunk) -> Result<Chunk, ChunkError>
        requires { IsTrue (makes_dict codes values) }
        ensures ok { IfOk result (λ c. c ≡ dict_piece codes values) }
        ensures memory { IfErr result (λ e. e ≡ ChunkError.OutOfMemory) }
    {
        codes.sound();
        values.sound();
        match Box::new(alloc, codes) {
            Ok(codes) => {
                let values = Box::new(alloc, values)?;
                Ok(Chunk {
                    node: Node::Dict { codes, values },
                })
            }
            Err(failed) => {
                drop((failed, values));
                Err(ChunkError::OutOfMemory)
            }
        }
    }

    /// The rows of the parts, joined; takes no memory. `vx_chunk_conditions::are_parts` tests the condition.
    pub fn chunked(dtype: DType, parts: Vec<Chunk>) -> Result<Chunk, ChunkError>
        requires { IsTrue (are_parts (ty dtype) parts.items) }
        ensures ok { IfOk result (λ c. c ≡ chunked_piece (ty dtype) (pieces_of parts.items)) }
        ensures fits { IsOk result ↔ (length (joined_cells (pieces_of parts.items)) < 2 ^ 64) }
        ensures refused { IfErr result (IsPast (length (joined_cells (pieces_of parts.items)))) }
    {
        let rows = total_rows(&parts);
        if rows > u128::from(u64::MAX) {
            drop(dtype);
            return Err(ChunkError::TooLarge(rows));
        }
        all_sound(&parts);
        Ok(Chunk {
            node: Node::Chunked { dtype, parts },
        })
    }

    /// Row i has the elements from offset i to offset i + 1. `vx_chunk_conditions::makes_list` tests the condition.
    pub fn list(
        alloc: Global,
        dtype: DType,
        elements: Chunk,
        offsets: Vec<u64>,
        valid: Vec<bool>,
    ) -> Result<Chunk, ChunkError>
        requires { IsTrue (makes_list (ty dtype) elements offsets.items valid.items) }
        ensures ok { IfOk result (λ c. c ≡ list_piece (ty dtype) elements offsets.items valid.items) }
        ensures memory { IfErr result (λ e. e ≡ ChunkError.OutOfMemory) }
    {
        elements.sound();
        let elements = Box::new(alloc, elements)?;
        Ok(Chunk {
            node: Node::List {
                dtype,
                elements,
                offsets,
                valid,
            },
        })
    }

    /// Row i has cell i of each field; takes no memory. `vx_chunk_conditions::makes_struct` tests the condition.
    pub fn strukt(dtype: DType, fields: Vec<Chunk>, valid: Vec<bool>, rows: u64) -> Chunk
        requires { IsTrue (makes_struct (ty dtype) fields.items valid.items rows) }
        ensures { result ≡ struct_piece (ty dtype) (pieces_of fields.items) valid.items rows }
    {
        all_sound(&fields);
        Chunk {
            node: Node::Struct {
                dtype,
                fields,
                valid,
                rows,
            },
        }
    }

    /// The storage's rows under the extension type. `vx_chunk_cells::has_storage` tests the condition.
    pub fn extension(alloc: Global, dtype: DType, storage: Chunk) -> Result<Chunk, ChunkError>
        requires { IsTrue (has_storage (ty dtype) (piece_type storage)) }
        ensures ok { IfOk result (λ c. c ≡ extension_piece (ty dtype) storage) }
        ensures memory { IfErr result (λ e. e ≡ ChunkError.OutOfMemory) }
    {
        storage.sound();
        let storage = Box::new(alloc, storage)?;
        Ok(Chunk {
            node: Node::Extension { dtype, storage },
        })
    }
}
