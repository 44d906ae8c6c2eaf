//! The rows of a chunk that isn't kept.

ghost use Rattle.std.specs.Prelude.{◌≡◌, ◌<◌, ◌^◌, length, map, IfOk, IfErr};
ghost use Rattle.vx_model.specs.TreeView.{tree, val};
ghost use Rattle.vx_model.specs.ChunkData.{pieces_of, cells as cells_in, joined_cells, row_values};
ghost use Rattle.vx_column.specs.ColumnView.{column_cells};

use crate::error::ChunkError;
use crate::node::{Chunk, Node};
use crate::reads::total_rows;
use crate::rows::cells_between;
use std::alloc::{AllocError, Global};
use vx_chunk_cells::into_values;
use vx_column::{Column, no_rows};
use vx_model::{Cell, Value};

impl Chunk {
    /// The rows as cells. Those that plain chunks keep are moved, under extensions and in parts too; others are copied.
    pub fn into_cells(self, alloc: Global) -> Result<Vec<Cell>, ChunkError>
        ensures cells { IfOk result (λ v. map tree v.items ≡ cells_in self) }
        ensures memory { IfErr result (λ e. e ≡ ChunkError.OutOfMemory) }
    {
        Ok(own_cells(self, alloc)?)
    }

    /// The rows as a column: that of a plain chunk, under extensions too, as it is, and those of parts joined; of other
    /// chunks typed values, copied.
    pub fn into_column(self, alloc: Global) -> Result<Column, ChunkError>
        ensures cells { IfOk result (λ c. column_cells c ≡ cells_in self) }
        ensures memory { IfErr result (λ e. e ≡ ChunkError.OutOfMemory) }
    {
        Ok(own_column(self, alloc)?)
    }

    /// The rows as a reader sees them, moved where `into_cells` moves.
    pub fn into_rows(self, alloc: Global) -> Result<Vec<Value>, ChunkError>
        ensures rows { IfOk result (λ v. map val v.items ≡ row_values self) }
        ensures memory { IfErr result (λ e. e ≡ ChunkError.OutOfMemory) }
    {
        Ok(into_values(own_cells(self, alloc)?)?)
    }
}

#[cycle(own)]
#[tactic(auto, using(crate::proofs::OwnSteps::own_rules))]
fn own_cells(chunk: Chunk, alloc: Global) -> Result<Vec<Cell>, AllocError>
    ensures { IfOk result (λ v. map tree v.items ≡ cells_in chunk) }
{
    let node = chunk.into_node();
    match node {
        Node::Plain { dtype, column } => {
            drop(dtype);
            column.into_cells(alloc)
        }
        Node::Chunked { dtype, parts } => {
            drop(dtype);
            own_parts(parts, alloc)
        }
        Node::Extension { dtype, storage } => {
            drop(dtype);
            own_cells(Box::into_inner(storage), alloc)
        }
        other => {
            let chunk = Chunk { node: other };
            let cells = cells_between(&chunk, alloc, 0, chunk.len());
            drop(chunk);
            cells
        }
    }
}

#[cycle(own)]
#[tactic(auto, using(crate::proofs::OwnSteps::own_rules))]
fn own_parts(parts: Vec<Chunk>, alloc: Global) -> Result<Vec<Cell>, AllocError>
    requires { length (joined_cells (pieces_of parts.items)) < 2 ^ 64 }
    ensures { IfOk result (λ v. map tree v.items ≡ joined_cells (pieces_of parts.items)) }
{
    let mut cells = Vec::with_capacity(alloc, total_rows(&parts) as usize)?;
    for part in parts {
        let mut more = own_cells(part, alloc)?;
        cells.append(&mut more)?;
    }
    Ok(cells)
}

#[cycle(column)]
#[tactic(auto, using(crate::proofs::OwnSteps::own_rules))]
fn own_column(chunk: Chunk, alloc: Global) -> Result<Column, AllocError>
    ensures { IfOk result (λ c. column_cells c ≡ cells_in chunk) }
{
    let node = chunk.into_node();
    match node {
        Node::Plain { dtype, column } => {
            drop(dtype);
            Ok(column)
        }
        Node::Chunked { dtype, parts } => {
            drop(dtype);
            join_parts(parts, alloc)
        }
        Node::Extension { dtype, storage } => {
            drop(dtype);
            own_column(Box::into_inner(storage), alloc)
        }
        other => made_column(Chunk { node: other }, alloc),
    }
}

#[cycle(column)]
#[tactic(auto, using(crate::proofs::OwnSteps::own_rules))]
fn join_parts(parts: Vec<Chunk>, alloc: Global) -> Result<Column, AllocError>
    ensures { IfOk result (λ c. column_cells c ≡ joined_cells (pieces_of parts.items)) }
{
    let mut column = no_rows(alloc);
    for part in parts {
        let more = own_column(part, alloc)?;
        column = column.append(alloc, more)?;
    }
    Ok(column)
}

/// The column of the rows, copied.
fn made_column(chunk: Chunk, alloc: Global) -> Result<Column, AllocError>
    ensures { IfOk result (λ c. column_cells c ≡ cells_in chunk) }
{
    let column = copied_column(&chunk, alloc);
    drop(chunk);
    column
}

fn copied_column(chunk: &Chunk, alloc: Global) -> Result<Column, AllocError>
    ensures { IfOk result (λ c. column_cells c ≡ cells_in chunk.now) }
{
    let cells = cells_between(chunk, alloc, 0, chunk.len())?;
    Column::from_cells(alloc, chunk.dtype(), cells)
}
