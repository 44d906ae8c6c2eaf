//! Cells that are looked at where they are kept.

ghost use Rattle.std.specs.Prelude.{◌≡◌, IfOk};
ghost use Rattle.vx_model.specs.TreeView.{tree};
ghost use Rattle.vx_typed.specs.Lent.{lent_cell};

use std::alloc::{AllocError, Global};
use vx_chunk_cells::copy_cells;
use vx_model::{Blob, Cell, Text};

/// A cell, of which what it holds is borrowed.
#[derive(Clone, Copy)]
pub enum Lent<'a> {
    Null,
    Bool(bool),
    Int(i128),
    Utf8(&'a str),
    Binary(&'a [u8]),
    List(bool, &'a [Cell]),
    Struct(bool, &'a [Cell]),
}

/// The cell, lent.
#[tactic(auto, using(vx_model::proofs::CellViews::cell_rules))]
pub fn lend_cell(cell: &Cell) -> Lent<'_>
    ensures { lent_cell result ≡ tree cell.now }
{
    match cell {
        Cell::Null => Lent::Null,
        Cell::Bool(b) => Lent::Bool(*b),
        Cell::Int(n) => Lent::Int(*n),
        Cell::Utf8(text) => Lent::Utf8(text.as_str()),
        Cell::Binary(bytes) => Lent::Binary(bytes.as_slice()),
        Cell::List(valid, cells) => Lent::List(*valid, cells),
        Cell::Struct(valid, cells) => Lent::Struct(*valid, cells),
    }
}

/// A cell of its own, a copy.
#[tactic(auto, using(vx_model::proofs::CellViews::cell_rules))]
pub fn own_cell(alloc: Global, cell: Lent<'_>) -> Result<Cell, AllocError>
    ensures { IfOk result (λ c. tree c ≡ lent_cell cell.entry) }
{
    match cell {
        Lent::Null => Ok(Cell::Null),
        Lent::Bool(b) => Ok(Cell::Bool(b)),
        Lent::Int(n) => Ok(Cell::Int(n)),
        Lent::Utf8(text) => Ok(Cell::Utf8(Text::from_str(alloc, text)?)),
        Lent::Binary(bytes) => Ok(Cell::Binary(Blob::from_slice(alloc, bytes)?)),
        Lent::List(valid, cells) => Ok(Cell::List(valid, copy_cells(alloc, cells)?)),
        Lent::Struct(valid, cells) => Ok(Cell::Struct(valid, copy_cells(alloc, cells)?)),
    }
}
