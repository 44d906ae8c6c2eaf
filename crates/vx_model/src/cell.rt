ghost use Rattle.std.specs.Prelude.{◌≡◌, IfOk, map};
ghost use Rattle.vx_model.specs.TreeView.{tree};

use crate::blob::Blob;
use crate::text::Text;
use std::alloc::AllocError;

/// A stored cell. The flag of a list or a struct says that it is valid; an invalid one keeps the cells below it.
#[derive(Debug, Drop)]
pub enum Cell {
    Null,
    Bool(bool),
    Int(i128),
    Utf8(Text),
    Binary(Blob),
    List(bool, Vec<Cell>),
    Struct(bool, Vec<Cell>),
}

impl Clone for Cell {
    ghost is_clone = { λ c copy. tree copy ≡ tree c };

    fn clone(&self) -> Result<Cell, AllocError> {
        copy(self)
    }
}

#[cycle(copy)]
#[tactic(auto, using(crate::proofs::CellViews::copy_rules))]
fn copy(cell: &Cell) -> Result<Cell, AllocError>
    ensures { IfOk result (λ c. tree c ≡ tree cell.now) }
{
    match cell {
        Cell::Null => Ok(Cell::Null),
        Cell::Bool(b) => Ok(Cell::Bool(*b)),
        Cell::Int(n) => Ok(Cell::Int(*n)),
        Cell::Utf8(text) => Ok(Cell::Utf8(text.clone()?)),
        Cell::Binary(bytes) => Ok(Cell::Binary(bytes.clone()?)),
        Cell::List(valid, cells) => Ok(Cell::List(*valid, copy_all(cells)?)),
        Cell::Struct(valid, cells) => Ok(Cell::Struct(*valid, copy_all(cells)?)),
    }
}

#[cycle(copy)]
#[tactic(auto, using(crate::proofs::CellViews::copy_rules))]
fn copy_all(cells: &Vec<Cell>) -> Result<Vec<Cell>, AllocError>
    ensures { IfOk result (λ v. map tree v.items ≡ map tree cells.now.items) }
{
    let mut copies = Vec::with_capacity(*cells.allocator(), cells.len())?;
    for cell in cells {
        copies.push(copy(cell)?)?;
    }
    Ok(copies)
}
