//! Copies of cells.

ghost use Rattle.std.specs.Prelude.{◌≡◌, ◌++◌, map, replicate, IfOk, OnOk};
ghost use Rattle.vx_model.specs.TreeView.{tree};

use std::alloc::{AllocError, Global};
use vx_model::Cell;

/// Copies of the cells, texts and bytes with them.
#[tactic(auto, using(crate::proofs::Steps::push_rules))]
pub fn copy_cells(alloc: Global, cells: &[Cell]) -> Result<Vec<Cell>, AllocError>
    ensures { IfOk result (λ v. map tree v.items ≡ map tree cells.now) }
{
    let mut copies = Vec::with_capacity(alloc, cells.len())?;
    push_cells(cells, &mut copies)?;
    Ok(copies)
}

/// Copies of the cells, behind what stands.
#[tactic(auto, using(crate::proofs::Steps::push_rules))]
pub fn push_cells(cells: &[Cell], out: &mut Vec<Cell>) -> Result<(), AllocError>
    ensures { OnOk result (map tree out.new.items ≡ map tree out.old.items ++ map tree cells.now) }
{
    for cell in cells {
        out.push(cell.clone()?)?;
    }
    Ok(())
}

/// So many copies of the cell, behind what stands.
#[tactic(auto, using(crate::proofs::Steps::push_rules))]
pub fn push_copies(cell: &Cell, count: u64, out: &mut Vec<Cell>) -> Result<(), AllocError>
    ensures { OnOk result (map tree out.new.items ≡ map tree out.old.items ++ replicate count (tree cell.now)) }
{
    for _i in 0..count {
        out.push(cell.clone()?)?;
    }
    Ok(())
}
