//! Tests of codes.

ghost use Rattle.std.specs.Prelude.{◌≡◌, map};
ghost use Rattle.vx_model.specs.Words.{all_by};
ghost use Rattle.vx_model.specs.TreeView.{tree};
ghost use Rattle.vx_model.specs.ChunkData.{is_code as is_place};

use vx_model::Cell;

/// Whether each of the cells is a code below the number of values.
#[tactic(auto, using(crate::proofs::CodeSteps::code_rules))]
pub fn are_places(cells: &[Cell], count: u64) -> bool
    ensures { result ≡ all_by (is_place count) (map tree cells.now) }
{
    for cell in cells {
        if !is_code(cell, count) {
            return false;
        }
    }
    true
}

/// Whether the cell is a code below the number of values.
#[tactic(auto, using(crate::proofs::CodeSteps::code_rules))]
pub fn is_code(cell: &Cell, count: u64) -> bool
    ensures { result ≡ is_place count (tree cell.now) }
{
    match cell {
        Cell::Int(n) => 0 <= *n && *n < i128::from(count),
        _ => false,
    }
}
