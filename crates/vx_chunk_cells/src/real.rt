//! That cells in memory are real: texts are UTF-8, bytes below 256, lengths fit 64 bits.

ghost use Rattle.std.specs.Prelude.{◌<◌, ◌^◌, length, map, IsTrue};
ghost use Rattle.vx_model.specs.Words.{all_by};
ghost use Rattle.vx_model.specs.TreeView.{tree};
ghost use Rattle.vx_layout_spec.specs.Real.{is_byte, is_real_cell};

use vx_model::Cell;

/// Changes nothing; tells a caller's proof that the cells are real. Looks at each cell once.
#[cycle(cells)]
#[tactic(auto, using(crate::proofs::RealSteps::real_rules))]
pub fn real_cells(cells: &[Cell])
    ensures cells { IsTrue (all_by is_real_cell (map tree cells.now)) }
    ensures short { length cells.now < 2 ^ 64 }
{
    let _count = cells.len();
    for cell in cells {
        real_cell(cell);
    }
}

/// The same of one cell and those below it.
#[cycle(cells)]
#[tactic(auto, using(crate::proofs::RealSteps::real_rules))]
pub fn real_cell(cell: &Cell)
    ensures { IsTrue (is_real_cell (tree cell.now)) }
{
    match cell {
        Cell::Null | Cell::Bool(_) | Cell::Int(_) => (),
        Cell::Utf8(text) => {
            let _text = text.as_str();
        }
        Cell::Binary(bytes) => real_bytes(bytes.as_slice()),
        Cell::List(_, cells) => real_cells(cells),
        Cell::Struct(_, cells) => real_cells(cells),
    }
}

#[tactic(auto, using(crate::proofs::RealSteps::real_rules))]
fn real_bytes(bytes: &[u8])
    ensures bytes { IsTrue (all_by is_byte bytes.now) }
    ensures short { length bytes.now < 2 ^ 64 }
{
    let _count = bytes.len();
}
