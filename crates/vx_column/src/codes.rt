//! Codes in columns.

ghost use Rattle.std.specs.Prelude.{◌≡◌, ◌<◌, length, slice_index_or};
ghost use Rattle.vx_model.specs.Words.{all_by};
ghost use Rattle.vx_model.specs.CellData.{null_cell};
ghost use Rattle.vx_model.specs.ChunkData.{is_code as is_place};
ghost use Rattle.vx_model.specs.TreeView.{tree};
ghost use Rattle.vx_column.specs.ColumnView.{column_cells, place_of as place_told, is_below as below};

use crate::column::Column;
use vx_model::Cell;

impl Column {
    /// The place that the code of a row tells.
    #[tactic(auto, using(crate::proofs::Steps::code_rules))]
    pub fn place(&self, row: usize) -> Option<u128>
        requires { row < length (column_cells self.now) }
        ensures { result ≡ place_told (slice_index_or (column_cells self.now) row null_cell) }
    {
        match self {
            Column::Leaves(leaves) => place_of(&leaves.get(row)),
            Column::Strings(strings) => {
                strings.are_strings();
                None
            }
            Column::Cells(cells) => place_of(&cells[row]),
        }
    }

    /// Whether each of the cells is a code below the number of values.
    #[tactic(auto, using(crate::proofs::Steps::code_rules))]
    pub fn are_places(&self, count: u64) -> bool
        ensures { result ≡ all_by (is_place count) (column_cells self.now) }
    {
        for row in 0..self.len() {
            if !is_below(self.place(row), count) {
                return false;
            }
        }
        true
    }
}

/// The place that a code tells.
#[tactic(auto, using(crate::proofs::Steps::code_rules))]
pub fn place_of(cell: &Cell) -> Option<u128>
    ensures { result ≡ place_told (tree cell.now) }
{
    match cell {
        Cell::Int(n) => { if 0 <= *n { Some(*n as u128) } else { None } }
        Cell::Null | Cell::Bool(_) | Cell::Utf8(_) | Cell::Binary(_) => None,
        Cell::List(..) | Cell::Struct(..) => None,
    }
}

fn is_below(place: Option<u128>, count: u64) -> bool
    ensures { result ≡ below count place }
{
    match place {
        Some(n) => n < u128::from(count),
        None => false,
    }
}
