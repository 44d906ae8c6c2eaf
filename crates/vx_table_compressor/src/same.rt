//! Cells that are the same, flags and kept items too.

ghost use Rattle.std.specs.Prelude.{◌≡◌, map};
ghost use Rattle.vx_model.specs.CellData.{trees_of};
ghost use Rattle.vx_model.specs.TreeView.{tree};
ghost use Rattle.vx_typed.specs.Lent.{lent_cell};
ghost use Rattle.vx_column.specs.ColumnView.{column_cells};
ghost use Rattle.vx_compressor_spec.specs.TableImage.{tree_eq, trees_eq};
ghost use Rattle.vx_table_compressor.specs.Images.{are_alike as alike};

use vx_column::Column;
use vx_model::Cell;
use vx_typed::Lent;

/// Whether there is a row and all cells are the same.
#[tactic(auto, using(crate::proofs::SameSteps::alike_rules))]
pub(crate) fn are_alike(column: &Column) -> bool
    ensures { result ≡ alike (column_cells column.now) }
{
    let rows = column.len();
    if rows == 0 {
        return false;
    }
    let first = column.row(0);
    for row in 1..rows {
        if !same_lent(first, column.row(row)) {
            return false;
        }
    }
    true
}

fn same_lent(a: Lent<'_>, b: Lent<'_>) -> bool
    ensures { result ≡ tree_eq (lent_cell a.entry) (lent_cell b.entry) }
{
    match (a, b) {
        (Lent::Null, Lent::Null) => true,
        (Lent::Bool(a), Lent::Bool(b)) => a == b,
        (Lent::Int(a), Lent::Int(b)) => a == b,
        (Lent::Utf8(a), Lent::Utf8(b)) => a.as_bytes() == b.as_bytes(),
        (Lent::Binary(a), Lent::Binary(b)) => a == b,
        (Lent::List(v, a), Lent::List(w, b)) => v == w && same_all(a, b),
        (Lent::Struct(v, a), Lent::Struct(w, b)) => v == w && same_all(a, b),
        _ => false,
    }
}

#[cycle(same)]
#[tactic(auto, using(crate::proofs::SameSteps::same_rules))]
fn same(a: &Cell, b: &Cell) -> bool
    ensures { result ≡ tree_eq (tree a.now) (tree b.now) }
{
    match (a, b) {
        (Cell::Null, Cell::Null) => true,
        (Cell::Bool(a), Cell::Bool(b)) => *a == *b,
        (Cell::Int(a), Cell::Int(b)) => *a == *b,
        (Cell::Utf8(a), Cell::Utf8(b)) => a.as_str().as_bytes() == b.as_str().as_bytes(),
        (Cell::Binary(a), Cell::Binary(b)) => a.as_slice() == b.as_slice(),
        (Cell::List(v, a), Cell::List(w, b)) => *v == *w && same_all(a, b),
        (Cell::Struct(v, a), Cell::Struct(w, b)) => *v == *w && same_all(a, b),
        _ => false,
    }
}

#[cycle(same)]
#[tactic(auto, using(crate::proofs::SameSteps::same_rules))]
fn same_all(a: &[Cell], b: &[Cell]) -> bool
    ensures { result ≡ trees_eq (trees_of (map tree a.now)) (trees_of (map tree b.now)) }
{
    if a.len() != b.len() {
        return false;
    }
    for i in 0..a.len() {
        if !same(&a[i], &b[i]) {
            return false;
        }
    }
    true
}
