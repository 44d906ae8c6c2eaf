//! Cells that are the same.

ghost use Rattle.std.specs.Prelude.{◌≡◌};
ghost use Rattle.vx_model.specs.TreeView.{tree};
ghost use Rattle.vx_typed.specs.Lent.{lent_cell};
ghost use Rattle.vx_rules.specs.Runs.{same_cell};

use vx_model::Cell;
use vx_typed::Lent;

/// Whether a dictionary takes the cells for the same. No list and no struct is the same as another, or as itself.
pub(crate) fn same_cell(a: &Cell, b: Lent<'_>) -> bool
    ensures { result ≡ same_cell (tree a.now) (lent_cell b.entry) }
{
    match (a, b) {
        (Cell::Null, Lent::Null) => true,
        (Cell::Bool(a), Lent::Bool(b)) => *a == b,
        (Cell::Int(a), Lent::Int(b)) => *a == b,
        (Cell::Utf8(a), Lent::Utf8(b)) => a.as_str().as_bytes() == b.as_bytes(),
        (Cell::Binary(a), Lent::Binary(b)) => a.as_slice() == b,
        _ => false,
    }
}
