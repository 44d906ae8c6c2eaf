//! What cells cost in a dictionary.

ghost use Rattle.std.specs.Prelude.{◌≡◌, ◌<◌, ◌^◌};
ghost use Rattle.vx_model.specs.TyView.{ty};
ghost use Rattle.vx_model.specs.TreeView.{tree};
ghost use Rattle.vx_rules.specs.Runs.{cell_cost};
ghost use Rattle.vx_runs.specs.Cutting.{other_cost};

use vx_model::{Cell, DType};

/// The bytes that a cell costs: of an integer its width, of a text or of bytes their length and 16 more.
#[tactic(auto, using(crate::proofs::CostSteps::cost_rules))]
pub(crate) fn cell_cost(dtype: &DType, cell: &Cell) -> u128
    ensures cost { result ≡ cell_cost (ty dtype.now) (tree cell.now) }
    ensures small { result < 2 ^ 65 }
{
    match dtype {
        DType::Primitive(p, _) => u128::from(p.byte_width()),
        DType::Bool(_) | DType::Utf8(_) | DType::Binary(_) => other_cost(cell),
        DType::List(..) | DType::Struct(..) | DType::Extension(_) => other_cost(cell),
    }
}

fn other_cost(cell: &Cell) -> u128
    ensures cost { result ≡ other_cost (tree cell.now) }
    ensures small { result < 2 ^ 65 }
{
    match cell {
        Cell::Utf8(text) => text.as_str().len() as u128 + 16,
        Cell::Binary(bytes) => bytes.as_slice().len() as u128 + 16,
        _ => 16,
    }
}
