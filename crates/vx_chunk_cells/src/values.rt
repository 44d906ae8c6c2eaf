//! Cells as a reader sees them.

ghost use Rattle.std.specs.Prelude.{◌≡◌, map, IfOk};
ghost use Rattle.vx_model.specs.ValueData.{value};
ghost use Rattle.vx_model.specs.TreeView.{tree, val};

use std::alloc::AllocError;
use vx_model::{Cell, Value};

/// The value of the cell: null where the cell is, or where its flag is false. Its text or bytes move.
#[cycle(values)]
#[tactic(auto, using(crate::proofs::ValueSteps::value_rules))]
pub fn into_value(cell: Cell) -> Result<Value, AllocError>
    ensures { IfOk result (λ v. val v ≡ value (tree cell)) }
{
    match cell {
        Cell::Null => Ok(Value::Null),
        Cell::Bool(b) => Ok(Value::Bool(b)),
        Cell::Int(n) => Ok(Value::Int(n)),
        Cell::Utf8(text) => Ok(Value::Utf8(text)),
        Cell::Binary(bytes) => Ok(Value::Binary(bytes)),
        Cell::List(valid, cells) => {
            if !valid {
                return Ok(Value::Null);
            }
            Ok(Value::List(into_values(cells)?))
        }
        Cell::Struct(valid, cells) => {
            if !valid {
                return Ok(Value::Null);
            }
            Ok(Value::Struct(into_values(cells)?))
        }
    }
}

/// The values of the cells, in order.
#[cycle(values)]
#[tactic(auto, using(crate::proofs::ValueSteps::value_rules))]
pub fn into_values(cells: Vec<Cell>) -> Result<Vec<Value>, AllocError>
    ensures { IfOk result (λ v. map val v.items ≡ map value (map tree cells.items)) }
{
    let mut values = Vec::with_capacity(*cells.allocator(), cells.len())?;
    for cell in cells {
        values.push(into_value(cell)?)?;
    }
    Ok(values)
}
