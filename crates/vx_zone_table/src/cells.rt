//! Values of a table as its cells.

ghost use Rattle.std.specs.Prelude.{◌≡◌, map, IfOk};
ghost use Rattle.vx_model.specs.Words.{all_by};
ghost use Rattle.vx_model.specs.ValueData.{is_null_value};
ghost use Rattle.vx_model.specs.TreeView.{tree, val};
ghost use Rattle.vx_zone_spec.specs.ZoneTable.{state_cell};

use std::alloc::AllocError;
use vx_model::{Cell, Value};

#[tactic(auto, using(vx_model::proofs::ValueSteps::value_rules))]
pub(crate) fn all_null(values: &[Value]) -> bool
    ensures { result ≡ all_by is_null_value (map val values.now) }
{
    for value in values {
        if !is_null(value) {
            return false;
        }
    }
    true
}

fn is_null(value: &Value) -> bool
    ensures { result ≡ is_null_value (val value.now) }
{
    matches!(value, Value::Null)
}

/// The values as cells, moved.
#[tactic(auto, using(crate::proofs::CellSteps::cell_rules))]
pub(crate) fn into_cells(values: Vec<Value>) -> Result<Vec<Cell>, AllocError>
    ensures { IfOk result (λ v. map tree v.items ≡ map state_cell (map val values.items)) }
{
    let mut cells = Vec::with_capacity(*values.allocator(), values.len())?;
    for value in values {
        cells.push(into_cell(value))?;
    }
    Ok(cells)
}

/// No aggregate has lists and structs.
#[tactic(auto, using(crate::proofs::CellSteps::cell_rules))]
fn into_cell(value: Value) -> Cell
    ensures { tree result ≡ state_cell (val value) }
{
    match value {
        Value::Bool(b) => Cell::Bool(b),
        Value::Int(n) => Cell::Int(n),
        Value::Utf8(text) => Cell::Utf8(text),
        Value::Binary(bytes) => Cell::Binary(bytes),
        Value::Null | Value::List(_) | Value::Struct(_) => Cell::Null,
    }
}
