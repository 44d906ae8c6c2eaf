//! Cells and values as text: what is nested as its type's own text.

use vx_case_lines::Answer;
use vx_model::{Cell, Value};

fn push_cell(answer: &mut Answer, cell: &Cell) {
    match cell {
        Cell::Null => answer.push_str("null"),
        Cell::Bool(flag) => answer.push(*flag),
        Cell::Int(n) => answer.push(*n),
        Cell::Utf8(text) => answer.push_debug(text.as_str()),
        Cell::Binary(bytes) => answer.push_debug(bytes.as_slice()),
        Cell::List(..) | Cell::Struct(..) => answer.push_debug(cell),
    }
}

/// With commas between them.
pub fn push_cells(answer: &mut Answer, cells: &[Cell]) {
    for i in 0..cells.len() {
        if i > 0 {
            answer.push_str(", ");
        }
        push_cell(answer, &cells[i]);
    }
}

/// The value, as a reader sees it.
pub fn push_value(answer: &mut Answer, value: &Value) {
    match value {
        Value::Null => answer.push_str("null"),
        Value::Bool(flag) => answer.push(*flag),
        Value::Int(n) => answer.push(*n),
        Value::Utf8(text) => answer.push_debug(text.as_str()),
        Value::Binary(bytes) => answer.push_debug(bytes.as_slice()),
        Value::List(_) | Value::Struct(_) => answer.push_debug(value),
    }
}

/// With commas between them.
pub fn push_values(answer: &mut Answer, values: &[Value]) {
    for i in 0..values.len() {
        if i > 0 {
            answer.push_str(", ");
        }
        push_value(answer, &values[i]);
    }
}
