//! Values at codes.

ghost use Rattle.std.specs.Prelude.{◌≡◌, map, length};
ghost use Rattle.vx_model.specs.TreeView.{val};
ghost use Rattle.vx_model.specs.ValueData.{int_value};
ghost use Rattle.vx_layout_spec.specs.Rows.{all_there, picked};
ghost use Rattle.vx_read.specs.Parts.{rows_in};
ghost use Rattle.vx_read.specs.Reading.{place_fault, code_fault, codes_fault};
ghost use Rattle.vx_read.specs.Answers.{Reads};

use std::alloc::Global;
use vx_model::Value;
use vx_segment_map::ReadError;

/// A copy of the value at each code, null for a null code.
#[tactic(auto, using(crate::proofs::DictSteps::pick_rules))]
pub(crate) fn picked(
    alloc: Global,
    values: &[Value],
    codes: &[Value],
) -> Result<Vec<Value>, ReadError>
    ensures { Reads rows_in result (all_there (map (picked (map val values.now)) (map val codes.now))) (codes_fault (length values.now) (map val codes.now)) }
{
    let mut rows = Vec::with_capacity(alloc, codes.len())?;
    for code in codes {
        let value = picked_one(values, code)?;
        rows.push(value)?;
    }
    Ok(rows)
}

#[tactic(auto, using(crate::proofs::DictSteps::code_rules))]
fn picked_one(values: &[Value], code: &Value) -> Result<Value, ReadError>
    ensures { Reads val result (picked (map val values.now) (val code.now)) (code_fault (length values.now) (val code.now)) }
{
    match code {
        Value::Null => Ok(Value::Null),
        Value::Int(place) => value_at(values, *place),
        Value::Bool(_) | Value::Utf8(_) | Value::Binary(_) | Value::List(_) | Value::Struct(_) =>
            value_at(values, -1),
    }
}

#[tactic(auto, using(crate::proofs::DictSteps::place_rules))]
fn value_at(values: &[Value], place: i128) -> Result<Value, ReadError>
    ensures { Reads val result (picked (map val values.now) (int_value place)) (place_fault (length values.now) place) }
{
    if let Ok(i) = usize::try_from(place) {
        if i < values.len() {
            return Ok(values[i].clone()?);
        }
    }
    Err(ReadError::Rows {
        has: values.len() as u64,
        needs: place,
    })
}
