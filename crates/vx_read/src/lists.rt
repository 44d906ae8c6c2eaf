//! Lists cut out of their elements.

ghost use Rattle.std.specs.Prelude.{◌≡◌, ◌≤◌, map, take, drop, length, pos, IfOk};
ghost use Rattle.vx_model.specs.TreeView.{val};
ghost use Rattle.vx_model.specs.ValueData.{int_value};
ghost use Rattle.vx_layout_spec.specs.Rows.{lists_of};
ghost use Rattle.vx_read.specs.Parts.{rows_in, queued};
ghost use Rattle.vx_read.specs.Reading.{number_of, offset_fault, offsets_fault};
ghost use Rattle.vx_read.specs.Answers.{TellsFault, Reads};

use std::alloc::{AllocError, Global};
use std::collections::VecDeque;
use vx_model::Value;
use vx_segment_map::ReadError;

/// A list of the elements from each offset to the next.
#[tactic(auto, using(crate::proofs::ListSteps::list_rules))]
pub(crate) fn lists(
    alloc: Global,
    elements: Vec<Value>,
    offsets: &[Value],
) -> Result<Vec<Value>, ReadError>
    ensures { Reads rows_in result (lists_of (rows_in elements) (map val offsets.now)) (offsets_fault (length elements.items) 0 (map val offsets.now)) }
{
    let mut rows = Vec::with_capacity(alloc, offsets.len())?;
    if offsets.is_empty() {
        return Ok(rows);
    }
    let count = elements.len() as u64;
    let mut rest = VecDeque::from(elements);
    let mut last = offset_within(&offsets[0], 0, count)?;
    let _skipped = next_elements(alloc, &mut rest, last)?;
    for i in 1..offsets.len() {
        let end = offset_within(&offsets[i], last, count)?;
        let list = next_elements(alloc, &mut rest, end - last)?;
        rows.push(Value::List(list))?;
        last = end;
    }
    Ok(rows)
}

/// The offset, where it lies from the last one to the number of elements.
#[tactic(auto, using(crate::proofs::ListSteps::offset_rules))]
fn offset_within(offset: &Value, last: u64, count: u64) -> Result<u64, ReadError>
    ensures number { IfOk result (λ n. val offset.now ≡ int_value (pos n)) }
    ensures after { IfOk result (λ n. last ≤ n) }
    ensures within { IfOk result (λ n. n ≤ count) }
    ensures fault { TellsFault result (offset_fault count last (number_of (val offset.now))) }
{
    let needs = number_of(offset);
    if needs < i128::from(last) {
        return Err(ReadError::Rows { has: last, needs });
    }
    if needs > i128::from(count) {
        return Err(ReadError::Rows { has: count, needs });
    }
    Ok(needs as u64)
}

/// The integer, or -1 where the value is none.
#[tactic(auto, using(crate::proofs::ListSteps::number_rules))]
fn number_of(value: &Value) -> i128
    ensures { result ≡ number_of (val value.now) }
{
    match value {
        Value::Int(n) => *n,
        Value::Null
        | Value::Bool(_)
        | Value::Utf8(_)
        | Value::Binary(_)
        | Value::List(_)
        | Value::Struct(_) => -1,
    }
}

/// The next elements, at most so many, taken from the others.
#[tactic(auto, using(crate::proofs::ListSteps::element_rules))]
fn next_elements(
    alloc: Global,
    elements: &mut VecDeque<Value>,
    count: u64,
) -> Result<Vec<Value>, AllocError>
    ensures taken { IfOk result (λ v. rows_in v ≡ take count (queued elements.old)) }
    ensures rest { IfOk result (λ _. queued elements.new ≡ drop count (queued elements.old)) }
{
    let mut taken = Vec::new(alloc);
    for _i in 0..count {
        match elements.pop_front() {
            Some(element) => taken.push(element)?,
            None => return Ok(taken),
        }
    }
    Ok(taken)
}
