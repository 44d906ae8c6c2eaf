//! Structs put together of columns, and rows that a validity makes null.

ghost use Rattle.std.specs.Prelude.{◌≡◌, true, if◌then◌else◌, map, drop, IfOk};
ghost use Rattle.vx_model.specs.Words.{head_or, tail};
ghost use Rattle.vx_model.specs.TreeView.{val};
ghost use Rattle.vx_model.specs.ValueData.{ValueData, null_value, bool_value};
ghost use Rattle.vx_layout_spec.specs.Rows.{zipped, kept, kept_rows};
ghost use Rattle.vx_read.specs.Parts.{rows_in, queued};

use std::alloc::{AllocError, Global};
use std::collections::VecDeque;
use vx_model::Value;

/// So many structs, each of the next value of each column; null where a column has ended.
#[tactic(auto, using(crate::proofs::StructSteps::zip_rules))]
pub(crate) fn zipped(
    alloc: Global,
    columns: Vec<Vec<Value>>,
    row_count: u64,
) -> Result<Vec<Value>, AllocError>
    ensures { IfOk result (λ v. rows_in v ≡ zipped row_count (map rows_in columns.items)) }
{
    let mut queues = queues_of(alloc, columns)?;
    let mut rows = Vec::new(alloc);
    for _row in 0..row_count {
        let fields = next_fields(alloc, &mut queues)?;
        rows.push(Value::Struct(fields))?;
    }
    Ok(rows)
}

/// The columns, to be taken from at the front.
#[tactic(auto, using(crate::proofs::StructSteps::zip_rules))]
fn queues_of(alloc: Global, columns: Vec<Vec<Value>>) -> Result<Vec<VecDeque<Value>>, AllocError>
    ensures { IfOk result (λ v. map queued v.items ≡ map rows_in columns.items) }
{
    let mut queues = Vec::with_capacity(alloc, columns.len())?;
    for column in columns {
        queues.push(VecDeque::from(column))?;
    }
    Ok(queues)
}

/// The next value of each column, taken from it.
#[tactic(auto, using(crate::proofs::StructSteps::zip_rules))]
fn next_fields(alloc: Global, queues: &mut [VecDeque<Value>]) -> Result<Vec<Value>, AllocError>
    ensures fields { IfOk result (λ v. rows_in v ≡ map (head_or null_value) (map queued queues.old)) }
    ensures rest { IfOk result (λ v. map queued queues.new ≡ map tail (map queued queues.old)) }
{
    let mut fields = Vec::with_capacity(alloc, queues.len())?;
    for queue in queues.iter_mut() {
        fields.push(next_value(queue))?;
    }
    Ok(fields)
}

#[tactic(auto, using(crate::proofs::StructSteps::zip_rules))]
fn next_value(queue: &mut VecDeque<Value>) -> Value
    ensures value { val result ≡ head_or null_value (queued queue.old) }
    ensures rest { queued queue.new ≡ tail (queued queue.old) }
{
    match queue.pop_front() {
        Some(value) => value,
        None => Value::Null,
    }
}

/// The rows, null where their flag is false.
#[tactic(auto, using(crate::proofs::StructSteps::keep_rules))]
pub(crate) fn kept(mut rows: Vec<Value>, flags: &[Value]) -> Vec<Value>
    ensures { rows_in result ≡ kept_rows (map val flags.now) (rows_in rows) }
{
    hide(&mut rows, flags);
    rows
}

#[tactic(auto, using(crate::proofs::StructSteps::keep_rules))]
fn hide(rows: &mut [Value], flags: &[Value])
    ensures { map val rows.new ≡ kept_rows (map val flags.now) (map val rows.old) }
{
    for (i, row) in rows.iter_mut().enumerate() {
        hide_one(row, flags, i);
    }
}

#[tactic(auto, using(crate::proofs::StructSteps::flag_rules))]
fn hide_one(row: &mut Value, flags: &[Value], place: usize)
    ensures { val row.new ≡ kept (head_or (bool_value true) (map val (drop place flags.now))) (val row.old) }
{
    if place < flags.len() && is_false(&flags[place]) {
        *row = Value::Null;
    }
}

#[tactic(auto, using(crate::proofs::StructSteps::flag_rules))]
fn is_false(flag: &Value) -> bool
    ensures { (v : ValueData) → kept (val flag.now) v ≡ (if result then null_value else v) }
{
    match flag {
        Value::Bool(valid) => !*valid,
        Value::Null
        | Value::Int(_)
        | Value::Utf8(_)
        | Value::Binary(_)
        | Value::List(_)
        | Value::Struct(_) => false,
    }
}
