//! Records as columns.

ghost use Rattle.std.specs.Prelude.{◌≡◌, [], map, IfOk, OnOk};
ghost use Rattle.std.specs.Vec.Iter.{into_iter_items};
ghost use Rattle.vx_model.specs.Words.{head_or, tail};
ghost use Rattle.vx_model.specs.ValueData.{null_value};
ghost use Rattle.vx_model.specs.TreeView.{val};
ghost use Rattle.vx_zone_spec.specs.ZoneTable.{filled};
ghost use Rattle.vx_zone_table.specs.Columns.{held_column, zone_values, filled_column};
ghost use Rattle.vx_zone_table.specs.Filling.{no_values, with_value, pushed};

use crate::column::TableColumn;
use crate::held::HeldColumn;
use std::alloc::{AllocError, Global};
use std::vec::IntoIter;
use vx_model::{Text, Value};

/// A value a zone in each column. Each value moves once.
#[tactic(auto, using(crate::proofs::FillSteps::fill_rules))]
pub(crate) fn fill(
    alloc: Global,
    columns: Vec<HeldColumn>,
    records: Vec<Vec<Value>>,
) -> Result<Vec<TableColumn>, AllocError>
    ensures { IfOk result (λ v. map filled_column v.items ≡ filled (map held_column columns.items) (map zone_values records.items)) }
{
    let mut table = empty_columns(alloc, columns, records.len())?;
    for zone in records {
        push_zone(&mut table, zone)?;
    }
    Ok(table)
}

/// Columns with room for so many zones.
#[tactic(auto, using(crate::proofs::FillSteps::empty_rules))]
fn empty_columns(
    alloc: Global,
    columns: Vec<HeldColumn>,
    zones: usize,
) -> Result<Vec<TableColumn>, AllocError>
    ensures { IfOk result (λ v. map filled_column v.items ≡ filled (map held_column columns.items) []) }
{
    let mut table = Vec::with_capacity(alloc, columns.len())?;
    for column in columns {
        table.push(empty_column(alloc, column, zones)?)?;
    }
    Ok(table)
}

fn empty_column(alloc: Global, column: HeldColumn, zones: usize) -> Result<TableColumn, AllocError>
    ensures { IfOk result (λ c. filled_column c ≡ no_values (held_column column)) }
{
    let HeldColumn { aggregate, state } = column;
    let name = Text::from(format!(in alloc; "{aggregate}")?);
    let values = Vec::with_capacity(alloc, zones)?;
    Ok(TableColumn {
        aggregate,
        name,
        state,
        values,
    })
}

/// A value behind each column; null where the zone has no more.
#[tactic(auto, using(crate::proofs::FillSteps::push_rules))]
fn push_zone(table: &mut Vec<TableColumn>, zone: Vec<Value>) -> Result<(), AllocError>
    ensures { OnOk result (map filled_column table.new.items ≡ pushed (map filled_column table.old.items) (zone_values zone)) }
{
    let mut values = zone.into_iter();
    for column in table.iter_mut() {
        push_value(column, next_value(&mut values))?;
    }
    Ok(())
}

#[tactic(auto, using(crate::proofs::FillSteps::next_rules))]
fn next_value(values: &mut IntoIter<Value>) -> Value
    ensures first { val result ≡ head_or null_value (map val (into_iter_items values.old)) }
    ensures rest { map val (into_iter_items values.new) ≡ tail (map val (into_iter_items values.old)) }
{
    match values.next() {
        Some(value) => value,
        None => Value::Null,
    }
}

#[tactic(auto, using(crate::proofs::FillSteps::value_rules))]
fn push_value(column: &mut TableColumn, value: Value) -> Result<(), AllocError>
    ensures { OnOk result (filled_column column.new ≡ with_value (filled_column column.old) (val value)) }
{
    column.values.push(value)?;
    Ok(())
}
