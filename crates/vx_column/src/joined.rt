//! Columns behind others, and columns cut in two.

ghost use Rattle.std.specs.Prelude.{◌≡◌, ◌≤◌, ◌++◌, [], length, take, drop, map, IfOk};
ghost use Rattle.vx_model.specs.TreeView.{tree};
ghost use Rattle.vx_column.specs.ColumnView.{leaf_cells, column_cells};

use crate::column::Column;
use crate::leaves::AnyLeaves;
use std::alloc::{AllocError, Global};
use vx_model::Cell;
use vx_strings::Strings;

impl Column {
    /// These rows, and the others behind them. Typed values of one type stay in the same memory where nothing else
    /// shares it; those of two types become cells. Where one has no rows, the other as it is.
    #[tactic(auto, using(crate::proofs::JoinSteps::join_rules))]
    pub fn append(self, alloc: Global, others: Column) -> Result<Column, AllocError>
        ensures { IfOk result (λ c. column_cells c ≡ column_cells self ++ column_cells others) }
    {
        if self.len() == 0 {
            drop(self);
            return Ok(others);
        }
        if others.len() == 0 {
            drop(others);
            return Ok(self);
        }
        rows_then(self, alloc, others)
    }

    /// The rows before a place, and those from it on: typed values in the same memory, cells moved.
    pub fn split(self, alloc: Global, at: u64) -> Result<(Column, Column), AllocError>
        requires { at ≤ length (column_cells self) }
        ensures front { IfOk result (λ r. column_cells r.0 ≡ take at (column_cells self)) }
        ensures back { IfOk result (λ r. column_cells r.1 ≡ drop at (column_cells self)) }
    {
        match self {
            Column::Cells(cells) => cells_apart(cells, at as usize),
            other => {
                let parts = slices(&other, alloc, at);
                drop(other);
                parts
            }
        }
    }
}

/// A column of no rows; takes no memory.
pub fn no_rows(alloc: Global) -> Column
    ensures { column_cells result ≡ [] }
{
    Column::Cells(Vec::new(alloc))
}

fn rows_then(column: Column, alloc: Global, others: Column) -> Result<Column, AllocError>
    ensures { IfOk result (λ c. column_cells c ≡ column_cells column ++ column_cells others) }
{
    match column {
        Column::Leaves(leaves) => leaves_then(leaves, alloc, others),
        Column::Strings(strings) => strings_then(strings, alloc, others),
        Column::Cells(cells) => cells_then(cells, others),
    }
}

fn leaves_then(leaves: AnyLeaves, alloc: Global, others: Column) -> Result<Column, AllocError>
    ensures { IfOk result (λ c. column_cells c ≡ leaf_cells leaves ++ column_cells others) }
{
    match others {
        Column::Leaves(more) => match leaves.append(alloc, &more)? {
            Ok(leaves) => Ok(Column::Leaves(leaves)),
            Err(leaves) => behind(Column::Leaves(leaves), alloc, Column::Leaves(more)),
        },
        other => behind(Column::Leaves(leaves), alloc, other),
    }
}

fn strings_then(strings: Strings, alloc: Global, others: Column) -> Result<Column, AllocError>
    ensures { IfOk result (λ c. column_cells c ≡ strings ++ column_cells others) }
{
    match others {
        Column::Strings(more) => match strings.append(alloc, &more)? {
            Ok(strings) => Ok(Column::Strings(strings)),
            Err(strings) => behind(Column::Strings(strings), alloc, Column::Strings(more)),
        },
        other => behind(Column::Strings(strings), alloc, other),
    }
}

/// The rows as cells, and the others behind them.
fn behind(column: Column, alloc: Global, others: Column) -> Result<Column, AllocError>
    ensures { IfOk result (λ c. column_cells c ≡ column_cells column ++ column_cells others) }
{
    match column.into_cells(alloc) {
        Ok(cells) => cells_then(cells, others),
        Err(error) => {
            drop(others);
            Err(error)
        }
    }
}

#[tactic(auto, using(crate::proofs::JoinSteps::join_rules))]
fn cells_then(mut cells: Vec<Cell>, others: Column) -> Result<Column, AllocError>
    ensures { IfOk result (λ c. column_cells c ≡ map tree cells.items ++ column_cells others) }
{
    match others {
        Column::Cells(mut more) => {
            cells.append(&mut more)?;
            Ok(Column::Cells(cells))
        }
        other => {
            let rows = other.len() as u64;
            other.push_between(0, rows, &mut cells)?;
            Ok(Column::Cells(cells))
        }
    }
}

/// The rows before a place, and those from it on, as `slice` gives them.
#[tactic(auto, using(crate::proofs::JoinSteps::split_rules))]
fn slices(column: &Column, alloc: Global, at: u64) -> Result<(Column, Column), AllocError>
    requires { at ≤ length (column_cells column.now) }
    ensures front { IfOk result (λ r. column_cells r.0 ≡ take at (column_cells column.now)) }
    ensures back { IfOk result (λ r. column_cells r.1 ≡ drop at (column_cells column.now)) }
{
    let front = column.slice(alloc, 0, at)?;
    let back = column.slice(alloc, at, column.len() as u64)?;
    Ok((front, back))
}

/// The same of cells, which are moved.
#[tactic(auto, using(crate::proofs::JoinSteps::split_rules))]
fn cells_apart(cells: Vec<Cell>, at: usize) -> Result<(Column, Column), AllocError>
    requires { at ≤ length cells.items }
    ensures front { IfOk result (λ r. column_cells r.0 ≡ take at (map tree cells.items)) }
    ensures back { IfOk result (λ r. column_cells r.1 ≡ drop at (map tree cells.items)) }
{
    let (front, back) = split_cells(cells, at)?;
    Ok((Column::Cells(front), Column::Cells(back)))
}

/// The cells before a place, and those from it on, which use at least half of their room.
#[tactic(auto, using(crate::proofs::JoinSteps::split_rules))]
fn split_cells(mut cells: Vec<Cell>, at: usize) -> Result<(Vec<Cell>, Vec<Cell>), AllocError>
    requires { at ≤ length cells.items }
    ensures front { IfOk result (λ r. r.0.items ≡ take at cells.items) }
    ensures back { IfOk result (λ r. r.1.items ≡ drop at cells.items) }
{
    if at == 0 {
        let empty = Vec::new(*cells.allocator());
        return Ok((empty, trimmed(cells)));
    }
    let back = cells.split_off(at)?;
    Ok((cells, trimmed(back)))
}

/// Gives room back where less than half of it is used.
fn trimmed(mut cells: Vec<Cell>) -> Vec<Cell>
    ensures { result.items ≡ cells.items }
{
    if cells.len() < cells.capacity() / 2 {
        cells.shrink_to_fit();
    }
    cells
}
