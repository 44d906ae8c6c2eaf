//! Columns of cells, and cells of columns.

ghost use Rattle.std.specs.Prelude.{◌≡◌, ◌≤◌, ◌++◌, length, map, IfOk, IfSome, OnOk};
ghost use Rattle.vx_model.specs.TreeView.{tree};
ghost use Rattle.vx_chunk_cells.specs.Window.{window};
ghost use Rattle.vx_column.specs.ColumnView.{column_cells};

use crate::column::Column;
use crate::leaves::AnyLeaves;
use std::alloc::{AllocError, Global};
use vx_chunk_cells::push_cells;
use vx_model::{Cell, DType, PType};
use vx_strings::{StringKind, Strings};
use vx_typed::Leaves;

impl Column {
    /// The column of the cells: typed where each of them is a value of the type or null, and the type has typed values;
    /// else they are moved.
    pub fn from_cells(alloc: Global, dtype: &DType, cells: Vec<Cell>) -> Result<Column, AllocError>
        ensures { IfOk result (λ c. column_cells c ≡ map tree cells.items) }
    {
        match typed(alloc, dtype, &cells)? {
            Some(column) => {
                drop(cells);
                Ok(column)
            }
            None => Ok(Column::Cells(cells)),
        }
    }

    /// The cells; those of a column of cells are moved.
    pub fn into_cells(self, alloc: Global) -> Result<Vec<Cell>, AllocError>
        ensures { IfOk result (λ v. map tree v.items ≡ column_cells self) }
    {
        match self {
            Column::Cells(cells) => Ok(cells),
            other => {
                let cells = all_cells(&other, alloc);
                drop(other);
                cells
            }
        }
    }

    /// Appends the cells of rows `from` to `to`, copies.
    #[tactic(auto, using(crate::proofs::Steps::cell_rules))]
    pub fn push_between(&self, from: u64, to: u64, out: &mut Vec<Cell>) -> Result<(), AllocError>
        requires order { from ≤ to }
        requires within { to ≤ length (column_cells self.now) }
        ensures { OnOk result (map tree out.new.items ≡ map tree out.old.items ++ window from to (column_cells self.now)) }
    {
        let (from, to) = (from as usize, to as usize);
        match self {
            Column::Leaves(leaves) => {
                let part = leaves.slice(from, to)?;
                part.push_cells(out)
            }
            Column::Strings(strings) => {
                let part = strings.slice(from, to)?;
                part.push_cells(out)
            }
            Column::Cells(cells) => push_cells(&cells[from..to], out),
        }
    }
}

/// The cells of all rows, copies.
#[tactic(auto, using(crate::proofs::Steps::cell_rules))]
fn all_cells(column: &Column, alloc: Global) -> Result<Vec<Cell>, AllocError>
    ensures { IfOk result (λ v. map tree v.items ≡ column_cells column.now) }
{
    let mut cells = Vec::with_capacity(alloc, column.len())?;
    push_all(column, &mut cells)?;
    Ok(cells)
}

fn push_all(column: &Column, out: &mut Vec<Cell>) -> Result<(), AllocError>
    ensures { OnOk result (map tree out.new.items ≡ map tree out.old.items ++ column_cells column.now) }
{
    match column {
        Column::Leaves(leaves) => leaves.push_cells(out),
        Column::Strings(strings) => strings.push_cells(out),
        Column::Cells(cells) => push_cells(cells, out),
    }
}

/// The typed column of the cells; `None` where the type has no typed values or not all of the cells.
fn typed(alloc: Global, dtype: &DType, cells: &[Cell]) -> Result<Option<Column>, AllocError>
    ensures { IfOk result (λ o. IfSome o (λ c. column_cells c ≡ map tree cells.now)) }
{
    match dtype {
        DType::Bool(_) => bools(alloc, cells),
        DType::Primitive(ptype, _) => numbers(alloc, *ptype, cells),
        DType::Utf8(_) => strings(alloc, StringKind::Utf8, cells),
        DType::Binary(_) => strings(alloc, StringKind::Binary, cells),
        DType::Extension(ext) => typed(alloc, &ext.storage, cells),
        DType::List(..) | DType::Struct(..) => Ok(None),
    }
}

/// A column of the values, where there are such.
macro_rules! column_of {
    ($values:expr, $form:path) => {
        match $values {
            Some(values) => Ok(Some(Column::Leaves($form(values)))),
            None => Ok(None),
        }
    };
}

fn bools(alloc: Global, cells: &[Cell]) -> Result<Option<Column>, AllocError>
    ensures { IfOk result (λ o. IfSome o (λ c. column_cells c ≡ map tree cells.now)) }
{
    column_of!(Leaves::from_cells(alloc, cells)?, AnyLeaves::Bool)
}

fn numbers(alloc: Global, ptype: PType, cells: &[Cell]) -> Result<Option<Column>, AllocError>
    ensures { IfOk result (λ o. IfSome o (λ c. column_cells c ≡ map tree cells.now)) }
{
    match ptype {
        PType::U8 => column_of!(Leaves::from_cells(alloc, cells)?, AnyLeaves::U8),
        PType::U16 => column_of!(Leaves::from_cells(alloc, cells)?, AnyLeaves::U16),
        PType::U32 => column_of!(Leaves::from_cells(alloc, cells)?, AnyLeaves::U32),
        PType::U64 => column_of!(Leaves::from_cells(alloc, cells)?, AnyLeaves::U64),
        PType::I8 => column_of!(Leaves::from_cells(alloc, cells)?, AnyLeaves::I8),
        PType::I16 => column_of!(Leaves::from_cells(alloc, cells)?, AnyLeaves::I16),
        PType::I32 => column_of!(Leaves::from_cells(alloc, cells)?, AnyLeaves::I32),
        PType::I64 => column_of!(Leaves::from_cells(alloc, cells)?, AnyLeaves::I64),
    }
}

fn strings(alloc: Global, kind: StringKind, cells: &[Cell]) -> Result<Option<Column>, AllocError>
    ensures { IfOk result (λ o. IfSome o (λ c. column_cells c ≡ map tree cells.now)) }
{
    match Strings::from_cells(alloc, kind, cells)? {
        Some(strings) => Ok(Some(Column::Strings(strings))),
        None => Ok(None),
    }
}
