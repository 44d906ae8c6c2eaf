//! Columns of a segment.

ghost use Rattle.std.specs.Prelude.{◌≤◌, List, length, IfOk, Some};
ghost use Rattle.vx_model.specs.Ty.{primitive};
ghost use Rattle.vx_model.specs.TyView.{ty};
ghost use Rattle.vx_model.specs.CellData.{CellData};
ghost use Rattle.vx_cell_codec.specs.Reading.{cells_at};
ghost use Rattle.vx_cell_codec.specs.Filled.{AreFilled};
ghost use Rattle.vx_cell_codec.specs.Views.{Gives};
ghost use Rattle.vx_strings.specs.StringCells.{string_type};
ghost use Rattle.vx_column.specs.ColumnView.{column_cells};

use crate::leaves::read_leaves;
use crate::strings::read_strings;
use std::alloc::Global;
use vx_cell_codec::{CellError, read_cells};
use vx_column::{AnyLeaves, Column};
use vx_model::{DType, PType};
use vx_strings::StringKind;

/// So many rows of the type, which fill the bytes: typed values where the type has them, else cells. Memory grows with
/// the bytes that are read, whatever `rows` claims.
pub fn read_column(
    alloc: Global,
    dtype: &DType,
    rows: u64,
    bytes: &[u8],
) -> Result<Column, CellError>
    // What is read is spelled so.
    ensures found { IfOk result (λ c. AreFilled (ty dtype.now) rows bytes.now (column_cells c)) }
    // What is spelled so is read, unless memory runs out.
    ensures only { (cs : List CellData) → AreFilled (ty dtype.now) rows bytes.now cs → Gives column_cells result (Some cs) }
    ensures exact { Gives column_cells result (cells_at (ty dtype.now) rows bytes.now) }
    ensures bounded { IfOk result (λ c. rows ≤ length bytes.now) }
{
    read_rows(alloc, dtype, rows, bytes)
}

/// The leaves that are read, as a column.
macro_rules! leaves_of {
    ($form:path, $alloc:expr, $nullable:expr, $rows:expr, $bytes:expr) => {
        match read_leaves($alloc, $nullable, $rows, $bytes) {
            Ok(leaves) => Ok(Column::Leaves($form(leaves))),
            Err(error) => Err(error),
        }
    };
}

#[tactic(auto, using(crate::proofs::FillSteps::rows_rules))]
fn read_rows(alloc: Global, dtype: &DType, rows: u64, bytes: &[u8]) -> Result<Column, CellError>
    ensures { Gives column_cells result (cells_at (ty dtype.now) rows bytes.now) }
{
    match dtype {
        DType::Bool(n) => leaves_of!(AnyLeaves::Bool, alloc, n.is_nullable(), rows, bytes),
        DType::Primitive(ptype, n) => read_numbers(alloc, *ptype, n.is_nullable(), rows, bytes),
        DType::Utf8(n) => strings_of(alloc, StringKind::Utf8, n.is_nullable(), rows, bytes),
        DType::Binary(n) => strings_of(alloc, StringKind::Binary, n.is_nullable(), rows, bytes),
        DType::Extension(ext) => read_rows(alloc, &ext.storage, rows, bytes),
        DType::List(..) | DType::Struct(..) => cells_of(alloc, dtype, rows, bytes),
    }
}

/// Those of integers.
fn read_numbers(
    alloc: Global,
    ptype: PType,
    nullable: bool,
    rows: u64,
    bytes: &[u8],
) -> Result<Column, CellError>
    ensures { Gives column_cells result (cells_at (primitive ptype nullable) rows bytes.now) }
{
    match ptype {
        PType::U8 => leaves_of!(AnyLeaves::U8, alloc, nullable, rows, bytes),
        PType::U16 => leaves_of!(AnyLeaves::U16, alloc, nullable, rows, bytes),
        PType::U32 => leaves_of!(AnyLeaves::U32, alloc, nullable, rows, bytes),
        PType::U64 => leaves_of!(AnyLeaves::U64, alloc, nullable, rows, bytes),
        PType::I8 => leaves_of!(AnyLeaves::I8, alloc, nullable, rows, bytes),
        PType::I16 => leaves_of!(AnyLeaves::I16, alloc, nullable, rows, bytes),
        PType::I32 => leaves_of!(AnyLeaves::I32, alloc, nullable, rows, bytes),
        PType::I64 => leaves_of!(AnyLeaves::I64, alloc, nullable, rows, bytes),
    }
}

/// Those of texts or of bytes.
fn strings_of(
    alloc: Global,
    kind: StringKind,
    nullable: bool,
    rows: u64,
    bytes: &[u8],
) -> Result<Column, CellError>
    ensures { Gives column_cells result (cells_at (string_type kind nullable) rows bytes.now) }
{
    match read_strings(alloc, kind, nullable, rows, bytes) {
        Ok(strings) => Ok(Column::Strings(strings)),
        Err(error) => Err(error),
    }
}

/// Those of lists or of structs.
fn cells_of(alloc: Global, dtype: &DType, rows: u64, bytes: &[u8]) -> Result<Column, CellError>
    ensures { Gives column_cells result (cells_at (ty dtype.now) rows bytes.now) }
{
    match read_cells(alloc, dtype, rows, bytes) {
        Ok(cells) => Ok(Column::Cells(cells)),
        Err(error) => Err(error),
    }
}
