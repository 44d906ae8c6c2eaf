//! Dictionaries of rows.

ghost use Rattle.std.specs.Prelude.{◌≡◌, ◌<◌, ◌≤◌, false, length, map, IsTrue, IfOk, OnOk, MatchOption};
ghost use Rattle.vx_model.specs.Words.{all_by};
ghost use Rattle.vx_model.specs.Ty.{primitive};
ghost use Rattle.vx_model.specs.CellData.{fits};
ghost use Rattle.vx_model.specs.ChunkData.{is_dict_type};
ghost use Rattle.vx_model.specs.TyView.{ty};
ghost use Rattle.vx_model.specs.TreeView.{tree};
ghost use Rattle.vx_typed.specs.Lent.{lent_cell};
ghost use Rattle.vx_column.specs.ColumnView.{column_cells};
ghost use Rattle.vx_rules.specs.Columns.{offset_cell};
ghost use Rattle.vx_rules.specs.Runs.{with_cell, place_in};
ghost use Rattle.vx_compressor_spec.specs.TableImage.{distinct, codes_of, code_ptype as ptype_of, dictionary as dictionary_of};
ghost use Rattle.vx_table_compressor.specs.Images.{is_plain};

use std::alloc::{AllocError, Global};
use vx_chunk::Chunk;
use vx_column::Column;
use vx_model::{Cell, DType, Nullability, PType};
use vx_slots::CellTable;
use vx_typed::{Lent, own_cell};

/// The dictionary of the cells, where at most so many of them are distinct.
#[tactic(auto, using(crate::proofs::CodeSteps::dictionary_rules))]
pub(crate) fn dictionary(
    alloc: Global,
    dtype: &DType,
    column: &Column,
    most: u64,
) -> Result<Option<Chunk>, AllocError>
    requires dict { IsTrue (is_dict_type (ty dtype.now)) }
    requires fit { IsTrue (all_by (fits (ty dtype.now)) (column_cells column.now)) }
    ensures { IfOk result (λ r. MatchOption r (most < length (distinct (column_cells column.now)))
        (λ c. (length (distinct (column_cells column.now)) ≤ most) × (c ≡ dictionary_of (ty dtype.now) (column_cells column.now)))) }
{
    let Some(coded) = codes_and_values(alloc, column, most)? else {
        return Ok(None);
    };
    let Coded { codes, values } = coded;
    let codes = Chunk::typed(alloc, code_dtype(values.len()), codes)?;
    let values = Chunk::typed(alloc, dtype.clone()?, values.into_cells())?;
    match Chunk::dict(alloc, codes, values) {
        Ok(chunk) => Ok(Some(chunk)),
        Err(_) => Err(AllocError),
    }
}

/// The type of the codes of so many values.
fn code_dtype(count: u64) -> DType
    ensures { ty result ≡ primitive (ptype_of count) false }
{
    DType::Primitive(code_ptype(count), Nullability::NonNullable)
}

/// The narrowest type that has the places of so many values.
fn code_ptype(count: u64) -> PType
    ensures { result ≡ ptype_of count }
{
    if count <= 256 {
        PType::U8
    } else if count <= 65_536 {
        PType::U16
    } else if count <= 4_294_967_296 {
        PType::U32
    } else {
        PType::U64
    }
}

/// The distinct cells in order of first occurrence, and for each row the place of its cell among them.
#[derive(Drop)]
struct Coded {
    codes: Vec<Cell>,
    values: CellTable,
}

/// Looks at the cells until more than so many are distinct.
#[tactic(auto, using(crate::proofs::CodeSteps::code_rules))]
fn codes_and_values(alloc: Global, column: &Column, most: u64) -> Result<Option<Coded>, AllocError>
    requires { IsTrue (all_by is_plain (column_cells column.now)) }
    ensures { IfOk result (λ r. MatchOption r (most < length (distinct (column_cells column.now)))
        (λ c. (length c.values ≤ most) × (c.values ≡ distinct (column_cells column.now)) × (map tree c.codes.items ≡ map offset_cell (codes_of (distinct (column_cells column.now)) (column_cells column.now))))) }
{
    let mut values = CellTable::new(alloc);
    let rows = column.len();
    let mut codes = Vec::with_capacity(alloc, rows)?;
    for row in 0..rows {
        let code = place(&mut values, alloc, column.row(row))?;
        let count = values.len();
        if count > most {
            return Ok(None);
        }
        codes.push(code_cell(code))?;
    }
    Ok(Some(Coded { codes, values }))
}

#[tactic(auto, using(vx_chunk_cells::proofs::CodeSteps::tree_int))]
fn code_cell(code: u64) -> Cell
    ensures { tree result ≡ offset_cell code }
{
    Cell::Int(i128::from(code))
}

/// The cell's place, at the end where it is new.
#[tactic(auto, using(crate::proofs::CodeSteps::place_rules))]
fn place(values: &mut CellTable, alloc: Global, cell: Lent<'_>) -> Result<u64, AllocError>
    requires { IsTrue (is_plain (lent_cell cell)) }
    ensures values { OnOk result (values.new ≡ with_cell values.old (lent_cell cell.entry)) }
    ensures place { IfOk result (λ k. k ≡ place_in (lent_cell cell.entry) values.new) }
{
    if let Some(place) = values.find_lent(cell) {
        return Ok(place);
    }
    let place = values.len();
    values.push(own_cell(alloc, cell)?)?;
    Ok(place)
}
