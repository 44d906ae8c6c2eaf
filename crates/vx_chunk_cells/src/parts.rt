//! Lists and structs of cells taken apart.

ghost use Rattle.std.specs.Prelude.{◌≡◌, ◌≤◌, ◌∷◌, [], ◌++◌, ◌+◌, ◌-◌, ◌*◌, ◌^◌, length, map, replicate, IsTrue, IfOk, OnOk};
ghost use Rattle.vx_model.specs.Words.{all_by};
ghost use Rattle.vx_model.specs.CellData.{bool_cell};
ghost use Rattle.vx_model.specs.TreeView.{tree};
ghost use Rattle.vx_chunk_cells.specs.Columns.{trees_in, rows_across};
ghost use Rattle.vx_chunk_cells.specs.Parts.{row_flags, fields_of, has_width};
ghost use Rattle.vx_layout_spec.specs.Parts.{flag_of as is_valid, elements_of, all_elements, ends};

use crate::cells::push_cells;
use crate::cuts::flag_at;
use crate::structs::{empty_rows, push_each};
use std::alloc::{AllocError, Global};
use vx_model::Cell;

/// Whether the cell is no invalid list or struct.
#[tactic(auto, using(crate::proofs::PartSteps::part_rules))]
pub fn flag_of(cell: &Cell) -> bool
    ensures { result ≡ is_valid (tree cell.now) }
{
    match cell {
        Cell::List(valid, _) | Cell::Struct(valid, _) => *valid,
        _ => true,
    }
}

/// A flag a cell: whether it is valid.
#[tactic(auto, using(crate::proofs::PartSteps::part_rules))]
pub fn push_flags(cells: &[Cell], out: &mut Vec<bool>) -> Result<(), AllocError>
    ensures { OnOk result (out.new.items ≡ out.old.items ++ map is_valid (map tree cells.now)) }
{
    for cell in cells {
        out.push(flag_of(cell))?;
    }
    Ok(())
}

/// A flag a row; true where there are none.
#[tactic(auto, using(crate::proofs::PartSteps::part_rules))]
pub fn push_row_flags(valid: &[bool], rows: u64, out: &mut Vec<bool>) -> Result<(), AllocError>
    ensures { OnOk result (out.new.items ≡ out.old.items ++ row_flags rows valid.now) }
{
    for row in 0..rows {
        out.push(flag_at(valid, row as usize))?;
    }
    Ok(())
}

/// The flag for so many rows.
#[tactic(auto, using(crate::proofs::PartSteps::part_rules))]
pub fn push_same_flag(valid: bool, rows: u64, out: &mut Vec<bool>) -> Result<(), AllocError>
    ensures { OnOk result (out.new.items ≡ out.old.items ++ replicate rows valid) }
{
    for _row in 0..rows {
        out.push(valid)?;
    }
    Ok(())
}

/// The flags as cells.
#[tactic(auto, using(crate::proofs::PartSteps::part_rules))]
pub fn bool_cells(alloc: Global, flags: &[bool]) -> Result<Vec<Cell>, AllocError>
    ensures { IfOk result (λ v. map tree v.items ≡ map bool_cell flags.now) }
{
    let mut cells = Vec::with_capacity(alloc, flags.len())?;
    for flag in flags {
        cells.push(Cell::Bool(*flag))?;
    }
    Ok(cells)
}

/// Elements of all lists. No list has more than the greatest u64.
#[tactic(auto, using(crate::proofs::CountSteps::count_rules))]
pub fn count_elements(cells: &[Cell]) -> u128
    ensures count { result ≡ length (all_elements (map tree cells.now)) }
    ensures bound { result ≤ length cells.now * (2 ^ 64 - 1) }
{
    let mut total: u128 = 0;
    for cell in cells {
        total += u128::from(element_len(cell));
    }
    total
}

/// Elements of a list.
#[tactic(auto, using(crate::proofs::PartSteps::part_rules))]
pub fn element_len(cell: &Cell) -> u64
    ensures { result ≡ length (elements_of (tree cell.now)) }
{
    match cell {
        Cell::List(_, cells) => cells.len() as u64,
        _ => 0,
    }
}

/// Elements of so many copies of a list.
#[tactic(auto, using(crate::proofs::CountSteps::copied_rules))]
pub fn copied_elements(cell: &Cell, rows: u64) -> u128
    ensures count { result ≡ length (all_elements (replicate rows (tree cell.now))) }
    ensures bound { result ≤ rows * (2 ^ 64 - 1) }
{
    u128::from(rows) * u128::from(element_len(cell))
}

/// The elements of the lists behind the elements, and where each list ends behind the offsets.
#[tactic(auto, using(crate::proofs::PartSteps::part_rules))]
pub fn push_apart(
    cells: &[Cell],
    elements: &mut Vec<Cell>,
    offsets: &mut Vec<u64>,
) -> Result<(), AllocError>
    ensures elements { OnOk result (map tree elements.new.items ≡ map tree elements.old.items ++ all_elements (map tree cells.now)) }
    ensures offsets { OnOk result (offsets.new.items ≡ offsets.old.items ++ ends (length elements.old.items) (map tree cells.now)) }
{
    for cell in cells {
        push_one_apart(cell, elements, offsets)?;
    }
    Ok(())
}

/// The same of so many copies of a cell.
#[tactic(auto, using(crate::proofs::PartSteps::part_rules))]
pub fn push_copies_apart(
    cell: &Cell,
    count: u64,
    elements: &mut Vec<Cell>,
    offsets: &mut Vec<u64>,
) -> Result<(), AllocError>
    ensures elements { OnOk result (map tree elements.new.items ≡ map tree elements.old.items ++ all_elements (replicate count (tree cell.now))) }
    ensures offsets { OnOk result (offsets.new.items ≡ offsets.old.items ++ ends (length elements.old.items) (replicate count (tree cell.now))) }
{
    for _i in 0..count {
        push_one_apart(cell, elements, offsets)?;
    }
    Ok(())
}

#[tactic(auto, using(crate::proofs::PartSteps::part_rules))]
fn push_one_apart(
    cell: &Cell,
    elements: &mut Vec<Cell>,
    offsets: &mut Vec<u64>,
) -> Result<(), AllocError>
    ensures elements { OnOk result (map tree elements.new.items ≡ map tree elements.old.items ++ elements_of (tree cell.now)) }
    ensures offsets { OnOk result (offsets.new.items ≡ offsets.old.items ++ (length elements.old.items + length (elements_of (tree cell.now))) ∷ []) }
{
    push_elements(cell, elements)?;
    offsets.push(elements.len() as u64)?;
    Ok(())
}

#[tactic(auto, using(crate::proofs::PartSteps::part_rules))]
fn push_elements(cell: &Cell, elements: &mut Vec<Cell>) -> Result<(), AllocError>
    ensures { OnOk result (map tree elements.new.items ≡ map tree elements.old.items ++ elements_of (tree cell.now)) }
{
    match cell {
        Cell::List(_, cells) => push_cells(cells, elements),
        _ => Ok(()),
    }
}

/// The cells of so many fields, a column each. Invalid structs have theirs too.
#[tactic(auto, using(crate::proofs::PartSteps::part_rules))]
pub fn columns_of(
    alloc: Global,
    cells: Vec<Cell>,
    count: usize,
) -> Result<Vec<Vec<Cell>>, AllocError>
    requires { IsTrue (all_by (has_width count) (map tree cells.items)) }
    ensures { IfOk result (λ v. map trees_in v.items ≡ rows_across count (map fields_of (map tree cells.items))) }
{
    let mut columns = empty_rows(alloc, count, cells.len())?;
    for cell in cells {
        push_each(&mut columns, into_fields(alloc, cell))?;
    }
    Ok(columns)
}

/// The struct's cells, kept ones too.
#[tactic(auto, using(crate::proofs::PartSteps::part_rules))]
fn into_fields(alloc: Global, cell: Cell) -> Vec<Cell>
    ensures { trees_in result ≡ fields_of (tree cell) }
{
    match cell {
        Cell::Struct(_, fields) => fields,
        _ => Vec::new(alloc),
    }
}
