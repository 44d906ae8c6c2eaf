//! Structs of cells put together of columns.

ghost use Rattle.std.specs.Prelude.{◌≡◌, ◌++◌, [], map, IfOk, OnOk};
ghost use Rattle.vx_model.specs.TreeView.{tree};
ghost use Rattle.vx_chunk_cells.specs.Columns.{trees_in, pushed_each, rows_across, structs};

use crate::cuts::flag_at;
use std::alloc::{AllocError, Global};
use vx_model::Cell;

/// So many lists without a cell, with room for some.
#[tactic(auto, using(crate::proofs::Steps::struct_rules))]
pub fn empty_rows(alloc: Global, count: usize, room: usize) -> Result<Vec<Vec<Cell>>, AllocError>
    ensures { IfOk result (λ v. map trees_in v.items ≡ rows_across count []) }
{
    let mut rows = Vec::with_capacity(alloc, count)?;
    for _i in 0..count {
        rows.push(Vec::with_capacity(alloc, room)?)?;
    }
    Ok(rows)
}

/// A cell behind each list, as far as there are cells.
#[tactic(auto, using(crate::proofs::Steps::struct_rules))]
pub fn push_each(rows: &mut Vec<Vec<Cell>>, cells: Vec<Cell>) -> Result<(), AllocError>
    ensures { OnOk result (map trees_in rows.new.items ≡ pushed_each (map trees_in rows.old.items) (trees_in cells)) }
{
    let mut cells = cells.into_iter();
    for row in rows.iter_mut() {
        match cells.next() {
            Some(cell) => row.push(cell)?,
            None => return Ok(()),
        }
    }
    Ok(())
}

/// A struct of each list.
#[tactic(auto, using(crate::proofs::Steps::struct_rules))]
pub fn push_structs(
    rows: Vec<Vec<Cell>>,
    valid: &[bool],
    out: &mut Vec<Cell>,
) -> Result<(), AllocError>
    ensures { OnOk result (map tree out.new.items ≡ map tree out.old.items ++ structs (map trees_in rows.items) valid.now) }
{
    let mut i = 0;
    for row in rows {
        out.push(Cell::Struct(flag_at(valid, i), row))?;
        i += 1;
    }
    Ok(())
}
