//! Cells of values, and values of cells.

ghost use Rattle.std.specs.Prelude.{◌≡◌, ◌<◌, ◌++◌, if◌then◌else◌, true, false, length, map, slice_index_or, IsTrue, IfNone, IfOk, IfSome, OnOk};
ghost use Rattle.vx_model.specs.Words.{all_by};
ghost use Rattle.vx_model.specs.CellData.{null_cell, fits};
ghost use Rattle.vx_model.specs.TreeView.{tree};
ghost use Rattle.vx_typed.specs.Typed.{typed_cells, is_leaf};
ghost use Rattle.vx_typed.specs.Lent.{lent_cell};

use crate::leaf::Leaf;
use crate::lent::Lent;
use std::alloc::{AllocError, Global};
use vx_chunk_cells::flag_at;
use vx_model::Cell;

#[inline(always)]
pub(crate) fn cell_of<T: Leaf>(valid: bool, x: T) -> Cell
    ensures { tree result ≡ (if valid then T.as_cell x else null_cell) }
{
    if valid { x.to_cell() } else { Cell::Null }
}

#[tactic(auto, using(crate::proofs::Steps::get_rules))]
pub(crate) fn cell_at<T: Leaf>(items: &[T], valid: &[bool], row: usize) -> Cell
    requires { row < length items.now }
    ensures { tree result ≡ slice_index_or (typed_cells T.as_cell items.now valid.now) row null_cell }
{
    cell_of(flag_at(valid, row), items[row])
}

#[inline(always)]
fn lent_of<'a, T: Leaf>(valid: bool, x: T) -> Lent<'a>
    ensures { lent_cell result ≡ (if valid then T.as_cell x else null_cell) }
{
    if valid { x.lend() } else { Lent::Null }
}

#[tactic(auto, using(crate::proofs::Steps::get_rules))]
pub(crate) fn lent_at<'a, T: Leaf>(items: &[T], valid: &[bool], row: usize) -> Lent<'a>
    requires { row < length items.now }
    ensures { lent_cell result ≡ slice_index_or (typed_cells T.as_cell items.now valid.now) row null_cell }
{
    lent_of(flag_at(valid, row), items[row])
}

/// Does nothing; tells a caller's proof that each cell is null, a number or a Bool.
pub(crate) fn are_leaves<T: Leaf>(_items: &[T], _valid: &[bool])
    ensures { IsTrue (all_by is_leaf (typed_cells T.as_cell _items.now _valid.now)) }
{}

/// The cells of values with their flags, behind what was there.
#[tactic(auto, using(crate::proofs::Steps::typed_rules))]
pub(crate) fn push_cells<T: Leaf>(
    items: &[T],
    valid: &[bool],
    out: &mut Vec<Cell>,
) -> Result<(), AllocError>
    ensures { OnOk result (map tree out.new.items ≡ map tree out.old.items ++ typed_cells T.as_cell items.now valid.now) }
{
    for i in 0..items.len() {
        out.push(cell_of(flag_at(valid, i), items[i]))?;
    }
    Ok(())
}

/// The values in cells and a flag each; `None` where the type has not all the cells.
#[tactic(auto, using(crate::proofs::Steps::push_rules))]
pub(crate) fn values_in<T: Leaf>(
    alloc: Global,
    cells: &[Cell],
) -> Result<Option<(Vec<T>, Vec<bool>)>, AllocError>
    ensures cells { IfOk result (λ o. IfSome o (λ x. typed_cells T.as_cell x.0.items x.1.items ≡ map tree cells.now)) }
    ensures none { IfOk result (λ o. IfNone o (all_by (fits (T.kind true)) (map tree cells.now) ≡ false)) }
{
    let mut items = Vec::with_capacity(alloc, cells.len())?;
    let mut valid = Vec::with_capacity(alloc, cells.len())?;
    for cell in cells {
        let Some((flag, x)) = T::read(cell) else {
            return Ok(None);
        };
        items.push(x)?;
        valid.push(flag)?;
    }
    Ok(Some((items, valid)))
}
