//! Offsets that run on behind a base.

ghost use Rattle.std.specs.Prelude.{◌≡◌, ◌+◌, ◌<◌, ◌≤◌, ◌^◌, length, map, IfOk, OnOk, IfErr};
ghost use Rattle.vx_model.specs.TreeView.{tree};
ghost use Rattle.vx_split.specs.Offsets.{cell_behind, entries};
ghost use Rattle.vx_split.specs.Causes.{IsPast};

use crate::error::SplitError;
use std::alloc::{AllocError, Global};
use vx_model::Cell;

/// The end of so many elements behind the base.
pub(crate) fn end_of(base: u64, count: u64) -> Result<u64, SplitError>
    ensures end { IfOk result (λ e. e ≡ base + count) }
    ensures fits { OnOk result (base + count < 2 ^ 64) }
    ensures refused { IfErr result (IsPast (base + count)) }
{
    let end = u128::from(base) + u128::from(count);
    if end > u128::from(u64::MAX) {
        return Err(SplitError::TooLarge(end));
    }
    Ok(end as u64)
}

/// The cells of the offsets behind the base; of a chunk that isn't the first without the first one.
pub(crate) fn offset_cells(
    alloc: Global,
    first: bool,
    base: u64,
    offsets: Vec<u64>,
) -> Result<Vec<Cell>, AllocError>
    requires { 1 ≤ length offsets.items }
    ensures { IfOk result (λ v. map tree v.items ≡ map (cell_behind base) (entries first offsets.items)) }
{
    cells_behind(alloc, base, entries(first, &offsets))
}

fn entries(first: bool, offsets: &[u64]) -> &[u64]
    requires { 1 ≤ length offsets.now }
    ensures { result.now ≡ entries first offsets.now }
{
    if first { offsets } else { &offsets[1..] }
}

#[tactic(auto, using(crate::proofs::OffsetSteps::cell_rules))]
fn cells_behind(alloc: Global, base: u64, offsets: &[u64]) -> Result<Vec<Cell>, AllocError>
    ensures { IfOk result (λ v. map tree v.items ≡ map (cell_behind base) offsets.now) }
{
    let mut cells = Vec::with_capacity(alloc, offsets.len())?;
    for offset in offsets {
        cells.push(offset_cell(base, *offset))?;
    }
    Ok(cells)
}

#[tactic(auto, using(crate::proofs::OffsetSteps::cell_rules))]
fn offset_cell(base: u64, offset: u64) -> Cell
    ensures { tree result ≡ cell_behind base offset }
{
    Cell::Int(i128::from(base) + i128::from(offset))
}
