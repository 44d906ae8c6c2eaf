//! Rows, one after the other.

ghost use Rattle.std.specs.Prelude.{◌≡◌, List, [], ◌∷◌, ◌++◌, ◌<◌, ◌^◌, map, true, false, IsTrue, OnOk, IfOk, MatchOption};
ghost use Rattle.vx_model.specs.Words.{all_by};
ghost use Rattle.vx_model.specs.CellData.{CellData, fits};
ghost use Rattle.vx_model.specs.ChunkData.{is_dict_type};
ghost use Rattle.vx_model.specs.TyView.{ty};
ghost use Rattle.vx_model.specs.TreeView.{tree};
ghost use Rattle.vx_typed.specs.Lent.{lent_cell};
ghost use Rattle.vx_column.specs.ColumnView.{column_cells};
ghost use Rattle.vx_rules.specs.Runs.{Cut, behind, stretches, cells_fit, cell_cost, same_cell};
ghost use Rattle.vx_strategy_options.specs.OptionViews.{dict_options};
ghost use Rattle.vx_runs.specs.Cutting.{behind_all, cut_with, cut_of, Running};

use crate::costs::cell_cost;
use std::alloc::{AllocError, Global};
use std::mem;
use vx_column::Column;
use vx_model::{Cell, DType};
use vx_slots::CellTable;
use vx_strategy_options::DictLayoutConstraints;
use vx_typed::{Lent, own_cell};

/// A run's codes at the chunk in which it ends, and its distinct cells.
#[derive(Drop)]
pub(crate) struct Closed {
    pub(crate) codes: Vec<u64>,
    pub(crate) distinct: Vec<Cell>,
}

/// A chunk's rows as far as they are cut: the runs that have ended, and the one that goes on.
#[derive(Drop)]
pub(crate) struct Rows {
    pub(crate) closed: Vec<Closed>,
    pub(crate) codes: Vec<u64>,
    pub(crate) distinct: CellTable,
    /// What the distinct cells cost.
    pub(crate) cost: u128,
}

/// Cuts a chunk's rows behind the distinct cells of the run that goes on. The cells that are new in their run are
/// copied, and no others.
#[tactic(auto, using(crate::proofs::Steps::cut_rules))]
pub(crate) fn cut(
    alloc: Global,
    dtype: &DType,
    limits: DictLayoutConstraints,
    distinct: CellTable,
    cost: u128,
    column: &Column,
) -> Result<Rows, AllocError>
    requires dict { IsTrue (is_dict_type (ty dtype.now)) }
    requires fit { IsTrue (all_by (fits (ty dtype.now)) (column_cells column.now)) }
    requires running { Running (dict_options limits 0) (ty dtype.now) distinct cost }
    ensures cut { IfOk result (λ r. cut_of r.closed.items r.codes.items r.distinct ≡ stretches (dict_options limits 0) (ty dtype.now) distinct [] (column_cells column.now)) }
    ensures running { IfOk result (λ r. Running (dict_options limits 0) (ty dtype.now) r.distinct r.cost) }
{
    let mut rows = Rows {
        closed: Vec::new(alloc),
        codes: Vec::with_capacity(alloc, column.len())?,
        distinct,
        cost,
    };
    add_rows(&mut rows, alloc, dtype, limits, column)?;
    Ok(rows)
}

#[tactic(auto, using(crate::proofs::Steps::row_rules))]
fn add_rows(
    rows: &mut Rows,
    alloc: Global,
    dtype: &DType,
    limits: DictLayoutConstraints,
    column: &Column,
) -> Result<(), AllocError>
    requires dict { IsTrue (is_dict_type (ty dtype.now)) }
    requires fit { IsTrue (all_by (fits (ty dtype.now)) (column_cells column.now)) }
    requires running { Running (dict_options limits 0) (ty dtype.now) rows.old.distinct rows.old.cost }
    ensures running { OnOk result (Running (dict_options limits 0) (ty dtype.now) rows.new.distinct rows.new.cost) }
    ensures cut { OnOk result (cut_with (dict_options limits 0) (ty dtype.now) rows.new.closed.items rows.new.distinct rows.new.codes.items []
        ≡ cut_with (dict_options limits 0) (ty dtype.now) rows.old.closed.items rows.old.distinct rows.old.codes.items (column_cells column.now)) }
{
    for row in 0..column.len() {
        add_lent(rows, alloc, dtype, limits, column.row(row))?;
    }
    Ok(())
}

/// A row whose cell is known has its place; another is added as `add_row` does.
#[tactic(auto, using(crate::proofs::Steps::row_rules))]
fn add_lent(
    rows: &mut Rows,
    alloc: Global,
    dtype: &DType,
    limits: DictLayoutConstraints,
    cell: Lent<'_>,
) -> Result<(), AllocError>
    requires plain { IsTrue (same_cell (lent_cell cell) (lent_cell cell)) }
    requires running { Running (dict_options limits 0) (ty dtype.now) rows.old.distinct rows.old.cost }
    ensures running { OnOk result (Running (dict_options limits 0) (ty dtype.now) rows.new.distinct rows.new.cost) }
    ensures cut { OnOk result ((more : List CellData) → cut_with (dict_options limits 0) (ty dtype.now) rows.new.closed.items rows.new.distinct rows.new.codes.items more
        ≡ cut_with (dict_options limits 0) (ty dtype.now) rows.old.closed.items rows.old.distinct rows.old.codes.items (lent_cell cell.entry ∷ more)) }
{
    if let Some(place) = rows.distinct.find_lent(cell) {
        rows.codes.push(place)?;
        return Ok(());
    }
    let cell = own_cell(alloc, cell)?;
    add_row(rows, alloc, dtype, limits, cell)
}

/// A row joins the run where its distinct cells still fit with it, and else begins the next one.
#[tactic(auto, using(crate::proofs::Steps::row_rules))]
fn add_row(
    rows: &mut Rows,
    alloc: Global,
    dtype: &DType,
    limits: DictLayoutConstraints,
    cell: Cell,
) -> Result<(), AllocError>
    requires plain { IsTrue (same_cell (tree cell) (tree cell)) }
    requires running { Running (dict_options limits 0) (ty dtype.now) rows.old.distinct rows.old.cost }
    ensures running { OnOk result (Running (dict_options limits 0) (ty dtype.now) rows.new.distinct rows.new.cost) }
    ensures cut { OnOk result ((more : List CellData) → cut_with (dict_options limits 0) (ty dtype.now) rows.new.closed.items rows.new.distinct rows.new.codes.items more
        ≡ cut_with (dict_options limits 0) (ty dtype.now) rows.old.closed.items rows.old.distinct rows.old.codes.items (tree cell ∷ more)) }
{
    if let Some(place) = rows.distinct.find(&cell) {
        rows.codes.push(place)?;
        return Ok(());
    }
    let Some(cost) = cost_with(&rows.distinct, rows.cost, dtype, limits, &cell) else {
        return next_run(rows, alloc, dtype, cell);
    };
    let place = rows.distinct.len();
    rows.distinct.push(cell)?;
    rows.codes.push(place)?;
    rows.cost = cost;
    Ok(())
}

/// What the distinct cells cost with one more, where they fit then. Takes the time of looking at the one.
#[tactic(auto, using(crate::proofs::Steps::fit_rules))]
pub fn cost_with(
    distinct: &CellTable,
    cost: u128,
    dtype: &DType,
    limits: DictLayoutConstraints,
    cell: &Cell,
) -> Option<u128>
    requires { Running (dict_options limits 0) (ty dtype.now) distinct.now cost }
    ensures { MatchOption result (cells_fit (dict_options limits 0) (ty dtype.now) (distinct.now ++ tree cell.now ∷ []) ≡ false)
        (λ n. Running (dict_options limits 0) (ty dtype.now) (distinct.now ++ tree cell.now ∷ []) n) }
{
    let added = cell_cost(dtype, cell);
    let count = distinct.len();
    if count == 0 {
        return Some(added);
    }
    let total = cost + added;
    if count >= u64::from(limits.max_len) || total > u128::from(limits.max_bytes) {
        return None;
    }
    Some(total)
}

/// Ends the run, and begins the next one with the cell.
#[tactic(auto, using(crate::proofs::Steps::row_rules))]
fn next_run(rows: &mut Rows, alloc: Global, dtype: &DType, cell: Cell) -> Result<(), AllocError>
    ensures closed { OnOk result ((cut : Cut) → behind_all rows.new.closed.items cut ≡ behind_all rows.old.closed.items (behind rows.old.codes.items rows.old.distinct cut)) }
    ensures distinct { OnOk result (rows.new.distinct ≡ tree cell ∷ []) }
    ensures codes { OnOk result (rows.new.codes.items ≡ 0 ∷ []) }
    ensures cost { OnOk result (rows.new.cost ≡ cell_cost (ty dtype.now) (tree cell)) }
    ensures small { OnOk result (rows.new.cost < 2 ^ 65) }
{
    let cost = cell_cost(dtype, &cell);
    let mut first = CellTable::new(alloc);
    first.push(cell)?;
    let zero = vec![in alloc; 0]?;
    let codes = mem::replace(&mut rows.codes, zero);
    let distinct = mem::replace(&mut rows.distinct, first).into_cells();
    rows.closed.push(Closed { codes, distinct })?;
    rows.cost = cost;
    Ok(())
}
