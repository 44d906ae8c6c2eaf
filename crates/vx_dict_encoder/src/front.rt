//! The front of rows that a dictionary takes.

ghost use Rattle.std.specs.Prelude.{◌≡◌, [], IsTrue, OnOk, IfOk, IfErr, MatchOption};
ghost use Rattle.vx_model.specs.Words.{all_by};
ghost use Rattle.vx_model.specs.CellData.{fits};
ghost use Rattle.vx_model.specs.ChunkData.{is_dict_type, cells as cells_in};
ghost use Rattle.vx_model.specs.TyView.{ty};
ghost use Rattle.vx_typed.specs.Lent.{lent_cell};
ghost use Rattle.vx_column.specs.ColumnView.{column_cells};
ghost use Rattle.vx_rules.specs.Runs.{same_cell};
ghost use Rattle.vx_strategy_options.specs.OptionViews.{dict_options};
ghost use Rattle.vx_runs.specs.Cutting.{Running, Standing, is_code_of};
ghost use Rattle.vx_dict_encoder.specs.Front.{front as front_of};
ghost use Rattle.vx_dict_encoder.specs.Coding.{GoesOn, Ends};

use std::alloc::{AllocError, Global};
use vx_chunk::{Chunk, ChunkError};
use vx_column::Column;
use vx_model::DType;
use vx_runs::cost_with;
use vx_slots::CellTable;
use vx_strategy_options::DictLayoutConstraints;
use vx_typed::{Lent, own_cell};

/// What a dictionary holds.
#[derive(Drop)]
pub(crate) struct Values {
    pub(crate) distinct: CellTable,
    /// What the distinct cells cost.
    pub(crate) cost: u128,
}

impl Values {
    /// No cells; takes no memory.
    pub(crate) fn none(alloc: Global) -> Values
        ensures distinct { result.distinct ≡ [] }
        ensures cost { result.cost ≡ 0 }
    {
        Values {
            distinct: CellTable::new(alloc),
            cost: 0,
        }
    }
}

/// The codes of a chunk's front. Rows that are held as a column are looked at where they are, others are copied first.
#[tactic(auto, using(crate::proofs::Steps::chunk_rules))]
pub(crate) fn chunk_front(
    values: &mut Values,
    alloc: Global,
    dtype: &DType,
    limits: DictLayoutConstraints,
    rows: &Chunk,
) -> Result<Vec<u64>, ChunkError>
    requires standing { Standing (dict_options limits 0) (ty dtype.now) values.old.distinct values.old.cost }
    requires fit { IsTrue (all_by (fits (ty dtype.now)) (cells_in rows.now)) }
    ensures standing { OnOk result (Standing (dict_options limits 0) (ty dtype.now) values.new.distinct values.new.cost) }
    ensures codes { IfOk result (λ v. v.items ≡ (front_of (dict_options limits 0) (ty dtype.now) values.old.distinct (cells_in rows.now)).0) }
    ensures distinct { OnOk result (values.new.distinct ≡ (front_of (dict_options limits 0) (ty dtype.now) values.old.distinct (cells_in rows.now)).1) }
    ensures coded { IfOk result (λ v. IsTrue (all_by (is_code_of (dict_options limits 0)) v.items)) }
    ensures memory { IfErr result (λ e. e ≡ ChunkError.OutOfMemory) }
{
    if let Some(column) = rows.as_column() {
        return Ok(front(values, alloc, dtype, limits, column)?);
    }
    let cells = rows.cells(alloc)?;
    let column = Column::Cells(cells);
    Ok(front(values, alloc, dtype, limits, &column)?)
}

/// The codes of the longest front of the rows. Only those that are new are copied.
#[tactic(auto, using(crate::proofs::Steps::front_rules))]
fn front(
    values: &mut Values,
    alloc: Global,
    dtype: &DType,
    limits: DictLayoutConstraints,
    column: &Column,
) -> Result<Vec<u64>, AllocError>
    requires dict { IsTrue (is_dict_type (ty dtype.now)) }
    requires fit { IsTrue (all_by (fits (ty dtype.now)) (column_cells column.now)) }
    requires running { Running (dict_options limits 0) (ty dtype.now) values.old.distinct values.old.cost }
    ensures running { OnOk result (Running (dict_options limits 0) (ty dtype.now) values.new.distinct values.new.cost) }
    ensures codes { IfOk result (λ v. v.items ≡ (front_of (dict_options limits 0) (ty dtype.now) values.old.distinct (column_cells column.now)).0) }
    ensures distinct { OnOk result (values.new.distinct ≡ (front_of (dict_options limits 0) (ty dtype.now) values.old.distinct (column_cells column.now)).1) }
{
    let mut codes = Vec::with_capacity(alloc, column.len())?;
    for row in 0..column.len() {
        let Some(code) = code_of(values, alloc, dtype, limits, column.row(row))? else {
            return Ok(codes);
        };
        codes.push(code)?;
    }
    Ok(codes)
}

/// The cell's code: its place, where it is known or the distinct cells fit with it.
#[tactic(auto, using(crate::proofs::Steps::row_rules))]
fn code_of(
    values: &mut Values,
    alloc: Global,
    dtype: &DType,
    limits: DictLayoutConstraints,
    cell: Lent<'_>,
) -> Result<Option<u64>, AllocError>
    requires plain { IsTrue (same_cell (lent_cell cell) (lent_cell cell)) }
    requires running { Running (dict_options limits 0) (ty dtype.now) values.old.distinct values.old.cost }
    ensures running { OnOk result (Running (dict_options limits 0) (ty dtype.now) values.new.distinct values.new.cost) }
    ensures code { IfOk result (λ r. MatchOption r
        ((values.new.distinct ≡ values.old.distinct) × Ends (dict_options limits 0) (ty dtype.now) values.old.distinct (lent_cell cell.entry))
        (λ k. GoesOn (dict_options limits 0) (ty dtype.now) values.old.distinct (lent_cell cell.entry) values.new.distinct k)) }
{
    if let Some(place) = values.distinct.find_lent(cell) {
        return Ok(Some(place));
    }
    let own = own_cell(alloc, cell)?;
    let Some(cost) = cost_with(&values.distinct, values.cost, dtype, limits, &own) else {
        return Ok(None);
    };
    let place = values.distinct.len();
    values.distinct.push(own)?;
    values.cost = cost;
    Ok(Some(place))
}
