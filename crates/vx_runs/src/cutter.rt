//! The rule that cuts a stream into runs.

ghost use Rattle.std.specs.Prelude.{◌≡◌, ℕ, ◌<◌, ◌^◌, [], false, IsTrue, IfOk, IfErr, OnOk};
ghost use Rattle.vx_model.specs.Words.{all_by};
ghost use Rattle.vx_model.specs.CellData.{fits};
ghost use Rattle.vx_model.specs.ChunkData.{piece_type, is_dict_type};
ghost use Rattle.vx_model.specs.TyView.{ty};
ghost use Rattle.vx_column.specs.ColumnView.{column_cells};
ghost use Rattle.vx_chunk.specs.Conditions.{IsTooLarge};
ghost use Rattle.vx_rules.specs.Runs.{stretches};
ghost use Rattle.vx_react.specs.Cutter.{cut_outputs, next_number};
ghost use Rattle.vx_strategy_options.specs.OptionViews.{dict_options};
ghost use Rattle.vx_runs.specs.Cutting.{Standing};
ghost use Rattle.vx_runs.specs.CutterData.{started, gives_at, held_at, with_cutting};

use crate::outputs::{code_outputs, number_after, push_values};
use crate::rows::{Rows, cut};
use std::alloc::Global;
use std::marker::Model;
use std::mem;
use vx_chunk::{Chunk, ChunkError};
use vx_column::Column;
use vx_model::DType;
use vx_react::Place;
use vx_slots::CellTable;
use vx_strategy_options::DictLayoutConstraints;

/// The run that goes on.
#[derive(Drop)]
struct OpenRun {
    number: u64,
    distinct: CellTable,
    /// What the distinct cells cost.
    cost: u128,
}

impl OpenRun {
    /// The first run, without a cell; takes no memory.
    fn first(alloc: Global) -> OpenRun
        ensures number { result.number ≡ 0 }
        ensures distinct { result.distinct ≡ [] }
        ensures cost { result.cost ≡ 0 }
    {
        OpenRun {
            number: 0,
            distinct: CellTable::new(alloc),
            cost: 0,
        }
    }
}

/// Cuts a stream's rows into runs, a chunk at a time: each chunk gives the codes of the runs that it has rows of, and
/// the values of those that end in it.
#[derive(Drop)]
pub struct RunCutter {
    dtype: DType,
    constraints: DictLayoutConstraints,
    run: OpenRun,
}

impl Model for RunCutter {
    ghost use Rattle.vx_runs.specs.CutterData.{CutterData, cutter_code};

    ghost Value = { CutterData };

    ghost coded = { cutter_code };

    ghost use Rattle.vx_model.specs.TyView.{ty};
    ghost use Rattle.vx_strategy_options.specs.OptionViews.{dict_options};
    ghost use Rattle.vx_runs.specs.CutterData.{cutter_view};
    ghost use Rattle.vx_runs.specs.Cutting.{Standing};

    ghost view = { λ c. cutter_view c.dtype c.constraints c.run.number c.run.distinct };

    ghost invariant = { λ c. Standing (dict_options c.constraints 0) (ty c.dtype) c.run.distinct c.run.cost };
}

impl RunCutter {
    /// A cutter at the first run; takes no memory. `vx_chunk_cells::is_dict_type` tests the condition.
    pub fn new(alloc: Global, constraints: DictLayoutConstraints, dtype: DType) -> RunCutter
        requires { IsTrue (is_dict_type (ty dtype)) }
        ensures { result ≡ started dtype constraints }
    {
        RunCutter {
            dtype,
            constraints,
            run: OpenRun::first(alloc),
        }
    }

    /// What the chunk gives, in order of rank; at the last one the values of the run that goes on too. Takes time by
    /// the rows, which are those of `Chunk::into_column`; one that is new in its run is copied into the run's values, and
    /// no other. `TooLarge` tells the number of the run that goes on, where it passes u64. After an error
    /// nothing is known of that run.
    pub fn react(
        &mut self,
        alloc: Global,
        item: Chunk,
        last: bool,
    ) -> Result<Vec<(Place, Chunk)>, ChunkError>
        requires { piece_type item ≡ self.old.typed }
        ensures gives { IfOk result (λ v. (probe : ℕ) → v.items ≡ gives_at probe self.old item last) }
        ensures holds { OnOk result (last ≡ false → (probe : ℕ) → self.new ≡ with_cutting self.old (held_at probe self.old item)) }
        ensures fits { OnOk result ((held_at 0 self.old item).number < 2 ^ 64) }
        ensures refused { IfErr result (IsTooLarge (held_at 0 self.old item).number) }
    {
        item.sound();
        let column = item.into_column(alloc)?;
        let run = mem::replace(&mut self.run, OpenRun::first(alloc));
        let cut = cut_off(alloc, &self.dtype, self.constraints, run, &column, last)?;
        self.run = cut.run;
        Ok(cut.outputs)
    }
}

/// What cells give, and the run that goes on behind them.
#[derive(Drop)]
struct CutOff {
    outputs: Vec<(Place, Chunk)>,
    run: OpenRun,
}

/// Behind the last cells the run is a new one.
fn cut_off(
    alloc: Global,
    dtype: &DType,
    limits: DictLayoutConstraints,
    run: OpenRun,
    column: &Column,
    last: bool,
) -> Result<CutOff, ChunkError>
    requires standing { Standing (dict_options limits 0) (ty dtype.now) run.distinct run.cost }
    requires fit { IsTrue (all_by (fits (ty dtype.now)) (column_cells column.now)) }
    ensures gives { IfOk result (λ r. r.outputs.items ≡ cut_outputs (dict_options limits 0) (ty dtype.now) run.number (stretches (dict_options limits 0) (ty dtype.now) run.distinct [] (column_cells column.now)) last) }
    ensures number { IfOk result (λ r. last ≡ false → r.run.number ≡ next_number run.number (stretches (dict_options limits 0) (ty dtype.now) run.distinct [] (column_cells column.now)).closed) }
    ensures distinct { IfOk result (λ r. last ≡ false → r.run.distinct ≡ (stretches (dict_options limits 0) (ty dtype.now) run.distinct [] (column_cells column.now)).distinct) }
    ensures standing { IfOk result (λ r. Standing (dict_options limits 0) (ty dtype.now) r.run.distinct r.run.cost) }
    ensures fits { OnOk result (next_number run.number (stretches (dict_options limits 0) (ty dtype.now) run.distinct [] (column_cells column.now)).closed < 2 ^ 64) }
    ensures refused { IfErr result (IsTooLarge (next_number run.number (stretches (dict_options limits 0) (ty dtype.now) run.distinct [] (column_cells column.now)).closed)) }
{
    let OpenRun {
        number,
        distinct,
        cost,
    } = run;
    let rows = cut(alloc, dtype, limits, distinct, cost, column)?;
    let Rows {
        closed,
        codes,
        distinct,
        cost,
    } = rows;
    let next = number_after(number, closed.len())?;
    let mut outputs = code_outputs(alloc, dtype, limits, number, closed, &codes)?;
    if last {
        push_values(&mut outputs, dtype, next, distinct.into_cells())?;
        let run = OpenRun::first(alloc);
        return Ok(CutOff { outputs, run });
    }
    let run = OpenRun {
        number: next,
        distinct,
        cost,
    };
    Ok(CutOff { outputs, run })
}
