//! What a chunk's rows give: codes and values, each with its place.

ghost use Rattle.std.specs.Prelude.{◌≡◌, ◌+◌, ◌<◌, ◌≤◌, ◌^◌, ◌++◌, ◌∷◌, [], List, length, map, IsTrue, IfOk, IfErr, OnOk};
ghost use Rattle.vx_model.specs.Words.{all_by};
ghost use Rattle.vx_model.specs.CellData.{fits};
ghost use Rattle.vx_model.specs.ChunkData.{plain_piece};
ghost use Rattle.vx_model.specs.TyView.{ty};
ghost use Rattle.vx_model.specs.TreeView.{tree};
ghost use Rattle.vx_chunk.specs.Conditions.{IsTooLarge};
ghost use Rattle.vx_rules.specs.Runs.{codes_piece};
ghost use Rattle.vx_react.specs.declared.place.Place.TheVariants.{Codes, Values};
ghost use Rattle.vx_react.specs.Reactor.{Output};
ghost use Rattle.vx_react.specs.Cutter.{closed_outputs};
ghost use Rattle.vx_strategy_options.specs.OptionViews.{dict_options};
ghost use Rattle.vx_runs.specs.Cutting.{pairs, is_code_of, ClosedFit};

use crate::codes::codes_chunk;
use crate::rows::Closed;
use std::alloc::{AllocError, Global};
use vx_chunk::{Chunk, ChunkError};
use vx_model::{Cell, DType};
use vx_react::Place;
use vx_strategy_options::DictLayoutConstraints;

/// The number of the run behind so many.
pub(crate) fn number_after(number: u64, count: usize) -> Result<u64, ChunkError>
    ensures ok { IfOk result (λ n. n ≡ number + count) }
    ensures fits { IfOk result (λ n. n < 2 ^ 64) }
    ensures refused { IfErr result (IsTooLarge (number + count)) }
{
    let after = u128::from(number) + count as u128;
    if after > u128::from(u64::MAX) {
        return Err(ChunkError::TooLarge(after));
    }
    Ok(after as u64)
}

/// Codes and values of the runs that have ended, the first of which has the number, and the codes of the one that goes
/// on.
pub(crate) fn code_outputs(
    alloc: Global,
    dtype: &DType,
    limits: DictLayoutConstraints,
    number: u64,
    closed: Vec<Closed>,
    codes: &[u64],
) -> Result<Vec<(Place, Chunk)>, AllocError>
    requires number { number + length closed.items < 2 ^ 64 }
    requires closed { ClosedFit (dict_options limits 0) (ty dtype.now) (pairs closed.items) }
    requires codes { IsTrue (all_by (is_code_of (dict_options limits 0)) codes.now) }
    ensures { IfOk result (λ v. (more : List Output) → v.items ++ more
        ≡ closed_outputs (dict_options limits 0) (ty dtype.now) number (pairs closed.items) ((Codes (number + length closed.items), codes_piece (dict_options limits 0) codes.now) ∷ more)) }
{
    let next = number + closed.len() as u64;
    let room = closed.len().saturating_mul(2).saturating_add(2);
    let mut outputs = Vec::with_capacity(alloc, room)?;
    push_closed(&mut outputs, alloc, dtype, limits, number, closed)?;
    let codes = codes_chunk(alloc, limits, codes)?;
    outputs.push((Place::Codes(next), codes))?;
    Ok(outputs)
}

#[tactic(auto, using(crate::proofs::OutputSteps::output_rules))]
fn push_closed(
    outputs: &mut Vec<(Place, Chunk)>,
    alloc: Global,
    dtype: &DType,
    limits: DictLayoutConstraints,
    number: u64,
    closed: Vec<Closed>,
) -> Result<(), AllocError>
    requires number { number + length closed.items < 2 ^ 64 }
    requires closed { ClosedFit (dict_options limits 0) (ty dtype.now) (pairs closed.items) }
    ensures { OnOk result ((more : List Output) → outputs.new.items ++ more ≡ outputs.old.items ++ closed_outputs (dict_options limits 0) (ty dtype.now) number (pairs closed.items) more) }
{
    let mut next = number;
    for run in closed {
        push_run(outputs, alloc, dtype, limits, next, run)?;
        next += 1;
    }
    Ok(())
}

/// The codes and the values of a run that has ended.
#[tactic(auto, using(crate::proofs::OutputSteps::output_rules))]
fn push_run(
    outputs: &mut Vec<(Place, Chunk)>,
    alloc: Global,
    dtype: &DType,
    limits: DictLayoutConstraints,
    number: u64,
    run: Closed,
) -> Result<(), AllocError>
    requires codes { IsTrue (all_by (is_code_of (dict_options limits 0)) run.codes.items) }
    requires values { IsTrue (all_by (fits (ty dtype.now)) (map tree run.distinct.items)) }
    ensures { OnOk result (outputs.new.items ≡ outputs.old.items ++ (Codes number, codes_piece (dict_options limits 0) run.codes.items) ∷ (Values number, plain_piece (ty dtype.now) (map tree run.distinct.items)) ∷ []) }
{
    let Closed { codes, distinct } = run;
    let codes = codes_chunk(alloc, limits, &codes)?;
    outputs.push((Place::Codes(number), codes))?;
    push_values(outputs, dtype, number, distinct)
}

/// The values of a run.
pub(crate) fn push_values(
    outputs: &mut Vec<(Place, Chunk)>,
    dtype: &DType,
    number: u64,
    cells: Vec<Cell>,
) -> Result<(), AllocError>
    requires { IsTrue (all_by (fits (ty dtype.now)) (map tree cells.items)) }
    ensures { OnOk result (outputs.new.items ≡ outputs.old.items ++ (Values number, plain_piece (ty dtype.now) (map tree cells.items)) ∷ []) }
{
    let values = Chunk::plain(dtype.clone()?, cells);
    outputs.push((Place::Values(number), values))?;
    Ok(())
}
