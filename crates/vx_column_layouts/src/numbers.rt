//! The columns' layouts, numbered by the history of the shared sink.

ghost use Rattle.std.specs.Prelude.{◌≡◌, ◌⊎◌, ℕ, List, [], true, false, map, vec_len, Some, Err, IfOk, IfErr, OnOk};
ghost use Rattle.vx_model.specs.TyView.{ty};
ghost use Rattle.vx_path.specs.Lists.{In};
ghost use Rattle.vx_layout_spec.specs.LayoutTree.{renamed, struct_layout};
ghost use Rattle.vx_layout_tree.specs.LayoutView.{layout_data, number};
ghost use Rattle.vx_plan.specs.PlanData.{Plan};
ghost use Rattle.vx_seats.specs.History.{ascends, paths as all_paths};
ghost use Rattle.vx_column_plan.specs.Shared.{number_by};
ghost use Rattle.vx_column_machine.specs.Causes.{IsDone};
ghost use Rattle.vx_column_ways.specs.ColumnCount.{columns_of};
ghost use Rattle.vx_column_layouts.specs.Numbers.{AllDone, StandsIn, AllStandIn, AllIn, AllOk, HasOwn, IsFirstOwn, IsLaid, is_stop, layouts_by};

use std::alloc::{AllocError, Global};
use vx_layout_tree::{Layout, StructLayout};
use vx_model::{DType, SegmentId};
use vx_order_answer::Receipt;
use vx_path::owned::{Path, path_le};
use vx_renumber::renumbered;
use vx_write_answer::WriteError;

/// What came of a column: its layout and the paths of its segments, a node's before its children's; or why it was refused.
pub type Outcome = Result<(Layout, Vec<Path>), WriteError>;

/// The struct's layout over the columns', each numbered by the history; or the refusal of the first column, in order, that
/// wasn't stopped by another.
pub fn joined(
    alloc: Global,
    dtype: DType,
    rows: u64,
    outcomes: Vec<Outcome>,
    history: Vec<Receipt>,
) -> Result<Layout, WriteError>
    requires count { columns_of (ty dtype) ≡ Some (vec_len outcomes) }
    requires ascends { ascends (all_paths history.items) ≡ true }
    // Where a column was stopped, another was refused.
    requires own { AllOk outcomes.items ⊎ HasOwn outcomes.items }
    ensures laid { IfOk result (λ l. (first : ℕ) (ps : List Plan) → AllDone ps outcomes.items → AllStandIn history.items ps
        → layout_data l ≡ struct_layout (ty dtype) rows (layouts_by (number_by first history.items) ps)) }
    ensures all { OnOk result (AllOk outcomes.items) }
    ensures refused { IfErr result (λ e. (e ≡ WriteError.OutOfMemory) ⊎ IsFirstOwn outcomes.items e) }
{
    let layouts = all_numbered(alloc, outcomes, history.as_slice())?;
    match StructLayout::new(rows, dtype, layouts) {
        Ok(fields) => Ok(Layout::Struct(fields)),
        // There is a layout for each column of the type.
        Err(_refusal) => unreachable!(),
    }
}

/// The columns' layouts, in order.
fn all_numbered(
    alloc: Global,
    outcomes: Vec<Outcome>,
    history: &[Receipt],
) -> Result<Vec<Layout>, WriteError>
    requires ascends { ascends (all_paths history.now) ≡ true }
    requires own { AllOk outcomes.items ⊎ HasOwn outcomes.items }
    ensures laid { IfOk result (λ v. (first : ℕ) (ps : List Plan) → AllDone ps outcomes.items → AllStandIn history.now ps
        → map layout_data v.items ≡ layouts_by (number_by first history.now) ps) }
    ensures count { IfOk result (λ v. vec_len v ≡ vec_len outcomes) }
    ensures all { OnOk result (AllOk outcomes.items) }
    ensures refused { IfErr result (λ e. (e ≡ WriteError.OutOfMemory) ⊎ IsFirstOwn outcomes.items e) }
{
    let mut layouts = Vec::with_capacity(alloc, outcomes.len())?;
    'columns: for outcome in outcomes {
        if let Some(layout) = layout_of(alloc, outcome, history)? {
            layouts.push(layout)?;
        }
    }
    Ok(layouts)
}

/// A column's layout, unless it was stopped.
fn layout_of(
    alloc: Global,
    outcome: Outcome,
    history: &[Receipt],
) -> Result<Option<Layout>, WriteError>
    requires { ascends (all_paths history.now) ≡ true }
    ensures laid { IfOk result (IsLaid history.now outcome) }
    ensures refused { IfErr result (λ e. (e ≡ WriteError.OutOfMemory) ⊎ ((outcome ≡ Err e) × (is_stop e ≡ false))) }
{
    let (layout, paths) = match outcome {
        Ok(done) => done,
        Err(error) => {
            if is_stop(&error) {
                return Ok(None);
            }
            return Err(error);
        }
    };
    let numbered = numbered(alloc, &layout, paths.as_slice(), history);
    drop(layout);
    Ok(Some(numbered?))
}

fn is_stop(error: &WriteError) -> bool
    ensures { result ≡ is_stop error.now }
{
    matches!(error, WriteError::Stopped(..))
}

/// A column's layout, whose segments have these paths in its order, with the numbers that the history has at the paths.
fn numbered(
    alloc: Global,
    layout: &Layout,
    paths: &[Path],
    history: &[Receipt],
) -> Result<Layout, AllocError>
    requires { ascends (all_paths history.now) ≡ true }
    ensures { IfOk result (λ l. (first : ℕ) (p : Plan) → IsDone p (layout_data layout.now) paths.now → StandsIn history.now p
        → layout_data l ≡ renamed (number_by first history.now) p.layout) }
{
    let numbers = numbers_at(alloc, paths, history)?;
    renumbered(alloc, layout, numbers.as_slice())
}

/// The number of each path.
fn numbers_at(
    alloc: Global,
    paths: &[Path],
    history: &[Receipt],
) -> Result<Vec<SegmentId>, AllocError>
    requires { ascends (all_paths history.now) ≡ true }
    ensures { IfOk result (λ v. (first : ℕ) → AllIn paths.now (all_paths history.now) → map number v.items ≡ map (number_by first history.now) paths.now) }
{
    let mut numbers = Vec::with_capacity(alloc, paths.len())?;
    for path in paths {
        numbers.push(SegmentId(number_at(history, path.as_slice())))?;
    }
    Ok(numbers)
}

/// The number that the history, which ascends, has at the path; 0 where it has none.
fn number_at(history: &[Receipt], path: &[u64]) -> u32
    requires { ascends (all_paths history.now) ≡ true }
    ensures { (first : ℕ) → In path.now (all_paths history.now) → result ≡ number_by first history.now path.now }
{
    let mut low = 0usize;
    let mut high = history.len();
    'halves: while low < high {
        let middle = low + (high - low) / 2;
        if !path_le(history[middle].path.as_slice(), path) {
            high = middle;
        } else if path_le(path, history[middle].path.as_slice()) {
            return history[middle].number;
        } else {
            low = middle + 1;
        }
    }
    0
}
