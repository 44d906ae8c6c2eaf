//! The layout of a dictionary node that cut its stream into runs.

ghost use Rattle.std.specs.Prelude.{◌≡◌, ◌∷◌, [], map, IfOk, IfErr};
ghost use Rattle.std.specs.Arc.{arc_value};
ghost use Rattle.vx_model.specs.Words.{total_by};
ghost use Rattle.vx_model.specs.TyView.{ty};
ghost use Rattle.vx_layout_spec.specs.LayoutTree.{row_count, dict_layout};
ghost use Rattle.vx_layout_tree.specs.LayoutView.{layout_data};
ghost use Rattle.vx_machine_state.specs.State.{fold_runs};
ghost use Rattle.vx_machine_state.specs.Coding.{runs_laid};
ghost use Rattle.vx_machine_state.specs.Acts.{folded};
ghost use Rattle.vx_machine_nodes.specs.Acting.{JoinRefused};
ghost use Rattle.vx_machine_node.specs.Causes.{MayCome};

use crate::join::{gather, in_order};
use std::alloc::{AllocError, Global};
use vx_layout_tree::{KindParts, Layout, LayoutHead};
use vx_machine_node::DictNode;
use vx_model::DType;
use vx_write_answer::WriteError;

/// A run's layout.
fn run_layout(
    alloc: Global,
    dtype: &DType,
    rows: u64,
    codes: Layout,
    values: Layout,
) -> Result<Layout, AllocError>
    ensures { IfOk result (λ l. layout_data l ≡ dict_layout (ty dtype.now) rows (layout_data values) (layout_data codes)) }
{
    let children = vec![in alloc; values, codes]?;
    let head = LayoutHead {
        row_count: rows,
        dtype: dtype.clone()?,
        segment_ids: Vec::new(alloc),
    };
    Ok(Layout::from_parts(alloc, KindParts::Dict(head, children, false)))
}

/// A layout for each run, of codes and values by turns.
fn run_layouts(
    alloc: Global,
    dtype: &DType,
    rows: Vec<u64>,
    layouts: Vec<Layout>,
) -> Result<Vec<Layout>, AllocError>
    ensures { IfOk result (λ v. map layout_data v.items ≡ runs_laid (ty dtype.now) rows.items (map layout_data layouts.items)) }
{
    let mut layouts = in_order(layouts);
    let mut runs = Vec::with_capacity(alloc, rows.len())?;
    'runs: for count in rows {
        let Some(codes) = layouts.pop() else {
            return Ok(runs);
        };
        let Some(values) = layouts.pop() else {
            drop(codes);
            return Ok(runs);
        };
        runs.push(run_layout(alloc, dtype, count, codes, values)?)?;
    }
    Ok(runs)
}

/// The layout of all runs, with these rows.
pub(crate) fn join_runs(
    alloc: Global,
    node: &DictNode,
    rows: Vec<u64>,
    layouts: Vec<Layout>,
) -> Result<Layout, WriteError>
    ensures layout { IfOk result (λ l. layout_data l ≡ folded (fold_runs (ty (arc_value node.now.dtype)) rows.items) (map layout_data layouts.items)) }
    ensures refused { IfErr result (JoinRefused (total_by row_count (runs_laid (ty (arc_value node.now.dtype)) rows.items (map layout_data layouts.items)) ∷ [])) }
    ensures cause { IfErr result MayCome }
{
    let runs = run_layouts(alloc, &node.dtype, rows, layouts)?;
    gather(&node.dtype, runs)
}
