//! Layouts that are made of those of children.

ghost use Rattle.std.specs.Prelude.{◌≡◌, ◌≤◌, ◌+◌, ◌++◌, [], ◌∷◌, IsTrue, length, map, reverse, vec_len, IfOk, IfErr, OnOk};
ghost use Rattle.std.specs.Arc.{arc_value};
ghost use Rattle.std.specs.Int.NonZero.{non_zero_u32_get};
ghost use Rattle.vx_model.specs.Words.{total_by};
ghost use Rattle.vx_model.specs.TyView.{ty};
ghost use Rattle.vx_layout_spec.specs.LayoutTree.{row_count, chunked_layout, gathered, struct_layout, list_layout};
ghost use Rattle.vx_aggregate_spec.specs.Aggregate.{spec};
ghost use Rattle.vx_aggregate.specs.AggregateView.{aggregate};
ghost use Rattle.vx_layout_tree.specs.LayoutView.{layout_data};
ghost use Rattle.vx_machine_ids.specs.Stock.{none};
ghost use Rattle.vx_machine_ids.specs.Balance.{Owned, Moved};
ghost use Rattle.vx_machine_state.specs.State.{no_tasks};
ghost use Rattle.vx_machine_state.specs.Acts.{layouts_in, folded, joined_rows, zones_layout};
ghost use Rattle.vx_machine_nodes.specs.Acting.{JoinRefused};
ghost use Rattle.vx_machine_node.specs.Causes.{MayCome};
ghost use Rattle.vx_sink.specs.ContextView.{counted};
ghost use Rattle.vx_machine_node.specs.Ledger.{Paid, told_by};
ghost use Rattle.vx_machine_task.specs.Ledger.{task_reserved, tasks_reserved};
ghost use Rattle.vx_machine_task.specs.Ready.{made_of, all_made, columns_fit as are_columns, lists_fit as are_parts, kids_of};
ghost use Rattle.vx_machine_task.specs.Stocks.{task_stock, tasks_stock};
ghost use Rattle.vx_machine_node.specs.View.{fold_of};
ghost use Rattle.vx_machine_task.specs.View.{task_row, row};

use crate::dict_join::join_runs;
use std::alloc::Global;
use vx_layout_tree::{
    ChunkedLayout, KindParts, Layout, LayoutHead, StructLayout, layout_children, total_rows,
};
use vx_machine_node::{ColumnsNode, ListsNode, Local, Shape, Zones, give_up_dues, give_up_items};
use vx_machine_task::{Head, Task, columns_fit, lists_fit, refuse_all};
use vx_model::DType;
use vx_order::Order;
use vx_sink::LayoutWriterContext;
use vx_write_answer::WriteError;

/// One layout is given itself, none or several are chunked.
pub(crate) fn gather(dtype: &DType, mut layouts: Vec<Layout>) -> Result<Layout, WriteError>
    ensures layout { IfOk result (λ l. layout_data l ≡ gathered (ty dtype.now) (total_by row_count (map layout_data layouts.items)) (map layout_data layouts.items)) }
    ensures refused { IfErr result (JoinRefused (total_by row_count (map layout_data layouts.items) ∷ [])) }
    ensures cause { IfErr result MayCome }
{
    if layouts.len() == 1 {
        return match layouts.pop() {
            Some(layout) => {
                drop(layouts);
                Ok(layout)
            }
            None => unreachable!(),
        };
    }
    let Ok(dtype) = dtype.clone() else {
        drop(layouts);
        return Err(WriteError::OutOfMemory);
    };
    chunk_all(dtype, layouts)
}

/// The layouts as chunks.
#[tactic(auto, using(vx_layout_tree::proofs::KidSteps::chunk_rules))]
fn chunk_all(dtype: DType, layouts: Vec<Layout>) -> Result<Layout, WriteError>
    ensures layout { IfOk result (λ l. layout_data l ≡ chunked_layout (ty dtype) (total_by row_count (map layout_data layouts.items)) (map layout_data layouts.items)) }
    ensures refused { IfErr result (JoinRefused (total_by row_count (map layout_data layouts.items) ∷ [])) }
    ensures cause { IfErr result MayCome }
{
    let children = layout_children(layouts);
    let total = total_rows(&children);
    if total > u128::from(u64::MAX) {
        drop((dtype, children));
        return Err(WriteError::TooLarge(total));
    }
    match ChunkedLayout::new(total as u64, dtype, children) {
        Ok(chunked) => Ok(Layout::Chunked(chunked)),
        // The rows add up.
        Err(_refusal) => unreachable!(),
    }
}

/// A struct's layout of its columns'.
pub(crate) fn join_columns(
    node: &ColumnsNode,
    rows: u64,
    layouts: Vec<Layout>,
) -> Result<Layout, WriteError>
    requires { IsTrue (are_columns node.now (vec_len layouts)) }
    ensures layout { IfOk result (λ l. layout_data l ≡ struct_layout (ty (arc_value node.now.dtype)) rows (map layout_data layouts.items)) }
    ensures memory { IfErr result (λ e. e ≡ WriteError.OutOfMemory) }
    ensures cause { IfErr result MayCome }
{
    let Ok(dtype) = DType::clone(&node.dtype) else {
        drop(layouts);
        return Err(WriteError::OutOfMemory);
    };
    match StructLayout::new(rows, dtype, layouts) {
        Ok(fields) => Ok(Layout::Struct(fields)),
        // There are as many as columns.
        Err(_refusal) => unreachable!(),
    }
}

/// The same of the layouts of children that have done all. Each child has one, as a task that passes its layout on has one
/// child; of another number there is no layout.
fn join_all(node: &ColumnsNode, rows: u64, layouts: Vec<Layout>) -> Result<Layout, WriteError>
    ensures layout { IfOk result (λ l. layout_data l ≡ struct_layout (ty (arc_value node.now.dtype)) rows (map layout_data layouts.items)) }
    ensures memory { IfErr result (λ e. e ≡ WriteError.OutOfMemory) }
    ensures cause { IfErr result MayCome }
{
    if !columns_fit(node, layouts.len()) {
        drop(layouts);
        return Err(WriteError::OutOfMemory);
    }
    join_columns(node, rows, layouts)
}

/// The same of a list's columns.
fn join_parts(
    alloc: Global,
    node: &ListsNode,
    rows: u64,
    layouts: Vec<Layout>,
) -> Result<Layout, WriteError>
    ensures layout { IfOk result (λ l. layout_data l ≡ list_layout (ty (arc_value node.now.dtype)) rows (map layout_data layouts.items)) }
    ensures memory { IfErr result (λ e. e ≡ WriteError.OutOfMemory) }
    ensures cause { IfErr result MayCome }
{
    if !lists_fit(node, layouts.len()) {
        drop(layouts);
        return Err(WriteError::OutOfMemory);
    }
    join_lists(alloc, node, rows, layouts)
}

/// A list's layout of its columns', with the rows that the node has counted.
fn join_lists(
    alloc: Global,
    node: &ListsNode,
    rows: u64,
    layouts: Vec<Layout>,
) -> Result<Layout, WriteError>
    requires { IsTrue (are_parts node.now (vec_len layouts)) }
    ensures layout { IfOk result (λ l. layout_data l ≡ list_layout (ty (arc_value node.now.dtype)) rows (map layout_data layouts.items)) }
    ensures memory { IfErr result (λ e. e ≡ WriteError.OutOfMemory) }
    ensures cause { IfErr result MayCome }
{
    let Ok(dtype) = DType::clone(&node.dtype) else {
        drop(layouts);
        return Err(WriteError::OutOfMemory);
    };
    let head = LayoutHead {
        row_count: rows,
        dtype,
        segment_ids: Vec::new(alloc),
    };
    Ok(Layout::from_parts(alloc, KindParts::List(head, layouts)))
}

/// A zoned layout of the data's and the table's. Of another number there is none, and none of more columns of the table than four bytes
/// count, which no memory holds.
fn join_zones(alloc: Global, zones: Zones, layouts: Vec<Layout>) -> Result<Layout, WriteError>
    ensures layout { IfOk result (λ l. layout_data l ≡ zones_layout (ty (arc_value zones.dtype)) zones.rows (non_zero_u32_get zones.zone_len) (map (λ a. spec (aggregate a)) zones.aggregates.items) (map layout_data layouts.items)) }
    ensures memory { IfErr result (λ e. e ≡ WriteError.OutOfMemory) }
    ensures cause { IfErr result MayCome }
{
    if layouts.len() != 2 || zones.aggregates.len() > u32::MAX as usize {
        drop((zones, layouts));
        return Err(WriteError::OutOfMemory);
    }
    let Zones {
        dtype,
        rows: row_count,
        zone_len,
        aggregates,
    } = zones;
    let Ok(copy) = DType::clone(&dtype) else {
        drop((dtype, aggregates, layouts));
        return Err(WriteError::OutOfMemory);
    };
    drop(dtype);
    let head = LayoutHead {
        row_count,
        dtype: copy,
        segment_ids: Vec::new(alloc),
    };
    let parts = KindParts::Zoned(head, layouts, zone_len.get(), aggregates);
    Ok(Layout::from_parts(alloc, parts))
}

/// The layout of a task that has done all, or those of its children where it passes them on, behind the others. What else it
/// might hold is given up.
#[cycle(gather)]
fn add_layout<O: Order>(
    ctx: &mut LayoutWriterContext,
    order: &mut O,
    kid: Task,
    layouts: &mut Vec<Layout>,
) -> Result<(), WriteError>
    requires owned { Owned (O.active order.old) (task_stock kid) }
    requires reserved { task_reserved kid ≤ counted ctx.old }
    requires made { IsTrue (made_of kid) }
    ensures layouts { OnOk result (map layout_data (reverse layouts.new.items) ≡ layouts_in (task_row kid no_tasks) ++ map layout_data (reverse layouts.old.items)) }
    ensures moved { Moved (O.active order.old) (O.active order.new) (task_stock kid) none }
    ensures tracked { Paid ctx.old ctx.new (task_reserved kid) 0 }
    ensures context { told_by ctx.new ≡ told_by ctx.old }
    ensures outlet { O.outlet order.new ≡ O.outlet order.old }
    ensures sink { O.sink order.new ≡ O.sink order.old }
    ensures memory { IfErr result (λ e. e ≡ WriteError.OutOfMemory) }
{
    let Task { head, mut kids } = kid;
    let Head {
        name: _name,
        local,
        todo,
        inbox,
        places: _,
        closed: _,
    } = head;
    give_up_dues(ctx, order, todo);
    give_up_items(order, inbox);
    match local {
        Local::Made(layout) => {
            refuse_all(kids, ctx, order);
            add_one(layouts, layout)
        }
        Local::Passing => {
            let added = add_layouts(ctx, order, &mut kids, layouts);
            refuse_all(kids, ctx, order);
            added
        }
        _ => unreachable!(),
    }
}

fn add_one(layouts: &mut Vec<Layout>, layout: Layout) -> Result<(), WriteError>
    ensures added { OnOk result (layouts.new.items ≡ layouts.old.items ++ (layout ∷ [])) }
    ensures memory { IfErr result (λ e. e ≡ WriteError.OutOfMemory) }
{
    match layouts.push(layout) {
        Ok(()) => Ok(()),
        Err(error) => {
            drop(error);
            Err(WriteError::OutOfMemory)
        }
    }
}

/// The same of several, from the last one on. Without an error none of them is left.
#[cycle(gather)]
fn add_layouts<O: Order>(
    ctx: &mut LayoutWriterContext,
    order: &mut O,
    kids: &mut Vec<Task>,
    layouts: &mut Vec<Layout>,
) -> Result<(), WriteError>
    requires owned { Owned (O.active order.old) (tasks_stock kids.old.items) }
    requires reserved { tasks_reserved kids.old.items ≤ counted ctx.old }
    requires made { IsTrue (all_made (kids_of kids.old.items)) }
    ensures layouts { OnOk result (map layout_data (reverse layouts.new.items) ≡ layouts_in (row kids.old.items) ++ map layout_data (reverse layouts.old.items)) }
    ensures no_kids { OnOk result (kids.new.items ≡ []) }
    ensures moved { Moved (O.active order.old) (O.active order.new) (tasks_stock kids.old.items) (tasks_stock kids.new.items) }
    ensures tracked { Paid ctx.old ctx.new (tasks_reserved kids.old.items) (tasks_reserved kids.new.items) }
    ensures context { told_by ctx.new ≡ told_by ctx.old }
    ensures outlet { O.outlet order.new ≡ O.outlet order.old }
    ensures sink { O.sink order.new ≡ O.sink order.old }
    ensures memory { IfErr result (λ e. e ≡ WriteError.OutOfMemory) }
{
    'kids: while let Some(kid) = kids.pop() {
        add_layout(ctx, order, kid, layouts)?;
    }
    Ok(())
}

/// The layouts, the last one first.
pub(crate) fn in_order(mut layouts: Vec<Layout>) -> Vec<Layout>
    ensures items { result.items ≡ reverse layouts.items }
    ensures len { vec_len result ≡ vec_len layouts }
{
    layouts.reverse();
    layouts
}

/// The layouts of children that have done all, in order. None of the children is left, but after an error.
fn take_layouts<O: Order>(
    alloc: Global,
    ctx: &mut LayoutWriterContext,
    order: &mut O,
    kids: &mut Vec<Task>,
) -> Result<Vec<Layout>, WriteError>
    requires owned { Owned (O.active order.old) (tasks_stock kids.old.items) }
    requires reserved { tasks_reserved kids.old.items ≤ counted ctx.old }
    requires made { IsTrue (all_made (kids_of kids.old.items)) }
    ensures moved { Moved (O.active order.old) (O.active order.new) (tasks_stock kids.old.items) (tasks_stock kids.new.items) }
    ensures tracked { Paid ctx.old ctx.new (tasks_reserved kids.old.items) (tasks_reserved kids.new.items) }
    ensures context { told_by ctx.new ≡ told_by ctx.old }
    ensures layouts { IfOk result (λ v. map layout_data v.items ≡ layouts_in (row kids.old.items)) }
    ensures no_kids { OnOk result (kids.new.items ≡ []) }
    ensures outlet { O.outlet order.new ≡ O.outlet order.old }
    ensures sink { O.sink order.new ≡ O.sink order.old }
    ensures memory { IfErr result (λ e. e ≡ WriteError.OutOfMemory) }
{
    let mut layouts = Vec::with_capacity(alloc, kids.len())?;
    match add_layouts(ctx, order, kids, &mut layouts) {
        Ok(()) => Ok(in_order(layouts)),
        Err(error) => {
            drop(layouts);
            Err(error)
        }
    }
}

/// The layout of this shape. None of the children is left, but after an error.
pub(crate) fn join<O: Order>(
    alloc: Global,
    ctx: &mut LayoutWriterContext,
    order: &mut O,
    kids: &mut Vec<Task>,
    shape: Shape,
) -> Result<Layout, WriteError>
    requires owned { Owned (O.active order.old) (tasks_stock kids.old.items) }
    requires reserved { tasks_reserved kids.old.items ≤ counted ctx.old }
    requires made { IsTrue (all_made (kids_of kids.old.items)) }
    ensures layout { IfOk result (λ l. layout_data l ≡ folded (fold_of shape) (layouts_in (row kids.old.items))) }
    ensures no_kids { OnOk result (kids.new.items ≡ []) }
    ensures refused { IfErr result (JoinRefused (joined_rows (fold_of shape) (layouts_in (row kids.old.items)))) }
    ensures moved { Moved (O.active order.old) (O.active order.new) (tasks_stock kids.old.items) (tasks_stock kids.new.items) }
    ensures tracked { Paid ctx.old ctx.new (tasks_reserved kids.old.items) (tasks_reserved kids.new.items) }
    ensures context { told_by ctx.new ≡ told_by ctx.old }
    ensures outlet { O.outlet order.new ≡ O.outlet order.old }
    ensures sink { O.sink order.new ≡ O.sink order.old }
    ensures cause { IfErr result MayCome }
{
    match take_layouts(alloc, ctx, order, kids) {
        Ok(layouts) => match shape {
            Shape::Chunks(dtype) => {
                let layout = gather(&dtype, layouts);
                drop(dtype);
                layout
            }
            Shape::Columns(node, rows) => {
                let layout = join_all(&node, rows, layouts);
                drop(node);
                layout
            }
            Shape::Lists(node, rows) => {
                let layout = join_parts(alloc, &node, rows, layouts);
                drop(node);
                layout
            }
            Shape::Zones(zones) => join_zones(alloc, zones, layouts),
            Shape::Runs(node, rows) => {
                let layout = join_runs(alloc, &node, rows, layouts);
                drop(node);
                layout
            }
        },
        Err(error) => {
            drop(shape);
            Err(error)
        }
    }
}
