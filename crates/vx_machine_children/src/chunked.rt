//! A chunked node hands each chunk to a child of its own.

ghost use Rattle.std.specs.Prelude.{◌≡◌, ◌+◌, ◌<◌, ◌≤◌, ◌^◌, List, [], ◌∷◌, true, length, vec_len, vec_capacity, IfOk, IfErr, OnOk};
ghost use Rattle.vx_path.specs.Path.{under, inside, next};
ghost use Rattle.vx_machine_ids.specs.Stock.{both, end_stock, ok_stock};
ghost use Rattle.vx_machine_ids.specs.Balance.{Owned, Moved};
ghost use Rattle.vx_plan.specs.PlanData.{Setting};
ghost use Rattle.vx_machine_state.specs.State.{Next, Tasks, task_then};
ghost use Rattle.vx_machine_state.specs.Start.{first_indices, started_task};
ghost use Rattle.vx_machine_state.specs.Acts.{add, count, with_item, shut_desk};
ghost use Rattle.vx_machine_nodes.specs.Acting.{taken, Took, TakeRefused};
ghost use Rattle.vx_machine_start.specs.Starting.{ChildRefused};
ghost use Rattle.vx_machine_node.specs.Causes.{MayCome};
ghost use Rattle.vx_sink.specs.ContextView.{counted, allowed_in};
ghost use Rattle.vx_machine_node.specs.Ledger.{Paid, told_by, ok_bytes};
ghost use Rattle.vx_machine_task.specs.Ledger.{task_reserved, tasks_reserved};
ghost use Rattle.vx_machine_node.specs.Outcome.{AllFit};
ghost use Rattle.vx_machine_start.specs.Starting.{IsAllowed, Started};
ghost use Rattle.vx_machine_node.specs.Stocks.{item_stock};
ghost use Rattle.vx_machine_task.specs.Stocks.{task_stock, tasks_stock};
ghost use Rattle.vx_machine_node.specs.View.{item_of, child_form, mind_of};
ghost use Rattle.vx_machine_task.specs.View.{desk_of, task_row, row};
ghost use Rattle.vx_machine_node.specs.declared.node.Local.TheVariants.{Chunked};
ghost use Rattle.vx_machine_task.specs.declared.task.Task.{out-Task};

use std::alloc::Global;
use std::sync::Arc;
use vx_machine_node::{ChunkedNode, Item, give_up_item};
use vx_machine_nodes::add_rows;
use vx_machine_start::{next_name, start_under};
use vx_machine_task::Task;
use vx_order::Order;
use vx_path::owned::Path;
use vx_sequence::SequencePointer;
use vx_sink::LayoutWriterContext;
use vx_write_answer::WriteError;

/// The task with the item on its queue, which is closed.
pub(crate) fn fed<O: Order>(
    ctx: &mut LayoutWriterContext,
    order: &mut O,
    mut kid: Task,
    item: Item,
) -> Result<Task, WriteError>
    requires owned { Owned (O.active order.old) (both (task_stock kid) (item_stock item)) }
    requires reserved { task_reserved kid ≤ counted ctx.old }
    ensures moved { Moved (O.active order.old) (O.active order.new) (both (task_stock kid) (item_stock item)) (ok_stock task_stock result) }
    ensures tracked { Paid ctx.old ctx.new (task_reserved kid) (ok_bytes task_reserved result) }
    ensures context { told_by ctx.new ≡ told_by ctx.old }
    ensures fed { IfOk result (λ t. (r : Tasks) → task_row t r ≡ task_then (shut_desk (with_item (desk_of (out-Task kid).head) (item_of item))) (row (out-Task kid).kids.items) r) }
    ensures outlet { O.outlet order.new ≡ O.outlet order.old }
    ensures sink { O.sink order.new ≡ O.sink order.old }
    ensures memory { IfErr result (λ e. e ≡ WriteError.OutOfMemory) }
{
    match kid.give(item) {
        Ok(()) => {
            kid.shut();
            Ok(kid)
        }
        Err(item) => {
            give_up_item(order, item);
            kid.refuse(ctx, order);
            Err(WriteError::OutOfMemory)
        }
    }
}

/// Room for one more child, and the child.
fn next_child<O: Order>(
    alloc: Global,
    ctx: &LayoutWriterContext,
    order: &mut O,
    node: &ChunkedNode,
    eof: &mut SequencePointer,
    name: &Path,
    kids: &mut Vec<Task>,
) -> Result<Task, WriteError>
    requires { Owned (O.active order.old) (end_stock eof.old) }
    ensures moved { Moved (O.active order.old) (O.active order.new) (end_stock eof.old) (both (end_stock eof.new) (ok_stock task_stock result)) }
    ensures kids { kids.new.items ≡ kids.old.items }
    ensures room { OnOk result (vec_len kids.new + 1 ≤ vec_capacity kids.new) }
    ensures started { IfOk result (Started (allowed_in ctx.now) (child_form node.now) node.now.marked (under name.now (length kids.old.items)) (inside eof.old)) }
    ensures pointer { OnOk result (eof.new ≡ next eof.old) }
    ensures fits { OnOk result (eof.old.last + 1 < 2 ^ 64) }
    ensures refused { IfErr result (ChildRefused (allowed_in ctx.now) node.now eof.old) }
    ensures outlet { O.outlet order.new ≡ O.outlet order.old }
    ensures sink { O.sink order.new ≡ O.sink order.old }
    ensures cause { IfErr result MayCome }
{
    let name = next_name(alloc, name, kids)?;
    let dtype = Arc::try_clone(&node.dtype)?;
    let child = &node.child;
    let kid = start_under(alloc, ctx, order, child, dtype, node.marked, name, eof)?;
    Ok(kid)
}

/// Takes a chunk.
pub(crate) fn take_chunk<O: Order>(
    alloc: Global,
    ctx: &mut LayoutWriterContext,
    order: &mut O,
    node: &ChunkedNode,
    eof: &mut SequencePointer,
    name: &Path,
    kids: &mut Vec<Task>,
    item: Item,
) -> Result<(), WriteError>
    requires { Owned (O.active order.old) (both (both (end_stock eof.old) (tasks_stock kids.old.items)) (item_stock item)) }
    ensures moved { Moved (O.active order.old) (O.active order.new) (both (both (end_stock eof.old) (tasks_stock kids.old.items)) (item_stock item)) (both (end_stock eof.new) (tasks_stock kids.new.items)) }
    ensures tracked { Paid ctx.old ctx.new (tasks_reserved kids.old.items) (tasks_reserved kids.new.items) }
    ensures context { told_by ctx.new ≡ told_by ctx.old }
    ensures allowed { OnOk result (IsAllowed (allowed_in ctx.old) (child_form node.now) node.now.marked) }
    ensures kids { OnOk result (row kids.new.items ≡ add (row kids.old.items) (started_task (child_form node.now) node.now.marked (under name.now (count (row kids.old.items)))
        (inside eof.old) (item_of item ∷ []) true)) }
    ensures pointer { OnOk result (eof.new ≡ next eof.old) }
    ensures counted { OnOk result (AllFit ((eof.old.last + 1) ∷ first_indices (child_form node.now) node.now.marked (inside eof.old))) }
    ensures refused { IfErr result (ChildRefused (allowed_in ctx.old) node.now eof.old) }
    ensures outlet { O.outlet order.new ≡ O.outlet order.old }
    ensures sink { O.sink order.new ≡ O.sink order.old }
    ensures cause { IfErr result MayCome }
{
    match next_child(alloc, ctx, order, node, eof, name, kids) {
        Ok(kid) => {
            let kid = fed(ctx, order, kid, item)?;
            kids.push_reserved(kid);
            Ok(())
        }
        Err(error) => {
            give_up_item(order, item);
            Err(error)
        }
    }
}

/// Takes a chunk, and counts its rows.
pub fn take_chunked<O: Order>(
    alloc: Global,
    ctx: &mut LayoutWriterContext,
    order: &mut O,
    node: &ChunkedNode,
    eof: &mut SequencePointer,
    rows: &mut u64,
    name: &Path,
    kids: &mut Vec<Task>,
    item: Item,
) -> Result<(), WriteError>
    requires { Owned (O.active order.old) (both (both (end_stock eof.old) (tasks_stock kids.old.items)) (item_stock item)) }
    ensures moved { Moved (O.active order.old) (O.active order.new) (both (both (end_stock eof.old) (tasks_stock kids.old.items)) (item_stock item)) (both (end_stock eof.new) (tasks_stock kids.new.items)) }
    ensures tracked { Paid ctx.old ctx.new (tasks_reserved kids.old.items) (tasks_reserved kids.new.items) }
    ensures context { told_by ctx.new ≡ told_by ctx.old }
    ensures done { OnOk result ((s : Setting) (todo : List Next) → s.allowed ≡ allowed_in ctx.old → Took (taken s name.now (row kids.old.items) (item_of item) (mind_of (Chunked node.now eof.old rows.old)))
        (mind_of (Chunked node.now eof.new rows.new)) todo todo (row kids.new.items)) }
    ensures refused { IfErr result (λ e. (s : Setting) → s.allowed ≡ allowed_in ctx.old → TakeRefused (taken s name.now (row kids.old.items) (item_of item) (mind_of (Chunked node.now eof.old rows.old))) e) }
    ensures outlet { O.outlet order.new ≡ O.outlet order.old }
    ensures sink { O.sink order.new ≡ O.sink order.old }
    ensures cause { IfErr result MayCome }
{
    match add_rows(*rows, item.chunk.len()) {
        Ok(total) => {
            take_chunk(alloc, ctx, order, node, eof, name, kids, item)?;
            *rows = total;
            Ok(())
        }
        Err(error) => {
            give_up_item(order, item);
            Err(error)
        }
    }
}
