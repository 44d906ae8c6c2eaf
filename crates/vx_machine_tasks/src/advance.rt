//! The next act of a task.

ghost use Rattle.std.specs.Prelude.{◌≡◌, ◌≤◌, ◌+◌, [], IsTrue, IsFalse, IfOk, IfErr, OnOk, OnErr};
ghost use Rattle.vx_machine_ids.specs.Stock.{both};
ghost use Rattle.vx_machine_ids.specs.Balance.{Owned, Moved};
ghost use Rattle.vx_sink.specs.ContextView.{counted};
ghost use Rattle.vx_machine_nodes.specs.Acting.{ChunkTaken, ChunkStopped};
ghost use Rattle.vx_machine_acts.specs.Acting.{DueDone, DueRefused, DueFails, NextTaken, NextUntaken, NextDone, NextRefused, NextFails};
ghost use Rattle.vx_machine_nodes.specs.Calls.{TaskTold, PressTold};
ghost use Rattle.vx_machine_node.specs.Causes.{MayCome, ActMay};
ghost use Rattle.vx_machine_node.specs.Ledger.{Paid, told_by, due_reserved, dues_reserved, local_reserved};
ghost use Rattle.vx_machine_task.specs.Ledger.{head_reserved, tasks_reserved};
ghost use Rattle.vx_machine_node.specs.Outcome.{Kept};
ghost use Rattle.vx_machine_tasks.specs.Pairs.{due_pairs, next_pairs, AllMay};
ghost use Rattle.vx_machine_task.specs.Ready.{is_over, may_due, may_now, kids_of};
ghost use Rattle.vx_machine_node.specs.Stocks.{item_stock, due_stock, dues_stock, local_stock};
ghost use Rattle.vx_machine_task.specs.Stocks.{head_stock, tasks_stock};
ghost use Rattle.vx_machine_node.specs.View.{todo_of};
ghost use Rattle.vx_machine_task.specs.View.{row};

use crate::dict_acts::{ask, end_probe, end_run, open_run};
use std::alloc::Global;
use std::collections::VecDeque;
use vx_machine_acts::{
    append_due, ask_first, close_all, cut_runs, end, hand_over, join_due, put, regroup,
};
use vx_machine_children::{start_table, take_chunked};
use vx_machine_ids::give_up_pointer;
use vx_machine_node::{Due, Item, Local, give_up_item};
use vx_machine_nodes::{
    press, take_as_is, take_columns, take_flat, take_lists, take_pressing, take_zoned,
};
use vx_machine_task::{Head, Task};
use vx_order::Order;
use vx_path::owned::Path;
use vx_sink::{CompressorPlugin, LayoutWriterContext};
use vx_write_answer::{ActionKind, WriteError};

/// Does an act of a block, of which this is left to do behind it.
fn act<O: Order, C: CompressorPlugin>(
    alloc: Global,
    ctx: &mut LayoutWriterContext,
    order: &mut O,
    compressor: &mut C,
    name: &Path,
    local: &mut Local,
    todo: &mut VecDeque<Due>,
    kids: &mut Vec<Task>,
    due: Due,
) -> Result<ActionKind, WriteError>
    requires owned { Owned (O.active order.old) (both (both (both (local_stock local.old) (dues_stock todo.old.items)) (tasks_stock kids.old.items)) (due_stock due)) }
    requires reserved { local_reserved local.old + dues_reserved todo.old.items + tasks_reserved kids.old.items + due_reserved due ≤ counted ctx.old }
    requires ready { IsTrue (may_due (O.active order.old) due (kids_of kids.old.items)) }
    requires allowed { AllMay (O.may_write order.old) (due_pairs due) }
    ensures moved { Moved (O.active order.old) (O.active order.new) (both (both (both (local_stock local.old) (dues_stock todo.old.items)) (tasks_stock kids.old.items)) (due_stock due)) (both (both (local_stock local.new) (dues_stock todo.new.items)) (tasks_stock kids.new.items)) }
    ensures tracked { Paid ctx.old ctx.new (local_reserved local.old + dues_reserved todo.old.items + tasks_reserved kids.old.items + due_reserved due) (local_reserved local.new + dues_reserved todo.new.items + tasks_reserved kids.new.items) }
    ensures context { told_by ctx.new ≡ told_by ctx.old }
    ensures done { IfOk result (DueDone ctx.old (C.image (C.kind compressor.old)) name.now local.old kids.old.items due (O.outlet order.old) (O.outlet order.new) local.new (todo_of todo.new.items) (todo_of todo.old.items) kids.new.items) }
    ensures refused { IfErr result (DueRefused ctx.old (C.image (C.kind compressor.old)) name.now local.old kids.old.items due (O.outlet order.old)) }
    ensures kept { OnErr result (Kept (O.outlet order.old) (O.outlet order.new)) }
    ensures told { TaskTold (O.Sink.faults (O.sink order.old)) (O.Sink.faults (O.sink order.new)) (O.Sink.may_fail (O.sink order.old)) (O.Sink.may_fail (O.sink order.new))
        (O.Sink.must_fail (O.sink order.old)) (O.Sink.must_fail (O.sink order.new)) result (λ a. a) }
    ensures pressed { PressTold (C.faults compressor.old) (C.faults compressor.new) (C.may_fail compressor.old) (C.may_fail compressor.new)
        (C.must_fail compressor.old) (C.must_fail compressor.new) result (λ a. a) }
    ensures compressor { C.kind compressor.new ≡ C.kind compressor.old }
    ensures cause { IfErr result ActMay }
    ensures called { IfErr result (DueFails due) }
{
    match due {
        Due::Put { child, item } => put(order, kids, child, item),
        Due::HandOn { item, reservation } => hand_over(ctx, order, kids, item, reservation),
        Due::Press { which, item } => press(order, compressor, todo, which, item),
        Due::Append(stored) => append_due(ctx, order, local, stored),
        Due::Close => {
            close_all(kids);
            Ok(ActionKind::Close)
        }
        Due::Join(shape) => join_due(alloc, ctx, order, local, kids, shape),
        Due::Table(table) => start_table(alloc, ctx, order, name, kids, table),
        Due::Leave(eof) => {
            give_up_pointer(order, eof);
            Ok(ActionKind::Join)
        }
        Due::Ask(probe) => ask(
            alloc, ctx, order, compressor, name, local, todo, kids, probe,
        ),
        Due::OpenRun { run, item } => open_run(alloc, ctx, order, name, kids, run, item),
        Due::EndRun { child, item } => end_run(order, kids, child, item),
    }
}

/// Takes a chunk from the queue.
fn take<O: Order>(
    alloc: Global,
    ctx: &mut LayoutWriterContext,
    order: &mut O,
    name: &Path,
    local: &mut Local,
    todo: &mut VecDeque<Due>,
    kids: &mut Vec<Task>,
    item: Item,
) -> Result<(), WriteError>
    requires owned { Owned (O.active order.old) (both (both (both (local_stock local.old) (dues_stock todo.old.items)) (tasks_stock kids.old.items)) (item_stock item)) }
    requires reserved { local_reserved local.old + dues_reserved todo.old.items + tasks_reserved kids.old.items ≤ counted ctx.old }
    ensures moved { Moved (O.active order.old) (O.active order.new) (both (both (both (local_stock local.old) (dues_stock todo.old.items)) (tasks_stock kids.old.items)) (item_stock item)) (both (both (local_stock local.new) (dues_stock todo.new.items)) (tasks_stock kids.new.items)) }
    ensures tracked { Paid ctx.old ctx.new (local_reserved local.old + dues_reserved todo.old.items + tasks_reserved kids.old.items)
        (local_reserved local.new + dues_reserved todo.new.items + tasks_reserved kids.new.items) }
    ensures context { told_by ctx.new ≡ told_by ctx.old }
    ensures done { todo.old.items ≡ [] → OnOk result (ChunkTaken ctx.old name.now (row kids.old.items) item local.old local.new (todo_of todo.new.items) (todo_of todo.old.items) (row kids.new.items)) }
    ensures refused { IsFalse (is_over local.old) → IfErr result (ChunkStopped ctx.old name.now (row kids.old.items) item local.old) }
    ensures outlet { O.outlet order.new ≡ O.outlet order.old }
    ensures sink { O.sink order.new ≡ O.sink order.old }
    ensures cause { IfErr result MayCome }
{
    match local {
        Local::Chunked(node, eof, rows) => {
            take_chunked(alloc, ctx, order, node, eof, rows, name, kids, item)
        }
        Local::Columns(node, rows) => take_columns(alloc, order, node, rows, todo, item),
        Local::Lists(node, rows) => take_lists(alloc, order, node, rows, todo, item),
        Local::Grouped(_) => regroup(alloc, ctx, order, local, todo, item),
        Local::Zoned(node) => take_zoned(alloc, order, node, todo, item),
        Local::Pressing(which) => take_pressing(order, *which, todo, item),
        Local::AsIs => take_as_is(order, todo, item),
        Local::Probe(..) => ask_first(order, local, todo, item),
        Local::Asking => {
            give_up_item(order, item);
            Ok(())
        }
        Local::Runs(_) => cut_runs(alloc, ctx, order, local, todo, item),
        _ => take_flat(alloc, ctx, order, local, item),
    }
}

/// Takes what is next on the queue: a chunk, or the end.
fn take_next<O: Order>(
    alloc: Global,
    ctx: &mut LayoutWriterContext,
    order: &mut O,
    head: &mut Head,
    kids: &mut Vec<Task>,
) -> Result<(), WriteError>
    requires owned { Owned (O.active order.old) (both (head_stock head.old) (tasks_stock kids.old.items)) }
    requires reserved { head_reserved head.old + tasks_reserved kids.old.items ≤ counted ctx.old }
    ensures moved { Moved (O.active order.old) (O.active order.new) (both (head_stock head.old) (tasks_stock kids.old.items)) (both (head_stock head.new) (tasks_stock kids.new.items)) }
    ensures tracked { Paid ctx.old ctx.new (head_reserved head.old + tasks_reserved kids.old.items) (head_reserved head.new + tasks_reserved kids.new.items) }
    ensures context { told_by ctx.new ≡ told_by ctx.old }
    ensures done { head.old.todo.items ≡ [] → OnOk result (NextTaken ctx.old head.old kids.old.items head.new kids.new.items) }
    ensures refused { IsFalse (is_over head.old.local) → IfErr result (NextUntaken ctx.old head.old kids.old.items) }
    ensures outlet { O.outlet order.new ≡ O.outlet order.old }
    ensures sink { O.sink order.new ≡ O.sink order.old }
    ensures cause { IfErr result MayCome }
{
    match head.inbox.pop_front() {
        Some(item) => take(
            alloc,
            ctx,
            order,
            &head.name,
            &mut head.local,
            &mut head.todo,
            kids,
            item,
        ),
        None => {
            let local = &mut head.local;
            let todo = &mut head.todo;
            match local {
                Local::Probe(..) => end_probe(alloc, ctx, order, &head.name, local, todo, kids),
                _ => end(alloc, ctx, order, kids.len(), local, todo),
            }
        }
    }
}

/// Does the next act of a task that is ready. After an error nothing but giving up is left to do.
pub(crate) fn advance<O: Order, C: CompressorPlugin>(
    alloc: Global,
    ctx: &mut LayoutWriterContext,
    order: &mut O,
    compressor: &mut C,
    head: &mut Head,
    kids: &mut Vec<Task>,
) -> Result<ActionKind, WriteError>
    requires owned { Owned (O.active order.old) (both (head_stock head.old) (tasks_stock kids.old.items)) }
    requires reserved { head_reserved head.old + tasks_reserved kids.old.items ≤ counted ctx.old }
    requires ready { IsTrue (may_now (O.active order.old) head.old (kids_of kids.old.items)) }
    requires allowed { AllMay (O.may_write order.old) (next_pairs head.old.todo.items) }
    ensures moved { Moved (O.active order.old) (O.active order.new) (both (head_stock head.old) (tasks_stock kids.old.items)) (both (head_stock head.new) (tasks_stock kids.new.items)) }
    ensures tracked { Paid ctx.old ctx.new (head_reserved head.old + tasks_reserved kids.old.items) (head_reserved head.new + tasks_reserved kids.new.items) }
    ensures context { told_by ctx.new ≡ told_by ctx.old }
    ensures done { IfOk result (NextDone ctx.old (C.image (C.kind compressor.old)) head.old kids.old.items (O.outlet order.old) (O.outlet order.new) head.new kids.new.items) }
    ensures refused { IfErr result (NextRefused ctx.old (C.image (C.kind compressor.old)) head.old kids.old.items (O.outlet order.old)) }
    ensures kept { OnErr result (Kept (O.outlet order.old) (O.outlet order.new)) }
    ensures told { TaskTold (O.Sink.faults (O.sink order.old)) (O.Sink.faults (O.sink order.new)) (O.Sink.may_fail (O.sink order.old)) (O.Sink.may_fail (O.sink order.new))
        (O.Sink.must_fail (O.sink order.old)) (O.Sink.must_fail (O.sink order.new)) result (λ a. a) }
    ensures pressed { PressTold (C.faults compressor.old) (C.faults compressor.new) (C.may_fail compressor.old) (C.may_fail compressor.new)
        (C.must_fail compressor.old) (C.must_fail compressor.new) result (λ a. a) }
    ensures compressor { C.kind compressor.new ≡ C.kind compressor.old }
    ensures cause { IfErr result ActMay }
    ensures called { IfErr result (NextFails head.old.todo.items) }
{
    match head.todo.pop_front() {
        Some(due) => {
            let name = &head.name;
            let todo = &mut head.todo;
            let local = &mut head.local;
            act(alloc, ctx, order, compressor, name, local, todo, kids, due)
        }
        None => match take_next(alloc, ctx, order, head, kids) {
            Ok(()) => Ok(ActionKind::Take),
            Err(error) => Err(error),
        },
    }
}
