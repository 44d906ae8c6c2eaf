//! A step of the k-th ready task.

ghost use Rattle.std.specs.Prelude.{◌≡◌, ◌+◌, ◌<◌, ◌≤◌, IsTrue, IfOk, IfErr, OnOk, OnErr};
ghost use Rattle.std.specs.FinMap as fin;
ghost use Rattle.vx_machine_ids.specs.Balance.{Owned, Moved};
ghost use Rattle.vx_kept.specs.Kept.{Fresh, Knows};
ghost use Rattle.vx_machine_state.specs.State.{no_tasks};
ghost use Rattle.vx_machine_nodes.specs.Calls.{TaskTold, PressTold};
ghost use Rattle.vx_machine_node.specs.Causes.{ActMay};
ghost use Rattle.vx_sink.specs.ContextView.{counted as counted_bytes};
ghost use Rattle.vx_machine_node.specs.Ledger.{Paid, told_by};
ghost use Rattle.vx_machine_task.specs.Ledger.{task_reserved, tasks_reserved};
ghost use Rattle.vx_machine_node.specs.Outcome.{Kept};
ghost use Rattle.vx_machine_tasks.specs.Pairs.{next_pairs, task_pairs, tasks_pairs, AllMay};
ghost use Rattle.vx_machine_task.specs.Ready.{kids_of, may_now, ready_in, ready_among, counted};
ghost use Rattle.vx_machine_tasks.specs.Steps.{TaskDone, TaskFails};
ghost use Rattle.vx_machine_task.specs.Stocks.{task_stock, tasks_stock};
ghost use Rattle.vx_machine_task.specs.View.{task_row, row};
ghost use Rattle.vx_machine_task.specs.declared.task.Task.{out-Task};

use crate::advance::advance;
use std::alloc::Global;
use vx_kept::Counts;
use vx_machine_task::{Task, may, one, touched};
use vx_order::Order;
use vx_path::owned::Path;
use vx_sink::{CompressorPlugin, LayoutWriterContext};
use vx_write_answer::{ActionKind, WriteError};

/// What a task did.
#[derive(Drop)]
pub struct Did {
    pub task: Path,
    pub action: ActionKind,
}

/// Does its own next act.
fn act<O: Order, C: CompressorPlugin>(
    task: &mut Task,
    alloc: Global,
    ctx: &mut LayoutWriterContext,
    order: &mut O,
    compressor: &mut C,
    counts: &mut Counts,
) -> Result<Did, WriteError>
    requires owned { Owned (O.active order.old) (task_stock task.old) }
    requires reserved { task_reserved task.old ≤ counted_bytes ctx.old }
    requires known { Knows counts.old (row (out-Task task.old).kids.items) }
    requires ready { IsTrue (may_now (O.active order.old) (out-Task task.old).head (kids_of (out-Task task.old).kids.items)) }
    requires allowed { AllMay (O.may_write order.old) (next_pairs (out-Task task.old).head.todo.items) }
    ensures moved { Moved (O.active order.old) (O.active order.new) (task_stock task.old) (task_stock task.new) }
    ensures tracked { Paid ctx.old ctx.new (task_reserved task.old) (task_reserved task.new) }
    ensures context { told_by ctx.new ≡ told_by ctx.old }
    ensures told { TaskTold (O.Sink.faults (O.sink order.old)) (O.Sink.faults (O.sink order.new)) (O.Sink.may_fail (O.sink order.old)) (O.Sink.may_fail (O.sink order.new))
        (O.Sink.must_fail (O.sink order.old)) (O.Sink.must_fail (O.sink order.new)) result (λ did. did.action) }
    ensures pressed { PressTold (C.faults compressor.old) (C.faults compressor.new) (C.may_fail compressor.old) (C.may_fail compressor.new)
        (C.must_fail compressor.old) (C.must_fail compressor.new) result (λ did. did.action) }
    ensures compressor { C.kind compressor.new ≡ C.kind compressor.old }
    ensures cause { IfErr result ActMay }
    ensures done { IfOk result (λ did. TaskDone ctx.old (C.image (C.kind compressor.old)) (fin.keys (O.active order.old)) 0 (O.outlet order.old) (O.outlet order.new) (task_row task.old no_tasks) (task_row task.new no_tasks) did.task did.action) }
    ensures refused { IfErr result (TaskFails ctx.old (C.image (C.kind compressor.old)) (fin.keys (O.active order.old)) 0 (O.outlet order.old) (task_row task.old no_tasks)) }
    ensures kept { OnErr result (Kept (O.outlet order.old) (O.outlet order.new)) }
    ensures known { OnOk result (Knows counts.new (row (out-Task task.new).kids.items)) }
{
    let name = task.head.name.clone()?;
    let touched = touched(&task.head);
    match advance(
        alloc,
        ctx,
        order,
        compressor,
        &mut task.head,
        &mut task.kids,
    ) {
        Ok(action) => {
            counts.follow(alloc, touched);
            Ok(Did { task: name, action })
        }
        Err(error) => Err(error),
    }
}

/// The k-th ready one of this task and all below it does its next act.
#[cycle(step)]
pub fn step<O: Order, C: CompressorPlugin>(
    task: &mut Task,
    alloc: Global,
    ctx: &mut LayoutWriterContext,
    order: &mut O,
    compressor: &mut C,
    k: u64,
    counts: &mut Counts,
) -> Result<Did, WriteError>
    requires owned { Owned (O.active order.old) (task_stock task.old) }
    requires reserved { task_reserved task.old ≤ counted_bytes ctx.old }
    requires fresh { Fresh (fin.keys (O.active order.old)) counts.old (row (out-Task task.old).kids.items) }
    requires there { k < counted (ready_in (O.active order.old) task.old) }
    requires allowed { AllMay (O.may_write order.old) (task_pairs task.old) }
    ensures moved { Moved (O.active order.old) (O.active order.new) (task_stock task.old) (task_stock task.new) }
    ensures tracked { Paid ctx.old ctx.new (task_reserved task.old) (task_reserved task.new) }
    ensures context { told_by ctx.new ≡ told_by ctx.old }
    ensures told { TaskTold (O.Sink.faults (O.sink order.old)) (O.Sink.faults (O.sink order.new)) (O.Sink.may_fail (O.sink order.old)) (O.Sink.may_fail (O.sink order.new))
        (O.Sink.must_fail (O.sink order.old)) (O.Sink.must_fail (O.sink order.new)) result (λ did. did.action) }
    ensures pressed { PressTold (C.faults compressor.old) (C.faults compressor.new) (C.may_fail compressor.old) (C.may_fail compressor.new)
        (C.must_fail compressor.old) (C.must_fail compressor.new) result (λ did. did.action) }
    ensures compressor { C.kind compressor.new ≡ C.kind compressor.old }
    ensures cause { IfErr result ActMay }
    ensures done { IfOk result (λ did. TaskDone ctx.old (C.image (C.kind compressor.old)) (fin.keys (O.active order.old)) k (O.outlet order.old) (O.outlet order.new) (task_row task.old no_tasks) (task_row task.new no_tasks) did.task did.action) }
    ensures refused { IfErr result (TaskFails ctx.old (C.image (C.kind compressor.old)) (fin.keys (O.active order.old)) k (O.outlet order.old) (task_row task.old no_tasks)) }
    ensures kept { OnErr result (Kept (O.outlet order.old) (O.outlet order.new)) }
    ensures known { OnOk result (Knows counts.new (row (out-Task task.new).kids.items)) }
{
    let ready = may(order, &task.head, &task.kids);
    let own = one(ready);
    if k < own {
        return act(task, alloc, ctx, order, compressor, counts);
    }
    step_kids(
        &mut task.kids,
        alloc,
        ctx,
        order,
        compressor,
        k - own,
        counts,
    )
}

#[cycle(step)]
fn step_kids<O: Order, C: CompressorPlugin>(
    kids: &mut [Task],
    alloc: Global,
    ctx: &mut LayoutWriterContext,
    order: &mut O,
    compressor: &mut C,
    k: u64,
    counts: &mut Counts,
) -> Result<Did, WriteError>
    requires owned { Owned (O.active order.old) (tasks_stock kids.old) }
    requires reserved { tasks_reserved kids.old ≤ counted_bytes ctx.old }
    requires fresh { Fresh (fin.keys (O.active order.old)) counts.old (row kids.old) }
    requires there { k < counted (ready_among (O.active order.old) kids.old) }
    requires allowed { AllMay (O.may_write order.old) (tasks_pairs kids.old) }
    ensures moved { Moved (O.active order.old) (O.active order.new) (tasks_stock kids.old) (tasks_stock kids.new) }
    ensures tracked { Paid ctx.old ctx.new (tasks_reserved kids.old) (tasks_reserved kids.new) }
    ensures context { told_by ctx.new ≡ told_by ctx.old }
    ensures told { TaskTold (O.Sink.faults (O.sink order.old)) (O.Sink.faults (O.sink order.new)) (O.Sink.may_fail (O.sink order.old)) (O.Sink.may_fail (O.sink order.new))
        (O.Sink.must_fail (O.sink order.old)) (O.Sink.must_fail (O.sink order.new)) result (λ did. did.action) }
    ensures pressed { PressTold (C.faults compressor.old) (C.faults compressor.new) (C.may_fail compressor.old) (C.may_fail compressor.new)
        (C.must_fail compressor.old) (C.must_fail compressor.new) result (λ did. did.action) }
    ensures compressor { C.kind compressor.new ≡ C.kind compressor.old }
    ensures cause { IfErr result ActMay }
    ensures done { IfOk result (λ did. TaskDone ctx.old (C.image (C.kind compressor.old)) (fin.keys (O.active order.old)) k (O.outlet order.old) (O.outlet order.new) (row kids.old) (row kids.new) did.task did.action) }
    ensures refused { IfErr result (TaskFails ctx.old (C.image (C.kind compressor.old)) (fin.keys (O.active order.old)) k (O.outlet order.old) (row kids.old)) }
    ensures kept { OnErr result (Kept (O.outlet order.old) (O.outlet order.new)) }
    ensures known { OnOk result (Knows counts.new (row kids.new)) }
{
    let (place, left) = counts.ready.find(k);
    match step(
        &mut kids[place],
        alloc,
        ctx,
        order,
        compressor,
        left,
        &mut counts.kids[place],
    ) {
        Ok(did) => {
            counts.mark(alloc, place);
            Ok(did)
        }
        Err(error) => Err(error),
    }
}
