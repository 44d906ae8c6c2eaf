//! What a dictionary node's task does with its children: it goes on by the first chunk's image, opens runs, and ends them.

ghost use Rattle.std.specs.Prelude.{◌≡◌, ◌+◌, ◌≤◌, ℕ, List, [], ◌∷◌, IsTrue, IfOk, IfErr, OnOk};
ghost use Rattle.std.specs.Arc.{arc_value};
ghost use Rattle.vx_model.specs.ChunkData.{ChunkData};
ghost use Rattle.vx_machine_ids.specs.Stock.{none, both};
ghost use Rattle.vx_machine_ids.specs.Balance.{Owned, Moved};
ghost use Rattle.vx_sink.specs.ContextView.{allowed_in, counted};
ghost use Rattle.vx_plan.specs.PlanData.{Setting};
ghost use Rattle.vx_machine_state.specs.Images.{images_of};
ghost use Rattle.vx_machine_state.specs.State.{Next, Mind};
ghost use Rattle.vx_machine_state.specs.Acts.{end_at, probed, take_end};
ghost use Rattle.vx_machine_nodes.specs.Acting.{bare, acted, ActDone, ActRefused, Took, Ended, TakeRefused, is_probe};
ghost use Rattle.vx_machine_nodes.specs.Calls.{PressTold};
ghost use Rattle.vx_machine_node.specs.Causes.{MayCome};
ghost use Rattle.vx_machine_node.specs.Ledger.{Paid, told_by, dues_reserved, local_reserved};
ghost use Rattle.vx_machine_node.specs.Stocks.{item_stock, dues_stock, local_stock, probe_stock, run_stock};
ghost use Rattle.vx_machine_node.specs.View.{coder_in, item_of, next_of, todo_of, mind_of};
ghost use Rattle.vx_machine_node.specs.declared.item.Due.TheVariants.{Ask, OpenRun};
ghost use Rattle.vx_machine_tasks.specs.Asking.{ImageMay};
ghost use Rattle.vx_machine_task.specs.Ledger.{tasks_reserved};
ghost use Rattle.vx_machine_task.specs.Ready.{room_at, kids_of};
ghost use Rattle.vx_machine_task.specs.Stocks.{tasks_stock};
ghost use Rattle.vx_machine_task.specs.View.{row};

use std::alloc::Global;
use std::collections::VecDeque;
use std::mem;
use vx_machine_acts::put;
use vx_machine_children::{start_codes, start_fallback, start_values};
use vx_machine_ids::{give_up_id, give_up_pointer};
use vx_machine_node::{
    DictProbe, Due, Item, Local, RunStart, give_up_item, give_up_probe, set_local,
};
use vx_machine_nodes::{first_runs, is_dictionary};
use vx_machine_task::Task;
use vx_order::Order;
use vx_path::owned::Path;
use vx_sink::{CompressError, CompressorPlugin, LayoutWriterContext};
use vx_write_answer::{ActionKind, WriteError};

// ---- the first chunk

/// Calls the compressor for the first chunk. Where the image is a dictionary the node cuts runs, else the fallback starts, and
/// gets the chunk.
///
/// `CompressFault` comes where the compressor's count of faults says so.
pub(crate) fn ask<O: Order, C: CompressorPlugin>(
    alloc: Global,
    ctx: &mut LayoutWriterContext,
    order: &mut O,
    compressor: &mut C,
    name: &Path,
    local: &mut Local,
    todo: &mut VecDeque<Due>,
    kids: &mut Vec<Task>,
    probe: DictProbe,
) -> Result<ActionKind, WriteError>
    requires owned { Owned (O.active order.old) (both (both (both (local_stock local.old) (dues_stock todo.old.items)) (tasks_stock kids.old.items)) (probe_stock probe)) }
    requires reserved { local_reserved local.old + tasks_reserved kids.old.items ≤ counted ctx.old }
    ensures moved { Moved (O.active order.old) (O.active order.new) (both (both (both (local_stock local.old) (dues_stock todo.old.items)) (tasks_stock kids.old.items)) (probe_stock probe)) (both (both (local_stock local.new) (dues_stock todo.new.items)) (tasks_stock kids.new.items)) }
    ensures tracked { Paid ctx.old ctx.new (local_reserved local.old + tasks_reserved kids.old.items) (local_reserved local.new + tasks_reserved kids.new.items) }
    ensures same { dues_reserved todo.new.items ≡ dues_reserved todo.old.items }
    ensures context { told_by ctx.new ≡ told_by ctx.old }
    ensures done { IfOk result (λ a. (s : Setting) (n : ℕ) (mind : Mind) → s.allowed ≡ allowed_in ctx.old → s.image ≡ images_of (C.image (C.kind compressor.old))
        → ActDone (acted s name.now n mind (row kids.old.items) (next_of (Ask probe))) (O.outlet order.old) n (O.outlet order.new) (mind_of local.new) (todo_of todo.new.items) (todo_of todo.old.items) (row kids.new.items) a) }
    ensures refused { IfErr result (λ e. (s : Setting) (n : ℕ) (mind : Mind) → s.allowed ≡ allowed_in ctx.old → s.image ≡ images_of (C.image (C.kind compressor.old))
        → ActRefused (acted s name.now n mind (row kids.old.items) (next_of (Ask probe))) (O.outlet order.old) e) }
    ensures pressed { PressTold (C.faults compressor.old) (C.faults compressor.new) (C.may_fail compressor.old) (C.may_fail compressor.new)
        (C.must_fail compressor.old) (C.must_fail compressor.new) result (λ a. a) }
    ensures compressor { C.kind compressor.new ≡ C.kind compressor.old }
    ensures outlet { O.outlet order.new ≡ O.outlet order.old }
    ensures sink { O.sink order.new ≡ O.sink order.old }
    ensures kind { IfOk result (λ a. a ≡ ActionKind.Call) }
    ensures cause { IfErr result ImageMay }
{
    // Images of whole chunks alone are known.
    probe.item.chunk.whole();
    match compressor.compress_chunk(probe.node.probe, &probe.item.chunk) {
        Ok(image) => {
            let coded = is_dictionary(&image);
            drop(image);
            go_on(alloc, ctx, order, name, local, todo, kids, probe, coded)?;
            Ok(ActionKind::Call)
        }
        Err(CompressError::Failed) => {
            give_up_probe(order, probe);
            Err(WriteError::CompressFault)
        }
        Err(CompressError::OutOfMemory) => {
            give_up_probe(order, probe);
            Err(WriteError::OutOfMemory)
        }
    }
}

/// By whether the image is a dictionary.
fn go_on<O: Order>(
    alloc: Global,
    ctx: &mut LayoutWriterContext,
    order: &mut O,
    name: &Path,
    local: &mut Local,
    todo: &mut VecDeque<Due>,
    kids: &mut Vec<Task>,
    probe: DictProbe,
    coded: bool,
) -> Result<(), WriteError>
    requires owned { Owned (O.active order.old) (both (both (both (local_stock local.old) (dues_stock todo.old.items)) (tasks_stock kids.old.items)) (probe_stock probe)) }
    requires reserved { local_reserved local.old + tasks_reserved kids.old.items ≤ counted ctx.old }
    ensures moved { Moved (O.active order.old) (O.active order.new) (both (both (both (local_stock local.old) (dues_stock todo.old.items)) (tasks_stock kids.old.items)) (probe_stock probe)) (both (both (local_stock local.new) (dues_stock todo.new.items)) (tasks_stock kids.new.items)) }
    ensures tracked { Paid ctx.old ctx.new (local_reserved local.old + tasks_reserved kids.old.items) (local_reserved local.new + tasks_reserved kids.new.items) }
    ensures same { dues_reserved todo.new.items ≡ dues_reserved todo.old.items }
    ensures context { told_by ctx.new ≡ told_by ctx.old }
    ensures done { OnOk result ((s : Setting) (mind : Mind) (left : List Next) → s.allowed ≡ allowed_in ctx.old
        → Took (probed s coded (coder_in (arc_value probe.node)) probe.pointer (item_of probe.item) [] (bare name.now mind) (row kids.old.items)) (mind_of local.new) (todo_of todo.new.items) (todo_of todo.old.items) (row kids.new.items)) }
    ensures refused { IfErr result (λ e. (s : Setting) (mind : Mind) → s.allowed ≡ allowed_in ctx.old
        → TakeRefused (probed s coded (coder_in (arc_value probe.node)) probe.pointer (item_of probe.item) [] (bare name.now mind) (row kids.old.items)) e) }
    ensures outlet { O.outlet order.new ≡ O.outlet order.old }
    ensures sink { O.sink order.new ≡ O.sink order.old }
    ensures cause { IfErr result MayCome }
{
    if coded {
        let runs = first_runs(alloc, order, probe)?;
        set_local(ctx, order, local, Local::Runs(runs));
        return Ok(());
    }
    if let Err(_) = todo.reserve(1) {
        give_up_probe(order, probe);
        return Err(WriteError::OutOfMemory);
    }
    let DictProbe {
        node,
        pointer,
        item,
    } = probe;
    let started = start_fallback(alloc, ctx, order, &node, name, kids, pointer);
    drop(node);
    match started {
        Ok(()) => {
            let reservation = None;
            todo.push_front_reserved(Due::HandOn { item, reservation });
            set_local(ctx, order, local, Local::AsIs);
            Ok(())
        }
        Err(error) => {
            give_up_item(order, item);
            Err(error)
        }
    }
}

/// Takes the end of a stream without chunks: the fallback starts, and its layout is the node's.
pub(crate) fn end_probe<O: Order>(
    alloc: Global,
    ctx: &LayoutWriterContext,
    order: &mut O,
    name: &Path,
    local: &mut Local,
    todo: &mut VecDeque<Due>,
    kids: &mut Vec<Task>,
) -> Result<(), WriteError>
    requires owned { Owned (O.active order.old) (both (both (local_stock local.old) (dues_stock todo.old.items)) (tasks_stock kids.old.items)) }
    requires probe { IsTrue (is_probe local.old) }
    ensures moved { Moved (O.active order.old) (O.active order.new) (both (both (local_stock local.old) (dues_stock todo.old.items)) (tasks_stock kids.old.items)) (both (both (local_stock local.new) (dues_stock todo.new.items)) (tasks_stock kids.new.items)) }
    ensures reserved { tasks_reserved kids.new.items ≡ tasks_reserved kids.old.items }
    ensures same { dues_reserved todo.new.items ≡ dues_reserved todo.old.items }
    ensures unreserved { (local_reserved local.old ≡ 0) × (local_reserved local.new ≡ 0) }
    ensures done { OnOk result ((s : Setting) → s.allowed ≡ allowed_in ctx.now
        → Ended (take_end s (bare name.now (mind_of local.old)) (row kids.old.items) (mind_of local.old)) (mind_of local.new) (todo_of todo.new.items) (todo_of todo.old.items)) }
    ensures kids { OnOk result ((s : Setting) → row kids.new.items ≡ (take_end s (bare name.now (mind_of local.old)) (row kids.old.items) (mind_of local.old)).kids) }
    ensures refused { IfErr result (λ e. (s : Setting) → s.allowed ≡ allowed_in ctx.now → TakeRefused (take_end s (bare name.now (mind_of local.old)) (row kids.old.items) (mind_of local.old)) e) }
    ensures outlet { O.outlet order.new ≡ O.outlet order.old }
    ensures sink { O.sink order.new ≡ O.sink order.old }
    ensures cause { IfErr result MayCome }
{
    todo.reserve(1)?;
    match mem::replace(local, Local::Passing) {
        Local::Probe(node, pointer) => {
            let started = start_fallback(alloc, ctx, order, &node, name, kids, pointer);
            drop(node);
            started?;
            todo.push_back_reserved(Due::Close);
            Ok(())
        }
        _ => unreachable!(),
    }
}

// ---- runs

/// Starts codes and values of a run, and puts the first codes on their queue.
pub(crate) fn open_run<O: Order>(
    alloc: Global,
    ctx: &mut LayoutWriterContext,
    order: &mut O,
    name: &Path,
    kids: &mut Vec<Task>,
    run: RunStart,
    item: Item,
) -> Result<ActionKind, WriteError>
    requires owned { Owned (O.active order.old) (both (tasks_stock kids.old.items) (both (run_stock run) (item_stock item))) }
    requires reserved { tasks_reserved kids.old.items ≤ counted ctx.old }
    ensures moved { Moved (O.active order.old) (O.active order.new) (both (tasks_stock kids.old.items) (both (run_stock run) (item_stock item))) (tasks_stock kids.new.items) }
    ensures tracked { Paid ctx.old ctx.new (tasks_reserved kids.old.items) (tasks_reserved kids.new.items) }
    ensures context { told_by ctx.new ≡ told_by ctx.old }
    ensures done { IfOk result (λ a. (s : Setting) (n : ℕ) (mind : Mind) (left : List Next) → s.allowed ≡ allowed_in ctx.old
        → ActDone (acted s name.now n mind (row kids.old.items) (next_of (OpenRun run item))) (O.outlet order.old) n (O.outlet order.new) mind left left (row kids.new.items) a) }
    ensures refused { IfErr result (λ e. (s : Setting) (n : ℕ) (mind : Mind) → s.allowed ≡ allowed_in ctx.old
        → ActRefused (acted s name.now n mind (row kids.old.items) (next_of (OpenRun run item))) (O.outlet order.old) e) }
    ensures outlet { O.outlet order.new ≡ O.outlet order.old }
    ensures sink { O.sink order.new ≡ O.sink order.old }
    ensures cause { IfErr result MayCome }
{
    let RunStart {
        node,
        child,
        codes,
        values,
    } = run;
    match start_codes(alloc, ctx, order, &node, name, kids, child, codes, item) {
        Ok(()) => {
            let next = child + 1;
            let started = start_values(alloc, ctx, order, &node, name, kids, next, values);
            drop(node);
            started?;
            Ok(ActionKind::Put)
        }
        Err(error) => {
            drop(node);
            give_up_id(order, values);
            Err(error)
        }
    }
}

/// Puts the values of a run on the queue of the child behind this one, and closes the queues of both.
pub(crate) fn end_run<O: Order>(
    order: &mut O,
    kids: &mut Vec<Task>,
    child: usize,
    item: Item,
) -> Result<ActionKind, WriteError>
    requires owned { Owned (O.active order.old) (both (tasks_stock kids.old.items) (item_stock item)) }
    requires room { IsTrue (room_at (child + 1) (kids_of kids.old.items)) }
    ensures moved { Moved (O.active order.old) (O.active order.new) (both (tasks_stock kids.old.items) (item_stock item)) (tasks_stock kids.new.items) }
    ensures same { tasks_reserved kids.new.items ≡ tasks_reserved kids.old.items }
    ensures kind { IfOk result (λ a. a ≡ ActionKind.Put) }
    ensures kids { OnOk result (row kids.new.items ≡ end_at child (item_of item) (row kids.old.items)) }
    ensures outlet { O.outlet order.new ≡ O.outlet order.old }
    ensures sink { O.sink order.new ≡ O.sink order.old }
    ensures memory { IfErr result (λ e. e ≡ WriteError.OutOfMemory) }
{
    kids[child].shut();
    let put = put(order, kids, child + 1, item)?;
    kids[child + 1].shut();
    Ok(put)
}
