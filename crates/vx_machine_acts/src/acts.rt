//! Acts of a task that put, append or join.

ghost use Rattle.std.specs.Prelude.{◌≡◌, ◌≤◌, ◌+◌, ℕ, List, IsTrue, IfOk, IfErr, OnOk, OnErr};
ghost use Rattle.vx_sequence.specs.Universe.{IsLeast};
ghost use Rattle.vx_machine_ids.specs.Stock.{both};
ghost use Rattle.vx_machine_ids.specs.Balance.{Owned, Moved};
ghost use Rattle.vx_sink.specs.ContextView.{listed, counted};
ghost use Rattle.vx_plan.specs.PlanData.{Setting};
ghost use Rattle.vx_machine_state.specs.State.{append as append_next, join_kids, Next, Mind, Tasks};
ghost use Rattle.vx_machine_state.specs.Acts.{give, shut_all, layouts_in, joined_rows};
ghost use Rattle.vx_machine_nodes.specs.Acting.{AppendRefused, JoinRefused, acted, ActDone};
ghost use Rattle.vx_machine_nodes.specs.Calls.{TaskTold};
ghost use Rattle.vx_machine_node.specs.Causes.{MayCome, AppendMay};
ghost use Rattle.vx_machine_node.specs.Ledger.{Paid, told_by, some_bytes, local_reserved};
ghost use Rattle.vx_machine_task.specs.Ledger.{tasks_reserved};
ghost use Rattle.vx_machine_node.specs.Outcome.{Kept};
ghost use Rattle.vx_machine_task.specs.Ready.{room_at, all_made, kids_of};
ghost use Rattle.vx_machine_node.specs.Stocks.{item_stock, stored_stock, local_stock};
ghost use Rattle.vx_machine_task.specs.Stocks.{tasks_stock};
ghost use Rattle.vx_machine_node.specs.View.{item_of, stored_of, fold_of, mind_of};
ghost use Rattle.vx_machine_task.specs.View.{row};

use crate::join::join;
use std::alloc::Global;
use vx_machine_node::{Item, Local, Shape, Stored, give_up_item, release, set_local};
use vx_machine_nodes::append;
use vx_machine_task::Task;
use vx_order::Order;
use vx_sink::{BufferedBytesReservation, LayoutWriterContext};
use vx_write_answer::{ActionKind, WriteError};

/// Puts an item on the queue of a child.
pub fn put<O: Order>(
    order: &mut O,
    kids: &mut Vec<Task>,
    child: usize,
    item: Item,
) -> Result<ActionKind, WriteError>
    requires owned { Owned (O.active order.old) (both (tasks_stock kids.old.items) (item_stock item)) }
    requires room { IsTrue (room_at child (kids_of kids.old.items)) }
    ensures moved { Moved (O.active order.old) (O.active order.new) (both (tasks_stock kids.old.items) (item_stock item)) (tasks_stock kids.new.items) }
    ensures same { tasks_reserved kids.new.items ≡ tasks_reserved kids.old.items }
    ensures kind { IfOk result (λ a. a ≡ ActionKind.Put) }
    ensures kids { OnOk result (row kids.new.items ≡ give child (item_of item) (row kids.old.items)) }
    ensures outlet { O.outlet order.new ≡ O.outlet order.old }
    ensures sink { O.sink order.new ≡ O.sink order.old }
    ensures memory { IfErr result (λ e. e ≡ WriteError.OutOfMemory) }
{
    match kids[child].give(item) {
        Ok(()) => Ok(ActionKind::Put),
        Err(item) => {
            give_up_item(order, item);
            Err(WriteError::OutOfMemory)
        }
    }
}

/// Puts an item on the queue of the only child. Then what was reserved for it is released, and before where there is no
/// memory.
pub fn hand_over<O: Order>(
    ctx: &mut LayoutWriterContext,
    order: &mut O,
    kids: &mut Vec<Task>,
    item: Item,
    reservation: Option<BufferedBytesReservation>,
) -> Result<ActionKind, WriteError>
    requires owned { Owned (O.active order.old) (both (tasks_stock kids.old.items) (item_stock item)) }
    requires reserved { some_bytes reservation ≤ counted ctx.old }
    requires room { IsTrue (room_at 0 (kids_of kids.old.items)) }
    ensures moved { Moved (O.active order.old) (O.active order.new) (both (tasks_stock kids.old.items) (item_stock item)) (tasks_stock kids.new.items) }
    ensures tracked { Paid ctx.old ctx.new (some_bytes reservation) 0 }
    ensures context { told_by ctx.new ≡ told_by ctx.old }
    ensures same { tasks_reserved kids.new.items ≡ tasks_reserved kids.old.items }
    ensures kind { IfOk result (λ a. a ≡ ActionKind.Put) }
    ensures kids { OnOk result (row kids.new.items ≡ give 0 (item_of item) (row kids.old.items)) }
    ensures outlet { O.outlet order.new ≡ O.outlet order.old }
    ensures sink { O.sink order.new ≡ O.sink order.old }
    ensures memory { IfErr result (λ e. e ≡ WriteError.OutOfMemory) }
{
    let given = put(order, kids, 0, item);
    release(ctx, reservation);
    given
}

/// Tells each that no chunk comes any more.
pub fn close_all(kids: &mut Vec<Task>)
    ensures stock { tasks_stock kids.new.items ≡ tasks_stock kids.old.items }
    ensures reserved { tasks_reserved kids.new.items ≡ tasks_reserved kids.old.items }
    ensures kids { row kids.new.items ≡ shut_all (row kids.old.items) }
{
    'kids: for i in 0..kids.len() {
        kids[i].shut();
    }
}

/// Appends a segment; then the task has its layout.
pub fn append_due<O: Order>(
    ctx: &mut LayoutWriterContext,
    order: &mut O,
    local: &mut Local,
    stored: Stored,
) -> Result<ActionKind, WriteError>
    requires owned { Owned (O.active order.old) (both (local_stock local.old) (stored_stock stored)) }
    requires reserved { local_reserved local.old ≤ counted ctx.old }
    requires least { IsLeast (O.active order.old) stored.id }
    requires allowed { O.may_write order.old stored.id stored.segment.bytes.items }
    ensures moved { Moved (O.active order.old) (O.active order.new) (both (local_stock local.old) (stored_stock stored)) (local_stock local.new) }
    ensures tracked { Paid ctx.old ctx.new (local_reserved local.old) (local_reserved local.new) }
    ensures context { told_by ctx.new ≡ told_by ctx.old }
    ensures done { IfOk result (λ a. (n : ℕ) × ((s : Setting) (name : List ℕ) (mind : Mind) (ks : Tasks) (left : List Next) → s.encodings ≡ listed ctx.old
        → ActDone (acted s name n mind ks (append_next (stored_of stored))) (O.outlet order.old) n (O.outlet order.new) (mind_of local.new) left left ks a)) }
    ensures refused { IfErr result (AppendRefused (O.outlet order.old) (stored.id, stored.segment.bytes.items)) }
    ensures kept { OnErr result (Kept (O.outlet order.old) (O.outlet order.new)) }
    ensures told { TaskTold (O.Sink.faults (O.sink order.old)) (O.Sink.faults (O.sink order.new)) (O.Sink.may_fail (O.sink order.old)) (O.Sink.may_fail (O.sink order.new))
        (O.Sink.must_fail (O.sink order.old)) (O.Sink.must_fail (O.sink order.new)) result (λ a. a) }
    ensures cause { IfErr result AppendMay }
{
    match append(ctx, order, stored) {
        Ok(layout) => {
            set_local(ctx, order, local, Local::Made(layout));
            Ok(ActionKind::Append)
        }
        Err(error) => Err(error),
    }
}

/// Joins the layouts of the children; then the task has its layout.
pub fn join_due<O: Order>(
    alloc: Global,
    ctx: &mut LayoutWriterContext,
    order: &mut O,
    local: &mut Local,
    kids: &mut Vec<Task>,
    shape: Shape,
) -> Result<ActionKind, WriteError>
    requires owned { Owned (O.active order.old) (both (local_stock local.old) (tasks_stock kids.old.items)) }
    requires reserved { local_reserved local.old + tasks_reserved kids.old.items ≤ counted ctx.old }
    requires made { IsTrue (all_made (kids_of kids.old.items)) }
    ensures moved { Moved (O.active order.old) (O.active order.new) (both (local_stock local.old) (tasks_stock kids.old.items)) (both (local_stock local.new) (tasks_stock kids.new.items)) }
    ensures tracked { Paid ctx.old ctx.new (local_reserved local.old + tasks_reserved kids.old.items) (local_reserved local.new + tasks_reserved kids.new.items) }
    ensures context { told_by ctx.new ≡ told_by ctx.old }
    ensures done { IfOk result (λ a. (s : Setting) (name : List ℕ) (n : ℕ) (mind : Mind) (left : List Next)
        → ActDone (acted s name n mind (row kids.old.items) (join_kids (fold_of shape))) (O.outlet order.old) n (O.outlet order.new) (mind_of local.new) left left (row kids.new.items) a) }
    ensures refused { IfErr result (JoinRefused (joined_rows (fold_of shape) (layouts_in (row kids.old.items)))) }
    ensures outlet { O.outlet order.new ≡ O.outlet order.old }
    ensures sink { O.sink order.new ≡ O.sink order.old }
    ensures cause { IfErr result MayCome }
{
    match join(alloc, ctx, order, kids, shape) {
        Ok(layout) => {
            set_local(ctx, order, local, Local::Made(layout));
            Ok(ActionKind::Join)
        }
        Err(error) => Err(error),
    }
}
