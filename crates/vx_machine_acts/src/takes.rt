//! Takes of chunks that start no child.

ghost use Rattle.std.specs.Prelude.{◌≡◌, ◌≤◌, ◌+◌, ℕ, List, [], IsTrue, IfErr, OnOk};
ghost use Rattle.vx_machine_ids.specs.Stock.{both};
ghost use Rattle.vx_machine_ids.specs.Balance.{Owned, Moved};
ghost use Rattle.vx_sink.specs.ContextView.{counted};
ghost use Rattle.vx_plan.specs.PlanData.{Setting};
ghost use Rattle.vx_machine_state.specs.State.{Tasks};
ghost use Rattle.vx_machine_nodes.specs.Acting.{taken, Took, TakeRefused, TakeStopped, is_grouped, is_probe, is_cutting};
ghost use Rattle.vx_machine_node.specs.Causes.{MayCome};
ghost use Rattle.vx_machine_node.specs.Ledger.{Paid, told_by, dues_reserved, local_reserved};
ghost use Rattle.vx_machine_node.specs.Stocks.{item_stock, dues_stock, local_stock};
ghost use Rattle.vx_machine_node.specs.View.{item_of, todo_of, mind_of};

use std::alloc::Global;
use std::collections::VecDeque;
use std::mem;
use vx_machine_node::{Due, Item, Local, set_local};
use vx_machine_nodes::{take_grouped, take_probe, take_runs};
use vx_order::Order;
use vx_sink::LayoutWriterContext;
use vx_write_answer::WriteError;

/// Takes a chunk where the task's node regroups.
pub fn regroup<O: Order>(
    alloc: Global,
    ctx: &mut LayoutWriterContext,
    order: &mut O,
    local: &mut Local,
    todo: &mut VecDeque<Due>,
    item: Item,
) -> Result<(), WriteError>
    requires owned { Owned (O.active order.old) (both (both (local_stock local.old) (dues_stock todo.old.items)) (item_stock item)) }
    requires reserved { local_reserved local.old + dues_reserved todo.old.items ≤ counted ctx.old }
    requires grouped { IsTrue (is_grouped local.old) }
    ensures moved { Moved (O.active order.old) (O.active order.new) (both (both (local_stock local.old) (dues_stock todo.old.items)) (item_stock item)) (both (local_stock local.new) (dues_stock todo.new.items)) }
    ensures tracked { Paid ctx.old ctx.new (local_reserved local.old + dues_reserved todo.old.items) (local_reserved local.new + dues_reserved todo.new.items) }
    ensures context { told_by ctx.new ≡ told_by ctx.old }
    ensures done { OnOk result ((s : Setting) (name : List ℕ) (ks : Tasks) → Took (taken s name ks (item_of item) (mind_of local.old)) (mind_of local.new) (todo_of todo.new.items) (todo_of todo.old.items) ks) }
    ensures refused { IfErr result (λ e. (s : Setting) (name : List ℕ) (ks : Tasks) → TakeStopped (counted ctx.old) (taken s name ks (item_of item) (mind_of local.old)) e) }
    ensures outlet { O.outlet order.new ≡ O.outlet order.old }
    ensures sink { O.sink order.new ≡ O.sink order.old }
    ensures cause { IfErr result MayCome }
{
    match mem::replace(local, Local::Over) {
        Local::Grouped(node) => match take_grouped(alloc, ctx, order, node, todo, item) {
            Ok(node) => {
                set_local(ctx, order, local, Local::Grouped(node));
                Ok(())
            }
            Err(error) => Err(error),
        },
        _ => unreachable!(),
    }
}

/// Takes the first chunk of a dictionary node.
pub fn ask_first<O: Order>(
    order: &mut O,
    local: &mut Local,
    todo: &mut VecDeque<Due>,
    item: Item,
) -> Result<(), WriteError>
    requires owned { Owned (O.active order.old) (both (both (local_stock local.old) (dues_stock todo.old.items)) (item_stock item)) }
    requires probe { IsTrue (is_probe local.old) }
    ensures moved { Moved (O.active order.old) (O.active order.new) (both (both (local_stock local.old) (dues_stock todo.old.items)) (item_stock item)) (both (local_stock local.new) (dues_stock todo.new.items)) }
    ensures reserved { dues_reserved todo.new.items ≡ dues_reserved todo.old.items }
    ensures unreserved { (local_reserved local.old ≡ 0) × (local_reserved local.new ≡ 0) }
    ensures done { OnOk result ((s : Setting) (name : List ℕ) (ks : Tasks) → Took (taken s name ks (item_of item) (mind_of local.old)) (mind_of local.new) (todo_of todo.new.items) (todo_of todo.old.items) ks) }
    ensures refused { IfErr result (λ e. (s : Setting) (name : List ℕ) (ks : Tasks) → TakeRefused (taken s name ks (item_of item) (mind_of local.old)) e) }
    ensures outlet { O.outlet order.new ≡ O.outlet order.old }
    ensures sink { O.sink order.new ≡ O.sink order.old }
    ensures cause { IfErr result MayCome }
{
    match mem::replace(local, Local::Asking) {
        Local::Probe(node, pointer) => take_probe(order, node, pointer, todo, item),
        _ => unreachable!(),
    }
}

/// Takes a chunk where the task's node cuts runs.
pub fn cut_runs<O: Order>(
    alloc: Global,
    ctx: &mut LayoutWriterContext,
    order: &mut O,
    local: &mut Local,
    todo: &mut VecDeque<Due>,
    item: Item,
) -> Result<(), WriteError>
    requires owned { Owned (O.active order.old) (both (both (local_stock local.old) (dues_stock todo.old.items)) (item_stock item)) }
    requires cutting { IsTrue (is_cutting local.old) }
    ensures moved { Moved (O.active order.old) (O.active order.new) (both (both (local_stock local.old) (dues_stock todo.old.items)) (item_stock item)) (both (local_stock local.new) (dues_stock todo.new.items)) }
    ensures tracked { counted ctx.new ≡ counted ctx.old }
    ensures context { told_by ctx.new ≡ told_by ctx.old }
    ensures reserved { dues_reserved todo.new.items ≡ dues_reserved todo.old.items }
    ensures unreserved { (local_reserved local.old ≡ 0) × (local_reserved local.new ≡ 0) }
    ensures done { todo.old.items ≡ [] → OnOk result ((s : Setting) (name : List ℕ) (ks : Tasks) → Took (taken s name ks (item_of item) (mind_of local.old)) (mind_of local.new) (todo_of todo.new.items) (todo_of todo.old.items) ks) }
    ensures refused { IfErr result (λ e. (s : Setting) (name : List ℕ) (ks : Tasks) → TakeRefused (taken s name ks (item_of item) (mind_of local.old)) e) }
    ensures outlet { O.outlet order.new ≡ O.outlet order.old }
    ensures sink { O.sink order.new ≡ O.sink order.old }
    ensures cause { IfErr result MayCome }
{
    match mem::replace(local, Local::Over) {
        Local::Runs(runs) => match take_runs(alloc, order, runs, todo, item) {
            Ok(runs) => {
                set_local(ctx, order, local, Local::Runs(runs));
                Ok(())
            }
            Err(error) => Err(error),
        },
        _ => unreachable!(),
    }
}
