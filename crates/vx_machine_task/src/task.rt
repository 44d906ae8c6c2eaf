//! Tasks, and how they give up all that they hold.

ghost use Rattle.std.specs.Prelude.{◌≡◌, ◌≤◌, ◌+◌, [], ◌∷◌, IsTrue, IfErr, OnOk};
ghost use Rattle.vx_layout_tree.specs.LayoutView.{layout_data};
ghost use Rattle.vx_machine_ids.specs.Stock.{none, both};
ghost use Rattle.vx_machine_ids.specs.Balance.{Owned, Moved};
ghost use Rattle.vx_machine_state.specs.State.{Tasks, no_tasks, task_then};
ghost use Rattle.vx_machine_state.specs.Acts.{with_item, shut_desk, layouts_in};
ghost use Rattle.vx_sink.specs.ContextView.{counted};
ghost use Rattle.vx_machine_node.specs.Ledger.{Paid, told_by};
ghost use Rattle.vx_machine_task.specs.Ledger.{head_reserved, task_reserved, tasks_reserved};
ghost use Rattle.vx_machine_task.specs.Ready.{is_done as is_done_task};
ghost use Rattle.vx_machine_node.specs.Stocks.{item_stock};
ghost use Rattle.vx_machine_task.specs.Stocks.{head_stock, task_stock, tasks_stock};
ghost use Rattle.vx_machine_node.specs.View.{item_of};
ghost use Rattle.vx_machine_task.specs.View.{desk_of, task_row, row};
ghost use Rattle.vx_machine_task.specs.declared.task.Task.{out-Task};

use std::alloc::{AllocFailed, Global};
use std::collections::VecDeque;
use vx_layout_tree::Layout;
use vx_machine_node::{Due, Item, Local, give_up_dues, give_up_items, give_up_local};
use vx_model::ArrayContext;
use vx_order::Order;
use vx_path::owned::Path;
use vx_sink::LayoutWriterContext;

/// A task by itself.
pub struct Head {
    pub name: Path,
    pub local: Local,
    pub todo: VecDeque<Due>,
    /// The queue of what is still to be taken, its places, and whether it is closed.
    pub inbox: VecDeque<Item>,
    pub places: usize,
    pub closed: bool,
}

/// A task with the children that it started.
pub struct Task {
    pub head: Head,
    pub kids: Vec<Task>,
}

fn give_up_head<O: Order>(ctx: &mut LayoutWriterContext, order: &mut O, head: Head)
    requires owned { Owned (O.active order.old) (head_stock head) }
    requires reserved { head_reserved head ≤ counted ctx.old }
    ensures moved { Moved (O.active order.old) (O.active order.new) (head_stock head) none }
    ensures tracked { Paid ctx.old ctx.new (head_reserved head) 0 }
    ensures context { told_by ctx.new ≡ told_by ctx.old }
    ensures outlet { O.outlet order.new ≡ O.outlet order.old }
    ensures sink { O.sink order.new ≡ O.sink order.old }
{
    let Head {
        name: _name,
        local,
        todo,
        inbox,
        places: _,
        closed: _,
    } = head;
    give_up_local(ctx, order, local);
    give_up_dues(ctx, order, todo);
    give_up_items(order, inbox);
}

impl Head {
    /// Puts an item on the queue. One for which there is no memory is handed back.
    fn enqueue(&mut self, item: Item) -> Result<(), Item>
        ensures given { OnOk result (head_stock self.new ≡ both (head_stock self.old) (item_stock item)) }
        ensures reserved { head_reserved self.new ≡ head_reserved self.old }
        ensures shows { OnOk result (desk_of self.new ≡ with_item (desk_of self.old) (item_of item)) }
        ensures unchanged { IfErr result (λ i. (i ≡ item) × (head_stock self.new ≡ head_stock self.old)) }
    {
        match self.inbox.push_back(item) {
            Ok(()) => Ok(()),
            Err(AllocFailed { value }) => Err(value),
        }
    }
}

impl Task {
    /// Gives up all ids and pointers, and releases all reservations.
    #[cycle(refuse)]
    pub fn refuse<O: Order>(self, ctx: &mut LayoutWriterContext, order: &mut O)
        requires owned { Owned (O.active order.old) (task_stock self) }
        requires reserved { task_reserved self ≤ counted ctx.old }
        ensures moved { Moved (O.active order.old) (O.active order.new) (task_stock self) none }
        ensures tracked { Paid ctx.old ctx.new (task_reserved self) 0 }
        ensures context { told_by ctx.new ≡ told_by ctx.old }
        ensures outlet { O.outlet order.new ≡ O.outlet order.old }
        ensures sink { O.sink order.new ≡ O.sink order.old }
    {
        let Task { head, kids } = self;
        give_up_head(ctx, order, head);
        refuse_all(kids, ctx, order);
    }

    /// The layout of a task that has done all: its own, or its only child's.
    pub fn into_layout(self) -> Layout
        requires { IsTrue (is_done_task self) }
        ensures free { task_stock self ≡ none }
        ensures unreserved { task_reserved self ≡ 0 }
        ensures layout { layouts_in (task_row self no_tasks) ≡ layout_data result ∷ [] }
    {
        let Task { head, mut kids } = self;
        let Head {
            name: _name,
            local,
            todo,
            inbox,
            places: _,
            closed: _,
        } = head;
        todo.destroy_empty();
        inbox.destroy_empty();
        match local {
            Local::Made(layout) => {
                kids.destroy_empty();
                layout
            }
            Local::Passing => match kids.pop() {
                Some(kid) => {
                    kids.destroy_empty();
                    kid.into_layout()
                }
                None => unreachable!(),
            },
            _ => unreachable!(),
        }
    }

    /// Closes the queue.
    pub fn shut(&mut self)
        ensures held { task_stock self.new ≡ task_stock self.old }
        ensures reserved { task_reserved self.new ≡ task_reserved self.old }
        ensures shows { (r : Tasks) → task_row self.new r ≡ task_then (shut_desk (desk_of (out-Task self.old).head)) (row (out-Task self.old).kids.items) r }
    {
        self.head.closed = true;
    }

    /// Puts an item on the queue. One for which there is no memory is handed back.
    pub fn give(&mut self, item: Item) -> Result<(), Item>
        ensures given { OnOk result (task_stock self.new ≡ both (task_stock self.old) (item_stock item)) }
        ensures reserved { task_reserved self.new ≡ task_reserved self.old }
        ensures shows { OnOk result ((r : Tasks) → task_row self.new r ≡ task_then (with_item (desk_of (out-Task self.old).head) (item_of item)) (row (out-Task self.old).kids.items) r) }
        ensures unchanged { IfErr result (λ i. (i ≡ item) × (task_stock self.new ≡ task_stock self.old)) }
    {
        match self.head.enqueue(item) {
            Ok(()) => Ok(()),
            Err(item) => Err(item),
        }
    }
}

/// Gives up all ids and pointers, and releases all reservations.
#[cycle(refuse)]
pub fn refuse_all<O: Order>(mut kids: Vec<Task>, ctx: &mut LayoutWriterContext, order: &mut O)
    requires owned { Owned (O.active order.old) (tasks_stock kids.items) }
    requires reserved { tasks_reserved kids.items ≤ counted ctx.old }
    ensures moved { Moved (O.active order.old) (O.active order.new) (tasks_stock kids.items) none }
    ensures tracked { Paid ctx.old ctx.new (tasks_reserved kids.items) 0 }
    ensures context { told_by ctx.new ≡ told_by ctx.old }
    ensures outlet { O.outlet order.new ≡ O.outlet order.old }
    ensures sink { O.sink order.new ≡ O.sink order.old }
{
    'kids: while let Some(kid) = kids.pop() {
        kid.refuse(ctx, order);
    }
    kids.destroy_empty();
}

/// Gives up tasks that have reserved nothing, as those that were just started.
pub fn refuse_started<O: Order>(alloc: Global, kids: Vec<Task>, order: &mut O)
    requires owned { Owned (O.active order.old) (tasks_stock kids.items) }
    requires reserved { tasks_reserved kids.items ≡ 0 }
    ensures moved { Moved (O.active order.old) (O.active order.new) (tasks_stock kids.items) none }
    ensures outlet { O.outlet order.new ≡ O.outlet order.old }
    ensures sink { O.sink order.new ≡ O.sink order.old }
{
    match ArrayContext::try_new(Vec::new(alloc)) {
        Ok(none) => {
            let mut ctx = LayoutWriterContext::new(none);
            refuse_all(kids, &mut ctx, order);
            drop(ctx);
        }
        // No encoding is named twice.
        Err(_) => unreachable!(),
    }
}
