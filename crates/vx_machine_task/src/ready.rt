//! Which tasks are ready.

ghost use Rattle.std.specs.Prelude.{◌≡◌, if◌then◌else◌};
ghost use Rattle.std.specs.FinMap as fin;
ghost use Rattle.vx_machine_ids.specs.Stock.{one as one_if};
ghost use Rattle.vx_machine_ids.specs.Balance.{Owned};
ghost use Rattle.vx_machine_state.specs.State.{no_tasks};
ghost use Rattle.vx_machine_state.specs.Moves.{may_act};
ghost use Rattle.vx_machine_state.specs.Places.{ready_in as ready_steps};
ghost use Rattle.vx_machine_node.specs.Stocks.{due_stock};
ghost use Rattle.vx_machine_task.specs.Stocks.{head_stock, task_stock, tasks_stock};
ghost use Rattle.vx_machine_node.specs.View.{todo_of};
ghost use Rattle.vx_machine_task.specs.View.{desk_of, task_row, row};
ghost use Rattle.vx_machine_task.specs.Ready.{made_of as has_done, is_done as is_done_task, is_over as takes_no_more, kids_of, all_made as have_layouts, room_at, can_join as joins, columns_fit as are_columns, lists_fit as are_parts, may_due as may_do, may_take as may_begin, may_now, ready_in, ready_among, counted};

use crate::task::{Head, Task};
use vx_layout_shape::struct_children;
use vx_machine_node::{ColumnsNode, Due, ListsNode, Local, Shape};
use vx_order::Order;

/// Whether it has done all: its layout is there, or that of its children where it passes them on.
#[cycle(made)]
fn is_made(kid: &Task) -> bool
    ensures { result ≡ has_done kid.now }
{
    match &kid.head.local {
        Local::Made(_) => true,
        Local::Passing => kid.head.todo.is_empty() && all_made(&kid.kids),
        Local::Empty(_) | Local::Full(_) | Local::Chunked(..) | Local::Grouped(_) => false,
        Local::Columns(..) | Local::Lists(..) | Local::Zoned(_) | Local::Over => false,
        Local::Pressing(_) | Local::AsIs => false,
        Local::Probe(..) | Local::Asking | Local::Runs(_) => false,
    }
}

fn is_over(local: &Local) -> bool
    ensures { result ≡ takes_no_more local.now }
{
    match local {
        Local::Made(_) | Local::Over | Local::Passing => true,
        Local::Empty(_) | Local::Full(_) | Local::Chunked(..) => false,
        Local::Columns(..) | Local::Lists(..) | Local::Grouped(_) => false,
        Local::Zoned(_) | Local::Pressing(_) | Local::AsIs => false,
        Local::Probe(..) | Local::Asking | Local::Runs(_) => false,
    }
}

/// Whether child `child` is there, and its queue has a place.
pub fn has_room(kids: &[Task], child: usize) -> bool
    ensures { result ≡ room_at child (kids_of kids.now) }
{
    match kids.get(child) {
        Some(kid) => kid.head.inbox.len() < kid.head.places,
        None => false,
    }
}

/// From the last one on, which mostly comes last.
#[cycle(made)]
fn all_made(kids: &[Task]) -> bool
    ensures { result ≡ have_layouts (kids_of kids.now) }
{
    let mut i = kids.len();
    'kids: while i > 0 {
        i -= 1;
        if !is_made(&kids[i]) {
            return false;
        }
    }
    true
}

/// Whether the type has so many columns.
pub fn columns_fit(node: &ColumnsNode, kids: usize) -> bool
    ensures { result ≡ are_columns node.now kids }
{
    kids as u64 == struct_children(&node.dtype)
}

/// Whether there are as many as a list's columns.
pub fn lists_fit(node: &ListsNode, kids: usize) -> bool
    ensures { result ≡ are_parts node.now kids }
{
    kids == list_columns(node.dtype.is_nullable())
}

/// Elements and offsets, and the validity.
fn list_columns(nullable: bool) -> usize
    ensures { result ≡ (if nullable then 3 else 2) }
{
    if nullable { 3 } else { 2 }
}

fn can_join(shape: &Shape, kids: usize) -> bool
    ensures { result ≡ joins shape.now kids }
{
    match shape {
        Shape::Chunks(_) => true,
        Shape::Columns(node, _) => columns_fit(node, kids),
        Shape::Lists(node, _) => lists_fit(node, kids),
        Shape::Zones(_) => kids == 2,
        Shape::Runs(_, rows) => kids == 2 * rows.len(),
    }
}

/// Whether an act may be done now, of a task with these children.
fn may_due<O: Order>(order: &O, due: &Due, kids: &[Task]) -> bool
    requires { Owned (O.active order.now) (due_stock due.now) }
    ensures { result ≡ may_do (O.active order.now) due.now (kids_of kids.now) }
{
    match due {
        Due::Put { child, item: _ } => has_room(kids, *child),
        Due::HandOn { .. } => has_room(kids, 0),
        Due::Press { .. } => true,
        Due::Append(stored) => order.is_least(&stored.id),
        Due::Close => true,
        Due::Join(shape) => {
            let made = all_made(kids);
            made && can_join(shape, kids.len())
        }
        Due::Table(_) | Due::Leave(_) => all_made(kids),
        Due::Ask(_) | Due::OpenRun { .. } => true,
        Due::EndRun { child, item: _ } => *child < kids.len() && has_room(kids, *child + 1),
    }
}

fn may_take(head: &Head) -> bool
    ensures { result ≡ may_begin head.now }
{
    !is_over(&head.local) && (!head.inbox.is_empty() || head.closed)
}

/// Whether the task itself may do its next act.
pub fn may<O: Order>(order: &O, head: &Head, kids: &[Task]) -> bool
    requires { Owned (O.active order.now) (head_stock head.now) }
    ensures told { result ≡ may_now (O.active order.now) head.now (kids_of kids.now) }
    ensures view { result ≡ may_act (fin.keys (O.active order.now)) (desk_of head.now) (row kids.now) (todo_of head.now.todo.items) }
{
    match head.todo.front() {
        Some(due) => may_due(order, due, kids),
        None => may_take(head),
    }
}

/// One, where it is so.
pub fn one(is: bool) -> u64
    ensures { result ≡ one_if is }
{
    if is { 1 } else { 0 }
}

impl Task {
    /// Whether its layout is there, its own or its only child's, and nothing else.
    pub fn is_done(&self) -> bool
        ensures { result ≡ is_done_task self.now }
    {
        let idle = self.head.todo.is_empty();
        let empty = self.head.inbox.is_empty();
        let there = match &self.head.local {
            Local::Made(_) => self.kids.is_empty(),
            Local::Passing => match self.kids.as_slice() {
                [kid] => kid.is_done(),
                _ => false,
            },
            _ => false,
        };
        there && (idle && empty)
    }

    /// How many are ready, of this task and all below it, as far as 64 bits tell. It counts anew.
    #[cycle(ready)]
    pub fn ready<O: Order>(&self, order: &O) -> u64
        requires { Owned (O.active order.now) (task_stock self.now) }
        ensures told { result ≡ counted (ready_in (O.active order.now) self.now) }
        ensures view { result ≡ counted (ready_steps (fin.keys (O.active order.now)) (task_row self.now no_tasks)) }
    {
        let own = one(may(order, &self.head, &self.kids));
        own.saturating_add(ready_of(&self.kids, order))
    }
}

/// How many are ready of these tasks and all below them.
#[cycle(ready)]
fn ready_of<O: Order>(kids: &[Task], order: &O) -> u64
    requires { Owned (O.active order.now) (tasks_stock kids.now) }
    ensures told { result ≡ counted (ready_among (O.active order.now) kids.now) }
    ensures view { result ≡ counted (ready_steps (fin.keys (O.active order.now)) (row kids.now)) }
{
    let mut ready = 0u64;
    for kid in kids {
        ready = ready.saturating_add(kid.ready(order));
    }
    ready
}
