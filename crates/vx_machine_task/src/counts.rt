//! How many tasks are ready, by counts that are kept from step to step.

ghost use Rattle.std.specs.Prelude.{◌≡◌, ℕ, List, [], ◌∷◌, true, false, IfOk, OnOk};
ghost use Rattle.std.specs.FinMap as fin;
ghost use Rattle.vx_machine_ids.specs.Balance.{Owned};
ghost use Rattle.vx_kept.specs.Kept.{FreshFrom, Fresh, KnowsFrom, Knows, GoingFrom, asked_of};
ghost use Rattle.vx_kept.specs.Follow.{touched_by, waits};
ghost use Rattle.vx_machine_task.specs.Stocks.{task_stock, tasks_stock};
ghost use Rattle.vx_machine_node.specs.View.{todo_of};
ghost use Rattle.vx_machine_task.specs.View.{row};
ghost use Rattle.vx_machine_task.specs.Ready.{ready_in, counted};
ghost use Rattle.vx_machine_task.specs.Counting.{AllKnown};
ghost use Rattle.vx_machine_task.specs.declared.task.Task.{out-Task};

use crate::ready::{may, one};
use crate::task::{Head, Task};
use std::alloc::{AllocError, Global};
use vx_kept::{Counts, Touched, top_up};
use vx_machine_node::Due;
use vx_order::Order;
use vx_tally::Tally;

/// Whether a task's count stays right whatever happens elsewhere: no append is next of it, and none below it.
fn is_steady(head: &Head, counts: &Counts) -> bool
    ensures { result ≡ true → (waits (todo_of head.now.todo.items) ≡ false) × (asked_of counts.now ≡ []) }
{
    match head.todo.front() {
        Some(due) => match due {
            Due::Append(_) => false,
            Due::Put { .. } | Due::HandOn { .. } => counts.asked.is_empty(),
            Due::Close | Due::Join(_) | Due::Press { .. } => counts.asked.is_empty(),
            Due::Table(_) | Due::Leave(_) => counts.asked.is_empty(),
            Due::Ask(_) | Due::OpenRun { .. } => counts.asked.is_empty(),
            Due::EndRun { .. } => counts.asked.is_empty(),
        },
        None => counts.asked.is_empty(),
    }
}

/// What the next act may change below the task.
pub fn touched(head: &Head) -> Touched
    ensures { result ≡ touched_by (todo_of head.now.todo.items) }
{
    match head.todo.front() {
        Some(due) => match due {
            Due::Put { child, item: _ } => Touched::Child(*child),
            Due::HandOn { .. } => Touched::Child(0),
            Due::Append(_) | Due::Press { .. } => Touched::Nothing,
            Due::Table(_) | Due::Leave(_) => Touched::Nothing,
            Due::Ask(_) | Due::OpenRun { .. } => Touched::Nothing,
            Due::EndRun { child, item: _ } => Touched::Both(*child),
            Due::Close | Due::Join(_) => Touched::All,
        },
        None => Touched::Nothing,
    }
}

impl Task {
    /// How many are ready, of this task and all below it, as far as 64 bits tell. It counts anew what the counts ask for.
    #[cycle(counts)]
    pub fn count_ready<O: Order>(
        &self,
        alloc: Global,
        order: &O,
        counts: &mut Counts,
    ) -> Result<u64, AllocError>
        requires owned { Owned (O.active order.now) (task_stock self.now) }
        requires known { Knows counts.old (row (out-Task self.now).kids.items) }
        ensures told { IfOk result (λ n. n ≡ counted (ready_in (O.active order.now) self.now)) }
        ensures fresh { OnOk result (Fresh (fin.keys (O.active order.now)) counts.new (row (out-Task self.now).kids.items)) }
    {
        let own = one(may(order, &self.head, &self.kids));
        count_kids(
            alloc,
            &self.kids,
            order,
            &mut counts.ready,
            &mut counts.asked,
            &mut counts.kids,
        )?;
        Ok(own.saturating_add(counts.ready.sum()))
    }
}

/// Counts anew the children that are asked for. Whether an append is ready depends on all other tasks, so a child with one that
/// is next is asked for again.
#[cycle(counts)]
fn count_kids<O: Order>(
    alloc: Global,
    kids: &[Task],
    order: &O,
    ready: &mut Tally,
    asked: &mut Vec<usize>,
    below: &mut Vec<Counts>,
) -> Result<(), AllocError>
    requires owned { Owned (O.active order.now) (tasks_stock kids.now) }
    requires known { KnowsFrom asked.old.items 0 ready.old below.old.items (row kids.now) }
    ensures fresh { OnOk result (FreshFrom (fin.keys (O.active order.now)) asked.new.items 0 ready.new below.new.items (row kids.now)) }
{
    top_up(alloc, ready, asked, below, kids.len())?;
    let mut later = Vec::new(alloc);
    'asked: while let Some(i) = asked.pop() {
        count_kid(alloc, kids, order, ready, below, &mut later, i)?;
    }
    *asked = later;
    Ok(())
}

/// Counts child i anew. Where its count isn't steady, it is noted to be counted again.
#[cycle(counts)]
fn count_kid<O: Order>(
    alloc: Global,
    kids: &[Task],
    order: &O,
    ready: &mut Tally,
    below: &mut Vec<Counts>,
    later: &mut Vec<usize>,
    i: usize,
) -> Result<(), AllocError>
    requires owned { Owned (O.active order.now) (tasks_stock kids.now) }
    requires known { AllKnown ready.old below.old.items kids.now }
    ensures going { OnOk result ((asked : List ℕ) → GoingFrom (fin.keys (O.active order.now)) (i ∷ asked) later.old.items 0 ready.old below.old.items (row kids.now)
        → GoingFrom (fin.keys (O.active order.now)) asked later.new.items 0 ready.new below.new.items (row kids.now)) }
{
    if i >= kids.len() {
        return Ok(());
    }
    let n = kids[i].count_ready(alloc, order, &mut below[i])?;
    ready.set(i, n);
    if is_steady(&kids[i].head, &below[i]) {
        return Ok(());
    }
    later.push(i)?;
    Ok(())
}
