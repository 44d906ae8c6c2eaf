//! The machine.

ghost use Rattle.vx_kept.specs.Kept.{Knows};
ghost use Rattle.vx_kept.specs.Props.{knows_prop};
ghost use Rattle.vx_machine_task.specs.View.{row};
ghost use Rattle.vx_machine_task.specs.declared.task.Task.{out-Task};

use crate::source::Phase;
use std::alloc::Global;
use vx_kept::Counts;
use vx_machine_task::Task;

/// Tasks that write a stream of batches: the source's, named `[0]`, and those of nodes, of which the root's is named `[1]`; and
/// how many are ready, as was counted last. These counts are right, whatever the order holds, but for the tasks that are to be
/// counted anew.
///
/// A machine must be spent, by `finish` or `refuse`.
pub struct Machine {
    pub(crate) alloc: Global,
    pub(crate) phase: Phase,
    pub(crate) root: Task,
    pub(crate) counts: Counts,
    ghost known: { Knows counts (row (out-Task root).kids.items) } by { knows_prop counts (row (out-Task root).kids.items) },
}
