//! Tasks of the step machine, which own their queues, what they have in mind and the tasks that they started: how they are
//! given chunks, which of them are ready, and how they give up all that they hold.
#![tactic(auto)]

mod counts;
mod ready;
mod task;

pub use counts::touched;
pub use ready::{columns_fit, has_room, lists_fit, may, one};
pub use task::{Head, Task, refuse_all, refuse_started};
