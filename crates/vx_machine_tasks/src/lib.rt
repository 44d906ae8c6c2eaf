//! Tasks of the step machine at work: they take chunks from queues, start children, put parts of chunks on queues, and append
//! segments in the order of their paths, a step at a time.
#![tactic(auto)]

mod advance;
mod dict_acts;
mod steps;

pub use steps::{Did, step};
pub use vx_machine_children::start_task;
