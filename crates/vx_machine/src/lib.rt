//! The step machine: the source's task and the root's with all below it, from their start to the layout. Each step is the next
//! act of one ready task.
#![tactic(auto)]

mod machine;
mod names;
mod running;
mod source;
mod stepping;

pub use machine::Machine;
pub use running::run;
pub use vx_machine_ids::{give_up_pointer, take_below};
