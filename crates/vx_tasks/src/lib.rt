//! The theory of tasks that never get stuck: trees of tasks with queues, joins and appends in order of
//! path. A tree is a list of actions a task; the laws hold for every tree whose lists keep stated rules.
#![tactic(auto)]

pub mod instances;
pub mod laws;
pub mod nodes;
