//! The workers of a write by columns.
#![tactic(auto)]

mod names;
mod staff;
mod steps;
mod worker;

pub use staff::{Staff, dismiss, hire, run_workers};
pub use worker::{Done, Job, Outcome, Worker};
