//! The cutter of runs: the longest stretches of rows whose distinct cells fit a dictionary.
#![tactic(auto)]

mod codes;
mod costs;
mod cutter;
mod outputs;
mod rows;

pub use codes::{code_ptype, codes_chunk};
pub use cutter::RunCutter;
pub use rows::cost_with;
