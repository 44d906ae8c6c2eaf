//! A dictionary that is filled row by row: codes of the longest front of rows whose distinct cells fit, and its values.
#![tactic(auto)]

mod encoder;
mod front;
mod laws;

pub use encoder::DictEncoder;
pub use laws::{fronts_begin, fronts_cut_runs, fronts_give_rows, fronts_join};
