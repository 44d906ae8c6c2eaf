//! The command that writes a job column by column, each in a thread of its own; and all commands.
#![tactic(auto)]

mod answer;
mod running;

pub use running::{run_columns, top, top_told};
