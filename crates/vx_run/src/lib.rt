//! The program as a function of its words, its input and its output.
#![tactic(auto)]

mod answer;
mod command;
mod input;
mod memory;
mod output;
mod real;
mod row_printing;
mod running;
mod status;
mod summary;
mod tables;
mod totals;
mod tree;
mod writing;

pub use answer::{
    Answer, RowsAnswer, bad_job, context, held_back, numbered, read_back, refusal_name,
    without_rows, wrong_job,
};
pub use command::Command;
pub use input::{Input, InputFailure};
pub use memory::{ByteInput, ByteOutput};
pub use output::{Output, OutputFailure};
pub use real::{RealInput, RealOutput};
pub use row_printing::finish_rows;
pub use running::{finish, read_all, run, run_told};
pub use status::Status;
pub use tables::read_tables;
pub use vx_progress::{Nobody, Progress};
