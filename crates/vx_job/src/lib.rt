//! What the program is asked, read from JSON: a job to write, or the bytes of a layout to show.
#![tactic(auto)]

mod error;
mod faults;
mod job;
mod json;
mod options;
mod tree;
mod tree_options;
mod values;

pub use error::{JobError, Key};
pub use faults::Faults;
pub use job::{Job, read_job};
pub use json::LIMIT;
pub use tree::{TreeJob, read_tree_job};
pub use tree_options::TreeOptions;
