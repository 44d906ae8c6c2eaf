//! What is said to people beside the answer of a run: how far it is, and one line of how it ended.
#![tactic(auto)]

mod advice;
mod front;
mod message;
mod progress;

pub use front::Front;
pub use message::Message;
pub use progress::ProgressLines;
