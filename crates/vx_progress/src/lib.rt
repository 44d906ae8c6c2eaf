//! Who is told how far a write is, and the source and the sink by which a write tells it.
#![tactic(auto)]

mod counted_sink;
mod progress;
mod told_source;

pub use counted_sink::CountedSink;
pub use progress::{Nobody, Progress};
pub use told_source::ToldSource;
