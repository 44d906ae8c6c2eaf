//! Rules that put a stream's chunks together anew, a chunk at a time: into blocks of rows, by held bytes, into one.
#![tactic(auto)]

mod buffered;
mod collect;
mod cuts;
mod regroup;
mod repartition;
mod walk;

pub use buffered::Buffered;
pub use collect::Collect;
pub use regroup::Regroup;
pub use repartition::Repartition;
