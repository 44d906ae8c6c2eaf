//! Statistics of a file's columns, gathered while its batches are read; tables of statistics of the old form, read as
//! tables of zones.
#![tactic(auto)]

mod accumulator;
mod bound;
mod column;
mod error;
mod keeps;
mod legacy;
mod pieces;
mod precision;
mod rows;
mod source;
mod stats_set;
mod told;
mod wrapped;

pub use accumulator::FileStatsAccumulator;
pub use error::StatsError;
pub use legacy::legacy_stats_to_aggregates;
pub use precision::Precision;
pub use source::accumulate_stats;
pub use stats_set::StatsSet;
pub use wrapped::StatsSource;
