//! The bytes in which a layout keeps what its kind needs besides its children, both ways. One spelling a value.
#![tactic(auto)]

mod dict;
mod error;
mod fields;
mod flat;
mod list;
mod read_error;
mod stats;
mod zoned;

pub use dict::DictLayoutMetadata;
pub use error::MetadataError;
pub use flat::FlatLayoutMetadata;
pub use list::ListLayoutMetadata;
pub use stats::{LegacyStatsMetadata, are_in_order};
pub use zoned::{AggregateSpec, ZonedMetadata};
