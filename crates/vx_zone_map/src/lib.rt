//! Zone maps: the table of a column's zones as a reader has it, and the zones that a predicate skips.
#![tactic(auto)]

mod columns;
mod comparison;
mod counts;
mod error;
mod laws;
mod map;
mod predicate;
mod rule;
mod zone;

pub use error::ZoneError;
pub use laws::finished_tables_are_taken;
pub use map::ZoneMap;
pub use predicate::Predicate;
