//! What cases share that have an object that says a type: the object's parts, and cells and values as text.
#![tactic(auto)]

mod case;
mod parts;
mod shown;
mod stats;

pub use case::{Case, Typed, read_typed};
pub use parts::{aggregates_in, aggregates_of, dtype_in, list_in, number_in};
pub use shown::{push_cells, push_value, push_values};
pub use stats::{stat_of, stats_of};
