//! What a task's node does with the next chunk, and at the end of its stream.
#![tactic(auto)]

mod columns;
mod cuts;
mod dict;
mod flat;
mod grouped;
mod lists;
mod pressing;
mod zoned;

pub use columns::{add_rows, has_type, take_columns};
pub use dict::{end_runs, first_runs, is_dictionary, take_probe, take_runs};
pub use flat::{append, take_flat};
pub use grouped::{end_grouped, take_grouped};
pub use lists::{end_lists, take_lists};
pub use pressing::{press, take_as_is, take_pressing};
pub use zoned::{end_zoned, take_zoned};
