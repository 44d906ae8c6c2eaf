//! The bytes of cells of every type, both ways, and those of offsets and flags.
#![tactic(auto)]

mod columns;
mod error;
mod fields;
mod reading;
mod writing;

pub use columns::{read_flags, read_offsets};
pub use error::CellError;
pub use reading::{read_cell, read_cells};
pub use writing::{push_cell, push_cells};
