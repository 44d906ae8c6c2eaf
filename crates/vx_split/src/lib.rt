//! Chunks of structs and of lists split into columns, one chunk at a time.
#![tactic(auto)]

mod columns;
mod error;
mod lists;
mod names;
mod offsets;

pub use columns::ColumnSplit;
pub use error::SplitError;
pub use lists::ListSplit;
