//! Nodes as they stand before their first chunk.
#![tactic(auto)]

mod fresh;
mod nodes;
mod zoned_fresh;

pub use fresh::{blocks_node, buffer_node, collect_node, drop_fresh};
pub use nodes::{chunked_node, columns_node, element_copy, lists_node, runs_node};
pub use zoned_fresh::zones_node;
