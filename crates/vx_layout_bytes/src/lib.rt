//! The bytes of a layout as a tree of plain nodes, both ways. What a node's index stands for is not known here.
#![tactic(auto)]

mod copy;
mod error;
mod fields;
mod node;
mod open;
mod read;
mod skip;
mod view;
mod views;
mod write;

pub use error::GrammarError;
pub use node::{Limits, RawNode};
pub use open::view_root;
pub use read::read_nodes;
pub use view::{NodeView, NodeViews, OpenNode};
pub use write::write_node;
