//! Layouts built of nodes and of parts, and the layouts below a layout, which are built when they are asked for.
#![tactic(auto)]

mod alone;
mod build;
mod checks;
mod child;
mod child_at;
mod encoding_ext;
mod foreign_nodes;
mod layout_walk;
mod one_child;
mod open;
mod opened;
mod viewed;
mod walk;

pub use build::build_node;
pub use child::LayoutChild;
pub use child_at::LayoutChildrenWalk;
pub use encoding_ext::{LayoutDeserializeArgs, LayoutEncodingExt};
pub use layout_walk::LayoutWalk;
pub use walk::DepthFirst;
