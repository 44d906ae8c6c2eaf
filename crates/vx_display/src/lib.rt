//! The text of a layout's tree: a line a node, in pre-order.
#![tactic(auto)]

mod building;
mod display;
mod label;
mod lengths;
mod node;
mod style;
mod tree;

pub use display::{DisplayLayoutTree, LayoutDisplay};
