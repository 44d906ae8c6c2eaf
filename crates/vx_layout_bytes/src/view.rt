//! Nodes that stay in the bytes, each found by its place.

ghost use Rattle.std.specs.Prelude.{IsTrue};
ghost use Rattle.vx_layout_bytes.specs.There.{is_node_at, are_nodes_at};

use bytes::Bytes;

/// A node that stays in the bytes. Nothing of it is kept but its place.
#[derive(Debug, Drop)]
pub struct NodeView {
    pub(crate) bytes: Bytes,
    pub(crate) place: u64,
    ghost there: { IsTrue (is_node_at bytes place) },
}

/// Nodes that stay in the same bytes, each at its place.
#[derive(Debug, Drop)]
pub struct NodeViews {
    pub(crate) bytes: Bytes,
    pub(crate) places: Vec<u64>,
    ghost there: { IsTrue (are_nodes_at bytes places.items) },
}

/// A node whose own fields are read. Its children stay in the bytes.
#[derive(Debug, Drop)]
pub struct OpenNode {
    /// The place of its kind's id in the context.
    pub index: u16,
    pub rows: u64,
    /// A part of the bytes.
    pub metadata: Bytes,
    /// The numbers of its own segments.
    pub segments: Vec<u32>,
    /// In slot order.
    pub children: NodeViews,
}
