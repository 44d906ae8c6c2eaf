use bytes::Bytes;
use std::default::Default;

/// A node of a layout as bytes spell it.
#[derive(Debug, Drop)]
#[cycle(node)]
pub struct RawNode {
    /// The place of its kind's id in the context.
    pub index: u16,
    pub rows: u64,
    /// A part of the bytes that the node was read from.
    pub metadata: Bytes,
    /// The numbers of its own segments.
    pub segments: Vec<u32>,
    /// In slot order.
    pub children: Vec<RawNode>,
}

/// How large a tree may be. The root has depth 1.
#[derive(Clone, Copy, Debug, PartialEq, Eq)]
pub struct Limits {
    /// At most 1,024.
    pub depth: u64,
    pub nodes: u64,
}

impl Default for Limits {
    ghost use Rattle.std.specs.Prelude.{◌≡◌};

    ghost is_default = { λ l. (l.depth ≡ 64) × (l.nodes ≡ 1000000) };

    fn default() -> Limits {
        Limits {
            depth: 64,
            nodes: 1_000_000,
        }
    }
}
