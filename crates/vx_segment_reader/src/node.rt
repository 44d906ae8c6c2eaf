//! The tree of encodings, as a segment spells it.

/// A node without its children, which are the nodes behind it.
#[derive(Drop)]
pub(crate) struct Node {
    /// The encoding's place in the context.
    pub(crate) index: u16,
    pub(crate) rows: u64,
    pub(crate) extra: u8,
    /// The buffers' lengths in bytes.
    pub(crate) lengths: Vec<u64>,
    /// How many children it has.
    pub(crate) children: u64,
}

/// The nodes in pre-order, which with their numbers of children are the tree.
#[derive(Drop)]
pub(crate) struct EncodingTree {
    pub(crate) padded: bool,
    pub(crate) nodes: Vec<Node>,
}

/// A segment without its type.
#[derive(Drop)]
pub(crate) struct RawSegment<'a> {
    pub(crate) tree: EncodingTree,
    /// In the order of their nodes.
    pub(crate) buffers: Vec<&'a [u8]>,
}
