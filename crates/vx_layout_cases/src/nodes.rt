//! Children by themselves: layouts that are kept, and nodes that are built when they are asked for.

use crate::given::{leaves, push};
use crate::scopes::scope;
use anyhow::Result;
use bytes::Bytes;
use std::alloc::{AllocError, Global};
use std::sync::Arc;
use vx_layout_bytes::{Limits, NodeViews, RawNode, view_root, write_node};
use vx_layout_tree::{LayoutChildren, ViewedChildren, layout_children};

pub(crate) fn children_in(alloc: Global, text: &str) -> Result<LayoutChildren> {
    match text.strip_prefix("nodes ") {
        Some(nodes) => viewed(alloc, nodes),
        None => Ok(layout_children(leaves(alloc, text)?)),
    }
}

fn viewed(alloc: Global, text: &str) -> Result<LayoutChildren> {
    let scope = Arc::new(alloc, scope(alloc)?)?;
    let nodes = views_in(alloc, text)?;
    Ok(LayoutChildren::Viewed(ViewedChildren::new(scope, nodes)))
}

/// The nodes below one that is spelled above them.
fn views_in(alloc: Global, text: &str) -> Result<NodeViews> {
    let bytes = Bytes::from_vec(bytes_above(alloc, text)?)?;
    let root = view_root(alloc, bytes, Limits::default())?;
    Ok(root.open(alloc)?.children)
}

fn bytes_above(alloc: Global, text: &str) -> Result<Vec<u8>> {
    let node = raw_node(alloc, 0, nodes_in(alloc, text)?)?;
    let bytes = write_node(alloc, &node);
    drop(node);
    Ok(bytes?)
}

fn nodes_in(alloc: Global, text: &str) -> Result<Vec<RawNode>, AllocError> {
    let mut nodes = Vec::new(alloc);
    for word in text.split_whitespace() {
        push(&mut nodes, node_in(alloc, word)?)?;
    }
    Ok(nodes)
}

pub(crate) fn node_in(alloc: Global, word: &str) -> Result<RawNode, AllocError> {
    match word.split_once('>') {
        Some((above, below)) => {
            let leaf = raw_node(alloc, index(below), Vec::new(alloc))?;
            raw_node(alloc, index(above), vec![in alloc; leaf]?)
        }
        None => raw_node(alloc, index(word), Vec::new(alloc)),
    }
}

fn index(word: &str) -> u16 {
    word.parse::<u16>().unwrap_or(0)
}

/// Seven rows in segment 3, of the id at the place, above these.
fn raw_node(alloc: Global, index: u16, children: Vec<RawNode>) -> Result<RawNode, AllocError> {
    let segments = vec![in alloc; 3]?;
    Ok(RawNode {
        index,
        rows: 7,
        metadata: Bytes::new(),
        segments,
        children,
    })
}
