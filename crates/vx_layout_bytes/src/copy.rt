//! Copies of nodes.

ghost use Rattle.std.specs.Prelude.{◌≡◌, map, IfOk};
ghost use Rattle.vx_layout_bytes.specs.Views.{raw};

use crate::node::RawNode;
use std::alloc::AllocError;

impl Clone for RawNode {
    ghost use Rattle.std.specs.Prelude.{◌≡◌};
    ghost use Rattle.vx_layout_bytes.specs.Views.{raw};

    ghost is_clone = { λ n copy. raw copy ≡ raw n };

    fn clone(&self) -> Result<RawNode, AllocError> {
        copy(self)
    }
}

#[cycle(copying)]
#[tactic(auto, using(crate::proofs::Nodes::copy_rules))]
fn copy(node: &RawNode) -> Result<RawNode, AllocError>
    ensures { IfOk result (λ n. raw n ≡ raw node.now) }
{
    let metadata = node.metadata.clone()?;
    let segments = Vec::from_slice(*node.segments.allocator(), &node.segments)?;
    let children = copy_nodes(&node.children)?;
    Ok(RawNode {
        index: node.index,
        rows: node.rows,
        metadata,
        segments,
        children,
    })
}

#[cycle(copying)]
#[tactic(auto, using(crate::proofs::Nodes::copy_rules))]
fn copy_nodes(nodes: &Vec<RawNode>) -> Result<Vec<RawNode>, AllocError>
    ensures { IfOk result (λ v. map raw v.items ≡ map raw nodes.now.items) }
{
    let mut copies = Vec::with_capacity(*nodes.allocator(), nodes.len())?;
    for node in nodes {
        copies.push(copy(node)?)?;
    }
    Ok(copies)
}
