//! Spelling a node.

ghost use Rattle.std.specs.Prelude.{◌≡◌, ◌++◌, map, IfOk, OnOk};
ghost use Rattle.vx_layout_bytes.specs.Node.{nodes_of};
ghost use Rattle.vx_layout_bytes.specs.Spelled.{numbered, segment_bytes, head_bytes, spelling, spellings};
ghost use Rattle.vx_layout_bytes.specs.Views.{raw};

use crate::node::RawNode;
use std::alloc::{AllocError, Global};

/// The bytes of the node, with all below it.
pub fn write_node(alloc: Global, node: &RawNode) -> Result<Vec<u8>, AllocError>
    ensures { IfOk result (λ v. v.items ≡ spelling (raw node.now)) }
{
    let mut out = Vec::new(alloc);
    push_node(&mut out, node)?;
    Ok(out)
}

#[cycle(writing)]
#[tactic(auto, using(crate::proofs::Nodes::write_rules))]
fn push_node(out: &mut Vec<u8>, node: &RawNode) -> Result<(), AllocError>
    ensures { OnOk result (out.new.items ≡ out.old.items ++ spelling (raw node.now)) }
{
    push_own(out, node)?;
    push_nodes(out, &node.children)
}

#[cycle(writing)]
#[tactic(auto, using(crate::proofs::Nodes::write_rules))]
fn push_nodes(out: &mut Vec<u8>, nodes: &[RawNode]) -> Result<(), AllocError>
    ensures { OnOk result (out.new.items ≡ out.old.items ++ spellings (nodes_of (map raw nodes.now))) }
{
    for node in nodes {
        push_node(out, node)?;
    }
    Ok(())
}

/// All but the children.
#[tactic(auto, using(crate::proofs::Nodes::own_rules))]
fn push_own(out: &mut Vec<u8>, node: &RawNode) -> Result<(), AllocError>
    ensures { OnOk result (out.new.items ≡ out.old.items ++ head_bytes (raw node.now)) }
{
    out.extend_from_slice(&node.index.to_le_bytes())?;
    out.extend_from_slice(&node.rows.to_le_bytes())?;
    push_bytes(out, node.metadata.as_slice())?;
    push_segments(out, &node.segments)?;
    out.extend_from_slice(&(node.children.len() as u64).to_le_bytes())?;
    Ok(())
}

#[tactic(auto, using(crate::proofs::Nodes::field_rules))]
fn push_bytes(out: &mut Vec<u8>, bytes: &[u8]) -> Result<(), AllocError>
    ensures { OnOk result (out.new.items ≡ out.old.items ++ numbered bytes.now) }
{
    out.extend_from_slice(&(bytes.len() as u64).to_le_bytes())?;
    out.extend_from_slice(bytes)?;
    Ok(())
}

#[tactic(auto, using(crate::proofs::Nodes::field_rules))]
fn push_segments(out: &mut Vec<u8>, segments: &[u32]) -> Result<(), AllocError>
    ensures { OnOk result (out.new.items ≡ out.old.items ++ segment_bytes segments.now) }
{
    out.extend_from_slice(&(segments.len() as u64).to_le_bytes())?;
    for segment in segments {
        out.extend_from_slice(&segment.to_le_bytes())?;
    }
    Ok(())
}
