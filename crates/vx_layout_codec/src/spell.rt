//! Spelling a layout in a context.

ghost use Rattle.std.specs.Prelude.{◌≡◌, ◌<◌, ◌^◌, map, IfOk};
ghost use Rattle.std.specs.List.{AllByRecursion};
ghost use Rattle.vx_layout_spec.specs.LayoutTree.{layout_kind, row_count, segments_of, children_of};
ghost use Rattle.vx_layout_bytes.specs.Node.{node, nodes_of};
ghost use Rattle.vx_layout_bytes.specs.Values.{Fits, AllFit};
ghost use Rattle.vx_layout_bytes.specs.Views.{raw};
ghost use Rattle.vx_layout_tree.specs.LayoutView.{layout_data, number};
ghost use Rattle.vx_layout_tree.specs.Views.{Gives};
ghost use Rattle.vx_layout_codec_spec.specs.Permitted.{built};
ghost use Rattle.vx_layout_codec_spec.specs.NodeOf.{own_in, node_in};
ghost use Rattle.vx_layout_codec_spec.specs.Bytes.{unless_refused, bytes_in};

use crate::indexed::IndexedContext;
use crate::permitted::check_permitted;
use bytes::Bytes;
use std::alloc::{AllocError, Global};
use vx_layout_build::LayoutWalk;
use vx_layout_bytes::{RawNode, write_node};
use vx_layout_slots::LayoutSlots;
use vx_layout_tree::{Layout, LayoutError};
use vx_model::SegmentId;
use vx_session::LayoutContext;

/// The bytes of the layout, in which each id is its place in the context.
pub fn layout_bytes(
    alloc: Global,
    layout: &Layout,
    ctx: &LayoutContext,
) -> Result<Vec<u8>, LayoutError>
    ensures exact { Gives (λ v. v.items) result (bytes_in ctx.now (layout_data layout.now)) }
    // Each number of the node that is spelled fits its field.
    ensures fits { IfOk result (λ v. Fits (node_in ctx.now (layout_data layout.now))) }
{
    let ctx = IndexedContext::new(alloc, ctx)?;
    check_permitted(alloc, layout, &ctx)?;
    let node = node_of(alloc, layout, &ctx)?;
    let bytes = write_node(alloc, &node);
    drop(node);
    Ok(bytes?)
}

/// The node that the layout is. An id that the context doesn't list is taken as the first one.
#[tactic(auto, using(crate::proofs::WalkSteps::node_rules))]
fn node_of(alloc: Global, layout: &Layout, ctx: &IndexedContext<'_>) -> Result<RawNode, LayoutError>
    ensures node { Gives raw result (unless_refused (built (layout_data layout.now)) (node_in ctx.now (layout_data layout.now))) }
    ensures fits { IfOk result (λ n. Fits (raw n)) }
{
    layout.built();
    let mut children = Vec::new(alloc);
    for i in 0..layout.nchildren() {
        let child = layout.child(i)?;
        let node = node_of(alloc, child.layout(), ctx);
        drop(child);
        children.push(node?)?;
    }
    Ok(own_node(alloc, layout, ctx, children)?)
}

/// The layout's own node, above these children.
#[tactic(auto, using(crate::proofs::WalkSteps::own_rules))]
fn own_node(
    alloc: Global,
    layout: &Layout,
    ctx: &IndexedContext<'_>,
    children: Vec<RawNode>,
) -> Result<RawNode, AllocError>
    ensures node { IfOk result (λ n. raw n ≡ node (own_in ctx.now (layout_data layout.now)) (nodes_of (map raw children.items))) }
    ensures fits { IfOk result (λ n. AllFit (nodes_of (map raw children.items)) → Fits (raw n)) }
{
    let index = ctx.place(layout.encoding_id()).unwrap_or(0);
    let metadata = Bytes::from_vec(layout.metadata(alloc)?)?;
    let segments = numbers_of(alloc, layout.segment_ids())?;
    Ok(RawNode {
        index,
        rows: layout.row_count(),
        metadata,
        segments,
        children,
    })
}

#[tactic(auto, using(crate::proofs::WalkSteps::number_rules))]
fn numbers_of(alloc: Global, segment_ids: &[SegmentId]) -> Result<Vec<u32>, AllocError>
    ensures numbers { IfOk result (λ v. v.items ≡ map number segment_ids.now) }
    ensures fits { IfOk result (λ v. AllByRecursion (λ n. n < 2 ^ 32) v.items) }
{
    let mut numbers = Vec::with_capacity(alloc, segment_ids.len())?;
    for segment in segment_ids {
        numbers.push(segment.0)?;
    }
    Ok(numbers)
}
