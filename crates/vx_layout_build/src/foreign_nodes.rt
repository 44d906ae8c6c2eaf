//! Nodes of ids that aren't registered: kept as they are, with all below.

ghost use Rattle.std.specs.Prelude.{◌≡◌, map, IfOk, option_map};
ghost use Rattle.vx_model.specs.TyView.{ty};
ghost use Rattle.vx_layout_spec.specs.LayoutTree.{lays_of};
ghost use Rattle.vx_layout_bytes.specs.Node.{nodes_of};
ghost use Rattle.vx_layout_bytes.specs.Views.{raw};
ghost use Rattle.vx_session.specs.Ids.{id_at};
ghost use Rattle.vx_session.specs.Builder.{unknown_in as first_unknown, unknown_among as first_among, foreign as foreign_lay, all_foreign as foreign_lays, build_foreign as foreign_built, id_or_none};
ghost use Rattle.vx_layout_tree.specs.LayoutView.{layout_data, number};
ghost use Rattle.vx_layout_tree.specs.Views.{Gives};

use std::alloc::{AllocError, Global};
use vx_layout_bytes::RawNode;
use vx_layout_tree::{ForeignLayout, Layout, LayoutError};
use vx_model::{DType, SegmentId, Text};
use vx_session::LayoutContext;

/// A layout in which all is foreign.
pub(crate) fn build_foreign(
    alloc: Global,
    ids: &LayoutContext,
    dtype: &DType,
    node: &RawNode,
) -> Result<Layout, LayoutError>
    ensures { Gives layout_data result (foreign_built ids.now (raw node.now) (ty dtype.now)) }
{
    match unknown_in(ids, node) {
        Some(index) => Err(LayoutError::UnknownIndex(index)),
        None => Ok(foreign(alloc, ids, dtype, node)?),
    }
}

/// The first index in pre-order at which the context has no id.
#[cycle(unknown)]
#[tactic(auto, using(crate::proofs::ForeignSteps::unknown_rules))]
fn unknown_in(ids: &LayoutContext, node: &RawNode) -> Option<u16>
    ensures { result ≡ first_unknown ids.now (raw node.now) }
{
    if ids.id(node.index).is_none() {
        return Some(node.index);
    }
    unknown_among(ids, &node.children)
}

#[cycle(unknown)]
#[tactic(auto, using(crate::proofs::ForeignSteps::unknown_rules))]
fn unknown_among(ids: &LayoutContext, nodes: &[RawNode]) -> Option<u16>
    ensures { result ≡ first_among ids.now (nodes_of (map raw nodes.now)) }
{
    for node in nodes {
        if let Some(index) = unknown_in(ids, node) {
            return Some(index);
        }
    }
    None
}

#[cycle(foreign)]
#[tactic(auto, using(crate::proofs::ForeignSteps::foreign_rules))]
fn foreign(
    alloc: Global,
    ids: &LayoutContext,
    dtype: &DType,
    node: &RawNode,
) -> Result<Layout, AllocError>
    ensures { IfOk result (λ l. layout_data l ≡ foreign_lay ids.now (ty dtype.now) (raw node.now)) }
{
    let children = all_foreign(alloc, ids, dtype, &node.children)?;
    let id = id_text(alloc, ids, node.index)?;
    let segment_ids = segment_ids(alloc, &node.segments)?;
    let metadata = node.metadata.clone()?;
    let dtype = dtype.clone()?;
    let layout = ForeignLayout::new(node.rows, dtype, segment_ids, children, id, metadata);
    Ok(layout.into_layout())
}

#[cycle(foreign)]
#[tactic(auto, using(crate::proofs::ForeignSteps::foreign_rules))]
fn all_foreign(
    alloc: Global,
    ids: &LayoutContext,
    dtype: &DType,
    nodes: &[RawNode],
) -> Result<Vec<Layout>, AllocError>
    ensures { IfOk result (λ v. lays_of (map layout_data v.items) ≡ foreign_lays ids.now (ty dtype.now) (nodes_of (map raw nodes.now))) }
{
    let mut layouts = Vec::with_capacity(alloc, nodes.len())?;
    for node in nodes {
        layouts.push(foreign(alloc, ids, dtype, node)?)?;
    }
    Ok(layouts)
}

/// The id at the place, or no text.
fn id_text(alloc: Global, ids: &LayoutContext, index: u16) -> Result<Text, AllocError>
    ensures { IfOk result (λ t. t ≡ id_or_none (id_at ids.now index)) }
{
    match ids.id(index) {
        Some(id) => id.clone(),
        None => Text::from_str(alloc, ""),
    }
}

/// The numbers of segments as their names.
#[tactic(auto, using(crate::proofs::ForeignSteps::segment_rules))]
pub(crate) fn segment_ids(alloc: Global, numbers: &[u32]) -> Result<Vec<SegmentId>, AllocError>
    ensures { IfOk result (λ v. map number v.items ≡ numbers.now) }
{
    let mut ids = Vec::with_capacity(alloc, numbers.len())?;
    for number in numbers {
        ids.push(SegmentId(*number))?;
    }
    Ok(ids)
}
