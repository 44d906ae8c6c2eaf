//! Kinds that are built without their children.

ghost use Rattle.std.specs.Prelude.{◌≡◌, Ok, MatchResult};
ghost use Rattle.vx_model.specs.TyView.{ty};
ghost use Rattle.vx_layout_spec.specs.LayoutTree.{flat_layout};
ghost use Rattle.vx_session.specs.Views.{context as context_of};
ghost use Rattle.vx_session.specs.Kinds.{build_flat as flat_built, build_chunked as chunked_built, build_struct as struct_built};
ghost use Rattle.vx_layout_tree.specs.LayoutView.{layout_data};
ghost use Rattle.vx_layout_build.specs.PartsView.{parts_of};
ghost use Rattle.vx_layout_tree.specs.KindView.{IsWhole, whole_lay};
ghost use Rattle.vx_layout_tree.specs.declared.parts.KindParts.TheVariants as parts_made;
ghost use Rattle.vx_layout_tree.specs.Views.{Gives, Fails};

use crate::checks::{
    all_have_rows, flat_metadata, has_children, has_rows, no_metadata, one_segment,
};
use bytes::Bytes;
use std::alloc::Global;
use vx_layout_shape::struct_children;
use vx_layout_tree::{FlatLayout, KindParts, Layout, LayoutError, LayoutParts, total_rows};
use vx_model::{ArrayContext, Blob, SegmentId};
use vx_session::LayoutBuildContext;

pub(crate) fn build_flat(
    alloc: Global,
    within: &LayoutBuildContext,
    parts: LayoutParts,
    metadata: &Bytes,
) -> Result<Layout, LayoutError>
    ensures { Gives layout_data result (flat_built (context_of within.now) (parts_of parts) metadata.now) }
{
    match read_flat(alloc, within, &parts, metadata) {
        Ok((segment_id, ctx, tree)) => {
            drop((parts.segment_ids, parts.children));
            let flat = FlatLayout::new_with_metadata(
                parts.row_count,
                parts.dtype,
                segment_id,
                ctx,
                tree,
            );
            Ok(flat.into_layout())
        }
        Err(error) => {
            drop(parts);
            Err(error)
        }
    }
}

/// What a flat layout has besides its type and its rows.
#[tactic(auto, unfolding(vx_session::specs::Kinds::build_flat))]
fn read_flat(
    alloc: Global,
    within: &LayoutBuildContext,
    parts: &LayoutParts,
    metadata: &Bytes,
) -> Result<(SegmentId, ArrayContext, Option<Blob>), LayoutError>
    ensures { MatchResult result
        (λ r. flat_built (context_of within.now) (parts_of parts.now) metadata.now ≡ Ok (flat_layout (ty parts.now.dtype) parts.now.row_count r.1 r.2 r.0.0))
        (λ e. Fails e (flat_built (context_of within.now) (parts_of parts.now) metadata.now)) }
{
    let metadata = flat_metadata(alloc, metadata)?;
    let segment_id = one_segment(&parts.segment_ids)?;
    has_children(&parts.children, 0)?;
    let ctx = within.array_ctx.clone()?;
    Ok((segment_id, ctx, metadata.array_encoding_tree))
}

pub(crate) fn build_chunked(
    alloc: Global,
    parts: LayoutParts,
    metadata: &Bytes,
) -> Result<Layout, LayoutError>
    ensures { Gives layout_data result (chunked_built (parts_of parts) metadata.now) }
{
    match check_chunks(alloc, &parts, metadata) {
        Ok(()) => Ok(Layout::from_parts(alloc, KindParts::Chunked(parts))),
        Err(error) => {
            drop(parts);
            Err(error)
        }
    }
}

/// Whether the parts make a chunked layout.
#[tactic(auto, using(vx_layout_tree::proofs::KidSteps::chunk_rules), unfolding(vx_session::specs::Kinds::build_chunked))]
fn check_chunks(alloc: Global, parts: &LayoutParts, metadata: &Bytes) -> Result<(), LayoutError>
    ensures { MatchResult result
        (λ u. (chunked_built (parts_of parts.now) metadata.now ≡ Ok (whole_lay (parts_made.Chunked parts.now))) × IsWhole (parts_made.Chunked parts.now))
        (λ e. Fails e (chunked_built (parts_of parts.now) metadata.now)) }
{
    no_metadata(alloc, metadata)?;
    has_rows(total_rows(&parts.children), parts.row_count)?;
    Ok(())
}

pub(crate) fn build_struct(
    alloc: Global,
    parts: LayoutParts,
    metadata: &Bytes,
) -> Result<Layout, LayoutError>
    ensures { Gives layout_data result (struct_built (parts_of parts) metadata.now) }
{
    match check_fields(alloc, &parts, metadata) {
        Ok(()) => Ok(Layout::from_parts(alloc, KindParts::Struct(parts))),
        Err(error) => {
            drop(parts);
            Err(error)
        }
    }
}

/// Whether the parts make a struct layout.
#[tactic(auto, using(vx_layout_tree::proofs::KidSteps::field_rules), unfolding(vx_session::specs::Kinds::build_struct))]
fn check_fields(alloc: Global, parts: &LayoutParts, metadata: &Bytes) -> Result<(), LayoutError>
    ensures { MatchResult result
        (λ u. (struct_built (parts_of parts.now) metadata.now ≡ Ok (whole_lay (parts_made.Struct parts.now))) × IsWhole (parts_made.Struct parts.now))
        (λ e. Fails e (struct_built (parts_of parts.now) metadata.now)) }
{
    no_metadata(alloc, metadata)?;
    if !parts.dtype.is_struct() {
        return Err(LayoutError::NotAStruct);
    }
    has_children(&parts.children, struct_children(&parts.dtype))?;
    all_have_rows(&parts.children, parts.row_count)?;
    Ok(())
}
