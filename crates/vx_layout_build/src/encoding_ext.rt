//! What a known kind builds of parts.

use crate::build::build_kind;
use bytes::Bytes;
use std::alloc::Global;
use vx_layout_tree::{Layout, LayoutError, LayoutParts};
use vx_session::{LayoutBuildContext, LayoutEncoding};

/// Parts, and what a build needs besides them.
#[derive(Drop)]
pub struct LayoutDeserializeArgs {
    pub parts: LayoutParts,
    pub context: LayoutBuildContext,
}

/// Calls of `LayoutEncoding` that give layouts.
pub trait LayoutEncodingExt {
    ghost use Rattle.vx_session.specs.declared.encoding.LayoutEncoding.{LayoutEncoding};
    ghost use Rattle.vx_session.specs.Kinds.{build_kind};
    ghost use Rattle.vx_session.specs.Views.{context as context_of};
    ghost use Rattle.vx_layout_tree.specs.LayoutView.{layout_data};
    ghost use Rattle.vx_layout_build.specs.PartsView.{parts_of};
    ghost use Rattle.vx_layout_tree.specs.Views.{Gives};

    // The kind that it is.
    ghost kind: { Self → LayoutEncoding };

    /// The layout of the kind that has these parts and this metadata, or the first refusal.
    fn build(
        &self,
        alloc: Global,
        args: LayoutDeserializeArgs,
        metadata: &[u8],
    ) -> Result<Layout, LayoutError>
        ensures { Gives layout_data result (build_kind (kind self.now) (context_of args.context) (parts_of args.parts) metadata.now) };
}

impl LayoutEncodingExt for LayoutEncoding {
    ghost kind = { λ k. k };

    fn build(
        &self,
        alloc: Global,
        args: LayoutDeserializeArgs,
        metadata: &[u8],
    ) -> Result<Layout, LayoutError> {
        let LayoutDeserializeArgs { parts, context } = args;
        let Ok(metadata) = Bytes::copy_from_slice(alloc, metadata) else {
            drop((parts, context));
            return Err(LayoutError::OutOfMemory);
        };
        build_kind(alloc, *self, &context, parts, &metadata)
    }
}
