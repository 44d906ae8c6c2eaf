use vx_model::{ArrayContext, Blob, DType, SegmentId};

/// One segment that holds one chunk.
#[derive(Drop)]
pub struct FlatLayout {
    pub(crate) row_count: u64,
    pub(crate) dtype: DType,
    pub(crate) segment_id: SegmentId,
    pub(crate) ctx: ArrayContext,
    pub(crate) array_tree: Option<Blob>,
}

impl FlatLayout {
    ghost use Rattle.std.specs.Prelude.{◌≡◌, None, [], ◌∷◌};
    ghost use Rattle.vx_model.specs.TyView.{ty};
    ghost use Rattle.vx_layout_spec.specs.LayoutTree.{flat_layout, segments_of};
    ghost use Rattle.vx_layout_tree.specs.FlatView.{flat_lay, listed_in, tree_in};

    /// A layout of `row_count` rows in the segment, whose encodings are places in `ctx`. Takes no memory.
    pub fn new(row_count: u64, dtype: DType, segment_id: SegmentId, ctx: ArrayContext) -> FlatLayout
        ensures { flat_lay result ≡ flat_layout (ty dtype) row_count ctx None segment_id.0 }
    {
        FlatLayout::new_with_metadata(row_count, dtype, segment_id, ctx, None)
    }

    /// The same with the array tree of the segment. Takes no memory.
    pub fn new_with_metadata(
        row_count: u64,
        dtype: DType,
        segment_id: SegmentId,
        ctx: ArrayContext,
        array_tree: Option<Blob>,
    ) -> FlatLayout
        ensures layout_data { flat_lay result ≡ flat_layout (ty dtype) row_count ctx array_tree segment_id.0 }
    {
        FlatLayout {
            row_count,
            dtype,
            segment_id,
            ctx,
            array_tree,
        }
    }

    /// The number of its segment.
    pub fn segment_id(&self) -> SegmentId
        ensures { segments_of (flat_lay self.now) ≡ result.0 ∷ [] }
    {
        self.segment_id
    }

    /// The encodings that the segment names by their places.
    pub fn array_ctx(&self) -> &ArrayContext
        ensures { result.now ≡ listed_in (flat_lay self.now) }
    {
        &self.ctx
    }

    /// The array tree of the segment, where it is kept. It is not read.
    pub fn array_tree(&self) -> &Option<Blob>
        ensures { result.now ≡ tree_in (flat_lay self.now) }
    {
        &self.array_tree
    }
}
