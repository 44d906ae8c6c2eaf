use crate::layout::Layout;
use bytes::Bytes;
use std::marker::Model;
use vx_model::{DType, SegmentId, Text};

/// A layout of an id that isn't known here, kept as it was found.
#[derive(Drop)]
#[cycle(layout)]
pub struct ForeignLayout {
    pub(crate) row_count: u64,
    pub(crate) dtype: DType,
    pub(crate) segment_ids: Vec<SegmentId>,
    pub(crate) children: Vec<Layout>,
    pub(crate) id: Text,
    pub(crate) metadata: Bytes,
}

impl Model for ForeignLayout {
    ghost use Rattle.std.specs.Prelude.{ℕ};
    ghost use Rattle.vx_layout_spec.specs.LayoutTree.{LayoutData};
    ghost use Rattle.vx_layout_tree.specs.LayoutCode.{lay_code};

    ghost Value = { LayoutData ℕ };

    ghost coded = { lay_code };

    ghost use Rattle.vx_layout_spec.specs.LayoutTree.{foreign_kind};
    ghost use Rattle.vx_layout_tree.specs.LayoutView.{seen};

    ghost view = { λ c. seen (foreign_kind c.id c.metadata) c.dtype c.row_count c.segment_ids c.children };

    ghost use Rattle.vx_layout_tree.specs.LayDepth.{depth};

    ghost size = { depth };

    ghost use Rattle.vx_layout_tree.specs.DepthFalls.{children_fall};

    ghost size_decreases = { λ c h. children_fall c.children.items };
}

impl ForeignLayout {
    ghost use Rattle.std.specs.Prelude.{◌≡◌, map};
    ghost use Rattle.vx_model.specs.TyView.{ty};
    ghost use Rattle.vx_layout_spec.specs.LayoutTree.{layout, foreign_kind, lays_of};
    ghost use Rattle.vx_layout_tree.specs.LayoutView.{layout_data, number};

    /// Takes no memory.
    pub fn new(
        row_count: u64,
        dtype: DType,
        segment_ids: Vec<SegmentId>,
        children: Vec<Layout>,
        id: Text,
        metadata: Bytes,
    ) -> ForeignLayout
        ensures { result ≡ layout (foreign_kind id metadata) (ty dtype) row_count (map number segment_ids.items) (lays_of (map layout_data children.items)) }
    {
        ForeignLayout {
            row_count,
            dtype,
            segment_ids,
            children,
            id,
            metadata,
        }
    }
}
