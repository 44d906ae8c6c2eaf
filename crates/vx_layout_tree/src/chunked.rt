use crate::children::LayoutChildren;
use crate::error::LayoutError;
use crate::total::total_rows;
use std::marker::Model;
use vx_model::{DType, SegmentId};

/// Layouts one behind the other.
#[derive(Drop)]
#[cycle(layout)]
pub struct ChunkedLayout {
    pub(crate) row_count: u64,
    pub(crate) dtype: DType,
    pub(crate) segment_ids: Vec<SegmentId>,
    pub(crate) children: LayoutChildren,
}

impl Model for ChunkedLayout {
    ghost use Rattle.std.specs.Prelude.{ℕ, ◌≡◌};
    ghost use Rattle.vx_layout_spec.specs.LayoutTree.{LayoutData};
    ghost use Rattle.vx_layout_tree.specs.LayoutCode.{lay_code};

    ghost Value = { LayoutData ℕ };

    ghost coded = { lay_code };

    ghost use Rattle.vx_model.specs.Words.{total_by};
    ghost use Rattle.vx_layout_spec.specs.LayoutTree.{row_count as rows, chunked_kind};
    ghost use Rattle.vx_model.specs.TyView.{ty};
    ghost use Rattle.vx_layout_tree.specs.LayoutView.{seen_layout};
    ghost use Rattle.vx_layout_tree.specs.KidsView.{chunks};

    ghost view = { λ c. seen_layout chunked_kind c.dtype c.row_count c.segment_ids (chunks (ty c.dtype) c.children) };

    ghost invariant = { λ c. total_by rows (chunks (ty c.dtype) c.children) ≡ c.row_count };

    ghost use Rattle.vx_layout_tree.specs.LayDepth.{depth};

    ghost size = { depth };

    ghost use Rattle.vx_layout_tree.specs.DepthFalls.{chunks_fall};

    ghost size_decreases = { λ c h. chunks_fall (ty c.dtype) c.children };
}

impl ChunkedLayout {
    ghost use Rattle.std.specs.Prelude.{◌≡◌, ◌≢◌, IfErr};
    ghost use Rattle.vx_model.specs.TyView.{ty};
    ghost use Rattle.vx_layout_spec.specs.LayoutTree.{layout_type, children_of};
    ghost use Rattle.vx_layout_tree.specs.KidsView.{chunks};
    ghost use Rattle.vx_layout_tree.specs.Made.{make_chunked};
    ghost use Rattle.vx_layout_tree.specs.Views.{Gives, itself};
    ghost use Rattle.vx_layout_tree.specs.declared.error.LayoutError.TheVariants.{OutOfMemory};

    /// The children in order. Refuses `RowCount` exactly where their rows don't sum to `row_count`. Takes no memory.
    #[tactic(auto, using(crate::proofs::KidSteps::chunk_rules))]
    pub fn new(
        row_count: u64,
        dtype: DType,
        children: LayoutChildren,
    ) -> Result<ChunkedLayout, LayoutError>
        ensures made { Gives itself result (make_chunked (ty dtype) row_count (chunks (ty dtype) children)) }
        ensures room { IfErr result (λ e. e ≢ OutOfMemory) }
    {
        let has = total_rows(&children);
        if has != row_count as u128 {
            drop((dtype, children));
            return Err(LayoutError::RowCount {
                has,
                needs: row_count as u128,
            });
        }
        Ok(ChunkedLayout {
            row_count,
            dtype,
            segment_ids: Vec::new(children.allocator()),
            children,
        })
    }

    /// The chunks, built when they are asked for where they are nodes of bytes.
    #[tactic(auto, using(crate::proofs::KidSteps::place_rules))]
    pub fn children(&self) -> &LayoutChildren
        ensures { chunks (layout_type self.now) result.now ≡ children_of self.now }
    {
        &self.children
    }
}
