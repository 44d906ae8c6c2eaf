//! Layouts of the kinds, made again with equal children.

ghost use Rattle.std.specs.Prelude.{◌≡◌, map, length, IfOk};
ghost use Rattle.vx_model.specs.TyView.{ty};
ghost use Rattle.vx_session.specs.Kinds.{struct_types};
ghost use Rattle.vx_layout_spec.specs.LayoutTree.{layout_type, children_of};
ghost use Rattle.vx_layout_tree.specs.KidsView.{chunks, fields, layout_kids};
ghost use Rattle.vx_layout_tree.specs.LayoutView.{layout_data};

use crate::children::LayoutChildren;
use crate::chunked::ChunkedLayout;
use crate::dict::DictLayout;
use crate::foreign::ForeignLayout;
use crate::layout::Layout;
use crate::list::ListLayout;
use crate::stats::LegacyStatsLayout;
use crate::structs::StructLayout;
use bytes::Bytes;
use std::alloc::AllocError;
use vx_model::{DType, SegmentId, Text};

/// The same segments.
pub(crate) fn same_segments(segment_ids: &Vec<SegmentId>) -> Result<Vec<SegmentId>, AllocError>
    ensures { IfOk result (λ v. v.items ≡ segment_ids.now.items) }
{
    Vec::from_slice(*segment_ids.allocator(), segment_ids)
}

/// The same type and segments.
pub(crate) fn same_head(
    dtype: &DType,
    segment_ids: &Vec<SegmentId>,
) -> Result<(DType, Vec<SegmentId>), AllocError>
    ensures dtype { IfOk result (λ h. ty h.0 ≡ ty dtype.now) }
    ensures segments { IfOk result (λ h. h.1.items ≡ segment_ids.now.items) }
{
    let segment_ids = same_segments(segment_ids)?;
    let dtype = dtype.clone()?;
    Ok((dtype, segment_ids))
}

/// The same id and metadata.
fn same_words(id: &Text, metadata: &Bytes) -> Result<(Text, Bytes), AllocError>
    ensures id { IfOk result (λ words. words.0 ≡ id.now) }
    ensures metadata { IfOk result (λ words. words.1 ≡ metadata.now) }
{
    let metadata = metadata.clone()?;
    let id = id.clone()?;
    Ok((id, metadata))
}

impl ChunkedLayout {
    #[tactic(auto, using(crate::proofs::CopySteps::kind_rules))]
    pub(crate) fn with_same(&self, children: LayoutChildren) -> Result<ChunkedLayout, AllocError>
        requires { chunks (layout_type self.now) children ≡ children_of self.now }
        ensures { IfOk result (λ copy. copy ≡ self.now) }
    {
        let Ok((dtype, segment_ids)) = same_head(&self.dtype, &self.segment_ids) else {
            drop(children);
            return Err(AllocError);
        };
        Ok(ChunkedLayout {
            row_count: self.row_count,
            dtype,
            segment_ids,
            children,
        })
    }
}

impl StructLayout {
    #[tactic(auto, using(crate::proofs::CopySteps::kind_rules))]
    pub(crate) fn with_same(&self, children: LayoutChildren) -> Result<StructLayout, AllocError>
        requires count { length (layout_kids children) ≡ length (struct_types (layout_type self.now)) }
        requires same { fields (layout_type self.now) children ≡ children_of self.now }
        ensures { IfOk result (λ copy. copy ≡ self.now) }
    {
        let Ok((dtype, segment_ids)) = same_head(&self.dtype, &self.segment_ids) else {
            drop(children);
            return Err(AllocError);
        };
        Ok(StructLayout {
            row_count: self.row_count,
            dtype,
            segment_ids,
            children,
        })
    }
}

impl ListLayout {
    #[tactic(auto, using(crate::proofs::CopySteps::kind_rules))]
    pub(crate) fn with_same(&self, children: Vec<Layout>) -> Result<ListLayout, AllocError>
        requires { map layout_data children.items ≡ children_of self.now }
        ensures { IfOk result (λ copy. copy ≡ self.now) }
    {
        let Ok((dtype, segment_ids)) = same_head(&self.dtype, &self.segment_ids) else {
            drop(children);
            return Err(AllocError);
        };
        Ok(ListLayout {
            row_count: self.row_count,
            dtype,
            segment_ids,
            children,
        })
    }
}

impl DictLayout {
    #[tactic(auto, using(crate::proofs::CopySteps::kind_rules))]
    pub(crate) fn with_same(&self, children: Vec<Layout>) -> Result<DictLayout, AllocError>
        requires { map layout_data children.items ≡ children_of self.now }
        ensures { IfOk result (λ copy. copy ≡ self.now) }
    {
        let Ok((dtype, segment_ids)) = same_head(&self.dtype, &self.segment_ids) else {
            drop(children);
            return Err(AllocError);
        };
        Ok(DictLayout {
            row_count: self.row_count,
            dtype,
            segment_ids,
            children,
            all_values_referenced: self.all_values_referenced,
        })
    }
}

impl LegacyStatsLayout {
    #[tactic(auto, using(crate::proofs::CopySteps::kind_rules))]
    pub(crate) fn with_same(&self, children: Vec<Layout>) -> Result<LegacyStatsLayout, AllocError>
        requires { map layout_data children.items ≡ children_of self.now }
        ensures { IfOk result (λ copy. copy ≡ self.now) }
    {
        let Ok(stats) = Vec::from_slice(*self.stats.allocator(), &self.stats) else {
            drop(children);
            return Err(AllocError);
        };
        let Ok((dtype, segment_ids)) = same_head(&self.dtype, &self.segment_ids) else {
            drop((children, stats));
            return Err(AllocError);
        };
        Ok(LegacyStatsLayout {
            row_count: self.row_count,
            dtype,
            segment_ids,
            children,
            zone_len: self.zone_len,
            stats,
        })
    }
}

impl ForeignLayout {
    #[tactic(auto, using(crate::proofs::CopySteps::kind_rules))]
    pub(crate) fn with_same(&self, children: Vec<Layout>) -> Result<ForeignLayout, AllocError>
        requires { map layout_data children.items ≡ children_of self.now }
        ensures { IfOk result (λ copy. copy ≡ self.now) }
    {
        let Ok((id, metadata)) = same_words(&self.id, &self.metadata) else {
            drop(children);
            return Err(AllocError);
        };
        let Ok((dtype, segment_ids)) = same_head(&self.dtype, &self.segment_ids) else {
            drop((children, id, metadata));
            return Err(AllocError);
        };
        Ok(ForeignLayout {
            row_count: self.row_count,
            dtype,
            segment_ids,
            children,
            id,
            metadata,
        })
    }
}
