//! What layouts of one kind tell besides what all do.

ghost use Rattle.std.specs.Prelude.{◌≡◌, ◌++◌, Some, map, slice_get, option_map, IfOk};
ghost use Rattle.vx_model.specs.TyView.{ty, field_ty};
ghost use Rattle.vx_aggregate.specs.AggregateView.{aggregate};
ghost use Rattle.vx_aggregate.specs.Stats.{stat_number};
ghost use Rattle.vx_metadata.specs.Kept.{integers_of, second_type};
ghost use Rattle.vx_aggregate_spec.specs.Aggregate.{spec};
ghost use Rattle.vx_session.specs.Kinds.{element_type};
ghost use Rattle.vx_layout_spec.specs.LayoutTree.{children_of, layout_kind, layout_type};
ghost use Rattle.vx_layout_tree.specs.Children.{rows_at};
ghost use Rattle.vx_layout_shape.specs.Shape.{fields_of};
ghost use Rattle.vx_layout_tree.specs.Copies.{with_chunks};
ghost use Rattle.vx_layout_tree.specs.FlatView.{flat_lay};
ghost use Rattle.vx_layout_tree.specs.LayoutView.{layout_data};
ghost use Rattle.vx_layout_tree.specs.Own.{all_referenced, zone_length, aggregate_specs, stat_aggregates, all_numbered, numbered};
ghost use Rattle.vx_layout_tree.specs.Views.{Gives, itself};

use crate::children::layout_children;
use crate::chunked::ChunkedLayout;
use crate::dict::DictLayout;
use crate::error::LayoutError;
use crate::flat::FlatLayout;
use crate::foreign::ForeignLayout;
use crate::layout::Layout;
use crate::list::ListLayout;
use crate::rebuilt::same_head;
use crate::shape::integers_in;
use crate::stats::LegacyStatsLayout;
use crate::structs::StructLayout;
use crate::total::total_rows;
use crate::zoned::{ZoneTable, ZonedLayout};
use std::alloc::{AllocError, Global};
use vx_aggregate::{AggregateFn, Stat};
use vx_layout_shape::fields_in;
use vx_model::{DType, PType, StructField};

/// The slots of a list.
pub const ELEMENTS_CHILD_INDEX: u64 = 0;

/// Where each row ends, from 0.
pub const OFFSETS_CHILD_INDEX: u64 = 1;

/// Whether each row is valid, where the type is nullable.
pub const VALIDITY_CHILD_INDEX: u64 = 2;

/// Children of a list whose type isn't nullable.
pub const NUM_CHILDREN_NON_NULLABLE: u64 = 2;

impl FlatLayout {
    /// Takes no memory.
    #[tactic(auto, unfolding(crate::specs::LayoutView::layout_data))]
    pub fn into_layout(self) -> Layout
        ensures { layout_data result ≡ flat_lay self }
    {
        Layout::Flat(self)
    }
}

impl ChunkedLayout {
    /// Takes no memory.
    #[tactic(auto, unfolding(crate::specs::LayoutView::layout_data))]
    pub fn into_layout(self) -> Layout
        ensures { layout_data result ≡ self }
    {
        Layout::Chunked(self)
    }

    /// The same layout with these children. Refuses `RowCount` exactly where their rows don't sum to its own.
    #[tactic(auto, using(crate::proofs::KidSteps::chunk_rules))]
    pub fn with_children(&self, children: Vec<Layout>) -> Result<ChunkedLayout, LayoutError>
        ensures { Gives itself result (with_chunks self.now (map layout_data children.items)) }
    {
        let children = layout_children(children);
        let has = total_rows(&children);
        let needs = self.row_count as u128;
        if has != needs {
            drop(children);
            return Err(LayoutError::RowCount { has, needs });
        }
        let Ok((dtype, segment_ids)) = same_head(&self.dtype, &self.segment_ids) else {
            drop(children);
            return Err(LayoutError::OutOfMemory);
        };
        Ok(ChunkedLayout {
            row_count: self.row_count,
            dtype,
            segment_ids,
            children,
        })
    }
}

impl StructLayout {
    /// Takes no memory.
    #[tactic(auto, unfolding(crate::specs::LayoutView::layout_data))]
    pub fn into_layout(self) -> Layout
        ensures { layout_data result ≡ self }
    {
        Layout::Struct(self)
    }

    /// The fields of its type.
    pub fn struct_fields(&self) -> &[StructField]
        ensures { map field_ty result.now ≡ fields_of (layout_type self.now) }
    {
        fields_in(&self.dtype)
    }
}

impl ListLayout {
    /// Takes no memory.
    #[tactic(auto, unfolding(crate::specs::LayoutView::layout_data))]
    pub fn into_layout(self) -> Layout
        ensures { layout_data result ≡ self }
    {
        Layout::List(self)
    }

    /// The elements of all rows.
    #[tactic(auto, using(crate::proofs::OwnSteps::list_rules))]
    pub fn elements(&self) -> &Layout
        ensures { slice_get (children_of self.now) 0 ≡ Some (layout_data result.now) }
    {
        &self.children[ELEMENTS_CHILD_INDEX as usize]
    }

    /// Where each row begins, and where the last one ends.
    #[tactic(auto, using(crate::proofs::OwnSteps::list_rules))]
    pub fn offsets(&self) -> &Layout
        ensures { slice_get (children_of self.now) 1 ≡ Some (layout_data result.now) }
    {
        &self.children[OFFSETS_CHILD_INDEX as usize]
    }

    /// Which rows are valid, where the type is nullable.
    #[tactic(auto, using(crate::proofs::OwnSteps::list_rules))]
    pub fn validity(&self) -> Option<&Layout>
        ensures { option_map (λ l. layout_data l.now) result ≡ slice_get (children_of self.now) 2 }
    {
        if self.children.len() > VALIDITY_CHILD_INDEX as usize {
            Some(&self.children[VALIDITY_CHILD_INDEX as usize])
        } else {
            None
        }
    }

    /// The integers of the offsets.
    #[tactic(auto, using(crate::proofs::OwnSteps::list_rules))]
    pub fn offsets_ptype(&self) -> PType
        ensures { result ≡ integers_of (second_type (children_of self.now)) }
    {
        integers_in(self.offsets().dtype())
    }

    /// The type that the elements of a row have.
    #[tactic(auto, using(crate::proofs::Steps::part_rules))]
    pub fn elements_dtype(&self) -> &DType
        ensures { ty result.now ≡ element_type (layout_type self.now) }
    {
        match self.dtype.as_list() {
            Some(elements) => elements,
            None => &self.dtype,
        }
    }
}

impl DictLayout {
    /// Takes no memory.
    #[tactic(auto, unfolding(crate::specs::LayoutView::layout_data))]
    pub fn into_layout(self) -> Layout
        ensures { layout_data result ≡ self }
    {
        Layout::Dict(self)
    }

    /// Whether each value is the value of some row.
    pub fn has_all_values_referenced(&self) -> bool
        ensures { result ≡ all_referenced (layout_kind self.now) }
    {
        self.all_values_referenced
    }
}

impl ZonedLayout {
    /// Takes no memory.
    #[tactic(auto, unfolding(crate::specs::LayoutView::layout_data))]
    pub fn into_layout(self) -> Layout
        ensures { layout_data result ≡ self }
    {
        Layout::Zoned(self)
    }

    /// Rows of each zone but the last.
    pub fn zone_len(&self) -> u32
        ensures { result ≡ zone_length (layout_kind self.now) }
    {
        match &self.table {
            ZoneTable::Read => self.zone_len,
            ZoneTable::Unread(_) => 0,
        }
    }

    /// Rows of the table.
    #[tactic(auto, using(crate::proofs::OwnSteps::zone_rules))]
    pub fn nzones(&self) -> u64
        ensures { result ≡ rows_at (children_of self.now) 1 }
    {
        if self.nchildren() > 1 {
            self.child_row_count(1)
        } else {
            0
        }
    }

    /// What the table records of each zone.
    pub fn present_aggregates(&self) -> &[AggregateFn]
        ensures { map spec (map aggregate result.now) ≡ aggregate_specs (layout_kind self.now) }
    {
        match &self.table {
            ZoneTable::Read => &self.aggregates,
            ZoneTable::Unread(_) => &[],
        }
    }
}

impl LegacyStatsLayout {
    /// Takes no memory.
    #[tactic(auto, unfolding(crate::specs::LayoutView::layout_data))]
    pub fn into_layout(self) -> Layout
        ensures { layout_data result ≡ self }
    {
        Layout::LegacyStats(self)
    }

    /// Rows of the table.
    #[tactic(auto, using(crate::proofs::OwnSteps::zone_rules))]
    pub fn nzones(&self) -> u64
        ensures { result ≡ rows_at (children_of self.now) 1 }
    {
        match self.children.get(1) {
            Some(layout) => layout.row_count(),
            None => 0,
        }
    }

    /// The aggregates of its statistics; one has none.
    #[tactic(auto, using(crate::proofs::OwnSteps::stat_rules))]
    pub fn present_aggregates(&self, alloc: Global) -> Result<Vec<AggregateFn>, AllocError>
        ensures { IfOk result (λ v. map aggregate v.items ≡ stat_aggregates (layout_kind self.now)) }
    {
        aggregates_of(alloc, &self.stats)
    }
}

#[tactic(auto, using(crate::proofs::OwnSteps::stat_rules))]
fn aggregates_of(alloc: Global, stats: &[Stat]) -> Result<Vec<AggregateFn>, AllocError>
    ensures { IfOk result (λ v. map aggregate v.items ≡ all_numbered (map stat_number stats.now)) }
{
    let mut aggregates = Vec::new(alloc);
    for stat in stats {
        push_aggregate(&mut aggregates, *stat)?;
    }
    Ok(aggregates)
}

#[tactic(auto, using(crate::proofs::OwnSteps::one_rules))]
fn push_aggregate(aggregates: &mut Vec<AggregateFn>, stat: Stat) -> Result<(), AllocError>
    ensures { IfOk result (λ u. map aggregate aggregates.new.items ≡ map aggregate aggregates.old.items ++ numbered (stat_number stat)) }
{
    match stat.aggregate_fn() {
        Some(aggregate) => {
            aggregates.push(aggregate)?;
            Ok(())
        }
        None => Ok(()),
    }
}

impl ForeignLayout {
    /// Takes no memory.
    #[tactic(auto, unfolding(crate::specs::LayoutView::layout_data))]
    pub fn into_layout(self) -> Layout
        ensures { layout_data result ≡ self }
    {
        Layout::Foreign(self)
    }
}
