use crate::children::{LayoutChildren, kept_rows};
use crate::error::LayoutError;
use crate::layout::Layout;
use crate::shape::other_type;
use bytes::Bytes;
use std::alloc::Global;
use std::marker::Model;
use std::num::NonZeroU32;
use vx_aggregate::{AggregateFn, aggregate_stats_table_dtype};
use vx_model::{DType, SegmentId};

/// A table that records an aggregate that isn't known: its metadata, and the table as it was found.
#[derive(Drop)]
#[cycle(layout)]
pub struct UnreadZones {
    pub(crate) metadata: Bytes,
    pub(crate) zones: LayoutChildren,
}

/// Whether the table of the zones is read.
#[derive(Drop)]
#[cycle(layout)]
pub enum ZoneTable {
    Read,
    Unread(UnreadZones),
}

/// A column, and a table with what is recorded of each of its zones.
#[derive(Drop)]
#[cycle(layout)]
pub struct ZonedLayout {
    pub(crate) row_count: u64,
    pub(crate) dtype: DType,
    pub(crate) segment_ids: Vec<SegmentId>,
    pub(crate) children: Vec<Layout>,
    pub(crate) zone_len: u32,
    pub(crate) aggregates: Vec<AggregateFn>,
    pub(crate) table: ZoneTable,
}

impl Model for ZonedLayout {
    ghost use Rattle.std.specs.Prelude.{ℕ};
    ghost use Rattle.vx_layout_spec.specs.LayoutTree.{LayoutData};
    ghost use Rattle.vx_layout_tree.specs.LayoutCode.{lay_code};

    ghost Value = { LayoutData ℕ };

    ghost coded = { lay_code };

    ghost use Rattle.vx_layout_tree.specs.LayoutView.{seen_layout};
    ghost use Rattle.vx_layout_tree.specs.ZonedView.{kind_of_zones, zoned_children};

    ghost view = { λ c. seen_layout (kind_of_zones c.zone_len c.aggregates c.table) c.dtype c.row_count c.segment_ids (zoned_children c.children c.table) };

    ghost use Rattle.std.specs.Prelude.{◌<◌, ◌^◌, length};

    // A number of aggregates stands in four bytes of metadata.
    ghost invariant = { λ c. length c.aggregates.items < 2 ^ 32 };

    ghost use Rattle.vx_layout_tree.specs.LayDepth.{depth};

    ghost size = { depth };

    ghost use Rattle.vx_layout_tree.specs.DepthFalls.{zones_fall};

    ghost size_decreases = { λ c h. zones_fall c.children c.table };
}

impl ZonedLayout {
    ghost use Rattle.std.specs.Prelude.{◌<◌, ◌^◌, length, map};
    ghost use Rattle.std.specs.Int.NonZero.{non_zero_u32_get};
    ghost use Rattle.vx_aggregate.specs.AggregateView.{aggregate};
    ghost use Rattle.vx_layout_tree.specs.LayoutView.{layout_data};
    ghost use Rattle.vx_layout_tree.specs.Made.{make_zoned};
    ghost use Rattle.vx_layout_tree.specs.Views.{Gives, itself};

    /// Of the column's type and rows. There are fewer than 2^32 aggregates. Refuses `ChildType` where the zones aren't of
    /// their table type.
    pub fn try_new(
        alloc: Global,
        column: Layout,
        zones: Layout,
        zone_len: NonZeroU32,
        aggregate_fns: Vec<AggregateFn>,
    ) -> Result<ZonedLayout, LayoutError>
        requires { length aggregate_fns.items < 2 ^ 32 }
        ensures { Gives itself result (make_zoned (layout_data column) (layout_data zones) (non_zero_u32_get zone_len) (map aggregate aggregate_fns.items)) }
    {
        let children = vec![in alloc; column, zones]?;
        let needs = aggregate_stats_table_dtype(alloc, children[0].dtype(), &aggregate_fns)?;
        if *children[1].dtype() != needs {
            return Err(other_type(&children[1], needs));
        }
        let dtype = children[0].dtype().clone()?;
        let row_count = children[0].row_count();
        Ok(ZonedLayout {
            row_count,
            dtype,
            segment_ids: Vec::new(alloc),
            children,
            zone_len: zone_len.get(),
            aggregates: aggregate_fns,
            table: ZoneTable::Read,
        })
    }
}

impl ZonedLayout {
    ghost use Rattle.std.specs.Prelude.{◌≡◌, ◌<◌, length};
    ghost use Rattle.vx_layout_spec.specs.LayoutTree.{children_of};
    ghost use Rattle.vx_layout_tree.specs.Children.{rows_at};

    #[tactic(auto, using(crate::proofs::ZonedSteps::zoned_rules))]
    pub(crate) fn nchildren(&self) -> u64
        ensures { result ≡ length (children_of self.now) }
    {
        let kept = self.children.len() as u64;
        match &self.table {
            ZoneTable::Read => kept,
            ZoneTable::Unread(unread) => kept + unread.zones.nchildren(),
        }
    }

    #[tactic(auto, using(crate::proofs::ZonedSteps::zoned_rules))]
    pub(crate) fn child_row_count(&self, i: u64) -> u64
        requires { i < length (children_of self.now) }
        ensures { result ≡ rows_at (children_of self.now) i }
    {
        let kept = self.children.len() as u64;
        match &self.table {
            ZoneTable::Read => kept_rows(&self.children, i),
            ZoneTable::Unread(unread) => {
                if i < kept {
                    kept_rows(&self.children, i)
                } else {
                    unread.zones.child_row_count(i - kept)
                }
            }
        }
    }
}
