use crate::error::LayoutError;
use crate::layout::Layout;
use crate::shape::other_type;
use std::alloc::Global;
use std::marker::Model;
use vx_aggregate::{Stat, legacy_stats_table_dtype};
use vx_model::{DType, SegmentId};

/// A column, and an older table with statistics of each of its zones.
#[derive(Drop)]
#[cycle(layout)]
pub struct LegacyStatsLayout {
    pub(crate) row_count: u64,
    pub(crate) dtype: DType,
    pub(crate) segment_ids: Vec<SegmentId>,
    pub(crate) children: Vec<Layout>,
    pub(crate) zone_len: u32,
    pub(crate) stats: Vec<Stat>,
}

impl Model for LegacyStatsLayout {
    ghost use Rattle.std.specs.Prelude.{ℕ, map};
    ghost use Rattle.vx_layout_spec.specs.LayoutTree.{LayoutData};
    ghost use Rattle.vx_layout_tree.specs.LayoutCode.{lay_code};

    ghost Value = { LayoutData ℕ };

    ghost coded = { lay_code };

    ghost use Rattle.vx_layout_spec.specs.LayoutTree.{stats_kind};
    ghost use Rattle.vx_aggregate.specs.Stats.{stat_number};
    ghost use Rattle.vx_layout_tree.specs.LayoutView.{seen};

    ghost view = { λ c. seen (stats_kind c.zone_len (map stat_number c.stats.items)) c.dtype c.row_count c.segment_ids c.children };

    ghost use Rattle.std.specs.Prelude.{IsTrue};
    ghost use Rattle.vx_metadata.specs.Values.{are_in_order};

    ghost invariant = { λ c. IsTrue (are_in_order c.stats.items) };

    ghost use Rattle.vx_layout_tree.specs.LayDepth.{depth};

    ghost size = { depth };

    ghost use Rattle.vx_layout_tree.specs.DepthFalls.{children_fall};

    ghost size_decreases = { λ c h. children_fall c.children.items };
}

impl LegacyStatsLayout {
    ghost use Rattle.std.specs.Prelude.{IsTrue};
    ghost use Rattle.vx_metadata.specs.Values.{are_in_order};
    ghost use Rattle.vx_layout_tree.specs.LayoutView.{layout_data};
    ghost use Rattle.vx_layout_tree.specs.Made.{make_stats};
    ghost use Rattle.vx_layout_tree.specs.Views.{Gives, itself};

    /// Of the column's type and rows. The statistics are in order, each once (`vx_metadata::are_in_order`). Refuses
    /// `ChildType` where the zones aren't of their table type.
    pub fn new(
        alloc: Global,
        column: Layout,
        zones: Layout,
        zone_len: u32,
        stats: Vec<Stat>,
    ) -> Result<LegacyStatsLayout, LayoutError>
        requires { IsTrue (are_in_order stats.items) }
        ensures { Gives itself result (make_stats (layout_data column) (layout_data zones) zone_len stats.items) }
    {
        let children = vec![in alloc; column, zones]?;
        let needs = legacy_stats_table_dtype(alloc, children[0].dtype(), &stats)?;
        if *children[1].dtype() != needs {
            return Err(other_type(&children[1], needs));
        }
        let dtype = children[0].dtype().clone()?;
        let row_count = children[0].row_count();
        Ok(LegacyStatsLayout {
            row_count,
            dtype,
            segment_ids: Vec::new(alloc),
            children,
            zone_len,
            stats,
        })
    }
}
