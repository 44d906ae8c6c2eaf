//! A layout by its kind.

use crate::children::LayoutChildren;
use crate::flat::FlatLayout;
use crate::layout::Layout;
use crate::zoned::ZoneTable;
use bytes::Bytes;
use vx_aggregate::{AggregateFn, Stat};
use vx_model::Text;

/// The kind of a layout, and what it keeps besides rows, type and segments.
#[derive(Clone, Copy)]
pub enum KindRef<'a> {
    Flat(&'a FlatLayout),
    Chunked(&'a LayoutChildren),
    Struct(&'a LayoutChildren),
    List(&'a [Layout]),
    /// With whether all values are referenced.
    Dict(&'a [Layout], bool),
    /// With the zone length, and what the table records.
    Zoned(&'a [Layout], u32, &'a [AggregateFn]),
    /// The table isn't read: its metadata, and the table as it was found.
    Unread(&'a [Layout], &'a Bytes, &'a LayoutChildren),
    /// With the zone length, and what the table records.
    LegacyStats(&'a [Layout], u32, &'a [Stat]),
    /// With the id and the metadata.
    Foreign(&'a [Layout], &'a Text, &'a Bytes),
}

impl Layout {
    ghost use Rattle.vx_layout_tree.specs.KindView.{Tells};
    ghost use Rattle.vx_layout_tree.specs.LayoutView.{layout_data};

    /// The layout by its kind.
    #[tactic(auto, using(crate::proofs::KidSteps::kind_rules), unfolding(crate::specs::LayoutView::layout_data))]
    pub fn by_kind(&self) -> KindRef<'_>
        ensures { Tells (layout_data self.now) result }
    {
        match self {
            Layout::Flat(flat) => KindRef::Flat(flat),
            Layout::Chunked(inner) => KindRef::Chunked(&inner.children),
            Layout::Struct(inner) => KindRef::Struct(&inner.children),
            Layout::List(inner) => KindRef::List(&inner.children),
            Layout::Dict(inner) => KindRef::Dict(&inner.children, inner.all_values_referenced),
            Layout::Zoned(inner) => match &inner.table {
                ZoneTable::Read => {
                    KindRef::Zoned(&inner.children, inner.zone_len, &inner.aggregates)
                }
                ZoneTable::Unread(unread) => {
                    KindRef::Unread(&inner.children, &unread.metadata, &unread.zones)
                }
            },
            Layout::LegacyStats(inner) => {
                KindRef::LegacyStats(&inner.children, inner.zone_len, &inner.stats)
            }
            Layout::Foreign(inner) => {
                KindRef::Foreign(&inner.children, &inner.id, &inner.metadata)
            }
        }
    }
}
