//! What layouts are made of.

use crate::children::LayoutChildren;
use crate::chunked::ChunkedLayout;
use crate::dict::DictLayout;
use crate::layout::Layout;
use crate::list::ListLayout;
use crate::stats::LegacyStatsLayout;
use crate::structs::StructLayout;
use crate::zoned::{UnreadZones, ZoneTable, ZonedLayout};
use bytes::Bytes;
use std::alloc::Global;
use vx_aggregate::{AggregateFn, Stat};
use vx_model::{DType, SegmentId};

/// What layouts of all kinds have.
#[derive(Drop)]
pub struct LayoutParts {
    pub dtype: DType,
    pub row_count: u64,
    pub segment_ids: Vec<SegmentId>,
    pub children: LayoutChildren,
}

impl LayoutParts {
    ghost use Rattle.std.specs.Prelude.{◌≡◌};

    /// Takes no memory.
    pub fn new(
        dtype: DType,
        row_count: u64,
        segment_ids: Vec<SegmentId>,
        children: LayoutChildren,
    ) -> LayoutParts
        ensures { result ≡ record { dtype = dtype; row_count = row_count; segment_ids = segment_ids; children = children } }
    {
        LayoutParts {
            dtype,
            row_count,
            segment_ids,
            children,
        }
    }
}

/// What layouts of all kinds have besides children.
#[derive(Drop)]
pub struct LayoutHead {
    pub row_count: u64,
    pub dtype: DType,
    pub segment_ids: Vec<SegmentId>,
}

/// What a layout of a kind is made of, where nothing is tested.
pub enum KindParts {
    Chunked(LayoutParts),
    Struct(LayoutParts),
    List(LayoutHead, Vec<Layout>),
    /// With whether all values are referenced.
    Dict(LayoutHead, Vec<Layout>, bool),
    /// With the zone length, and what the table records.
    Zoned(LayoutHead, Vec<Layout>, u32, Vec<AggregateFn>),
    /// The table isn't read: its metadata, and the table as it was found.
    Unread(LayoutHead, Vec<Layout>, Bytes, LayoutChildren),
    /// With the zone length, and what the table records.
    LegacyStats(LayoutHead, Vec<Layout>, u32, Vec<Stat>),
}

impl Layout {
    ghost use Rattle.std.specs.Prelude.{◌≡◌};
    ghost use Rattle.vx_layout_tree.specs.KindView.{IsWhole, whole_lay};
    ghost use Rattle.vx_layout_tree.specs.LayoutView.{layout_data};

    /// The layout of the parts. Takes no memory.
    #[tactic(auto, unfolding(crate::specs::LayoutView::layout_data))]
    pub fn from_parts(alloc: Global, parts: KindParts) -> Layout
        requires { IsWhole parts }
        ensures { layout_data result ≡ whole_lay parts }
    {
        match parts {
            KindParts::Chunked(parts) => Layout::Chunked(ChunkedLayout {
                row_count: parts.row_count,
                dtype: parts.dtype,
                segment_ids: parts.segment_ids,
                children: parts.children,
            }),
            KindParts::Struct(parts) => Layout::Struct(StructLayout {
                row_count: parts.row_count,
                dtype: parts.dtype,
                segment_ids: parts.segment_ids,
                children: parts.children,
            }),
            KindParts::List(head, children) => Layout::List(ListLayout {
                row_count: head.row_count,
                dtype: head.dtype,
                segment_ids: head.segment_ids,
                children,
            }),
            KindParts::Dict(head, children, all_values_referenced) => Layout::Dict(DictLayout {
                row_count: head.row_count,
                dtype: head.dtype,
                segment_ids: head.segment_ids,
                children,
                all_values_referenced,
            }),
            KindParts::Zoned(head, children, zone_len, aggregates) => Layout::Zoned(ZonedLayout {
                row_count: head.row_count,
                dtype: head.dtype,
                segment_ids: head.segment_ids,
                children,
                zone_len,
                aggregates,
                table: ZoneTable::Read,
            }),
            KindParts::Unread(head, children, metadata, zones) => Layout::Zoned(ZonedLayout {
                row_count: head.row_count,
                dtype: head.dtype,
                segment_ids: head.segment_ids,
                children,
                zone_len: 0,
                aggregates: Vec::new(alloc),
                table: ZoneTable::Unread(UnreadZones { metadata, zones }),
            }),
            KindParts::LegacyStats(head, children, zone_len, stats) => {
                Layout::LegacyStats(LegacyStatsLayout {
                    row_count: head.row_count,
                    dtype: head.dtype,
                    segment_ids: head.segment_ids,
                    children,
                    zone_len,
                    stats,
                })
            }
        }
    }
}
