use crate::children::kept_rows;
use crate::chunked::ChunkedLayout;
use crate::dict::DictLayout;
use crate::flat::FlatLayout;
use crate::foreign::ForeignLayout;
use crate::kind::LayoutKind;
use crate::list::ListLayout;
use crate::stats::LegacyStatsLayout;
use crate::structs::StructLayout;
use crate::zoned::{ZoneTable, ZonedLayout};
use vx_model::{DType, SegmentId};

/// A tree that says how to read rows back. Its leaves name segments.
#[cycle(layout)]
pub enum Layout {
    Flat(FlatLayout),
    Chunked(ChunkedLayout),
    Struct(StructLayout),
    List(ListLayout),
    Dict(DictLayout),
    Zoned(ZonedLayout),
    LegacyStats(LegacyStatsLayout),
    Foreign(ForeignLayout),
}

impl Layout {
    ghost use Rattle.std.specs.Prelude.{◌≡◌, ◌≢◌, ◌↔◌, ◌<◌, map, length, Ok, IsTrue, MatchOption};
    ghost use Rattle.vx_model.specs.TyView.{ty};
    ghost use Rattle.vx_layout_spec.specs.LayoutTree.{layout_kind, layout_type, row_count as rows, segments_of, children_of, kind_id};
    ghost use Rattle.vx_layout_tree.specs.Children.{kind_name, rows_at, answered};
    ghost use Rattle.vx_layout_tree.specs.declared.kind.LayoutKind.TheVariants.{Flat};
    ghost use Rattle.vx_layout_tree.specs.FlatView.{flat_lay};
    ghost use Rattle.vx_layout_tree.specs.LayoutView.{layout_data, number};

    /// Rows that the layout gives.
    #[tactic(auto, unfolding(crate::specs::LayoutView::layout_data))]
    pub fn row_count(&self) -> u64
        ensures { result ≡ rows (layout_data self.now) }
    {
        match self {
            Layout::Flat(flat) => flat.row_count,
            Layout::Chunked(inner) => inner.row_count,
            Layout::Struct(inner) => inner.row_count,
            Layout::List(inner) => inner.row_count,
            Layout::Dict(inner) => inner.row_count,
            Layout::Zoned(inner) => inner.row_count,
            Layout::LegacyStats(inner) => inner.row_count,
            Layout::Foreign(inner) => inner.row_count,
        }
    }

    /// The type of its rows.
    #[tactic(auto, unfolding(crate::specs::LayoutView::layout_data))]
    pub fn dtype(&self) -> &DType
        ensures { ty result.now ≡ layout_type (layout_data self.now) }
    {
        match self {
            Layout::Flat(flat) => &flat.dtype,
            Layout::Chunked(inner) => &inner.dtype,
            Layout::Struct(inner) => &inner.dtype,
            Layout::List(inner) => &inner.dtype,
            Layout::Dict(inner) => &inner.dtype,
            Layout::Zoned(inner) => &inner.dtype,
            Layout::LegacyStats(inner) => &inner.dtype,
            Layout::Foreign(inner) => &inner.dtype,
        }
    }

    /// An unread zoned layout is `Zoned`.
    #[tactic(auto, unfolding(crate::specs::LayoutView::layout_data))]
    pub fn kind(&self) -> LayoutKind
        ensures { result ≡ kind_name (layout_kind (layout_data self.now)) }
    {
        match self {
            // A field is named in each pattern, here and below, so that the proof sees into the layout.
            Layout::Flat(_) => LayoutKind::Flat,
            Layout::Chunked(ChunkedLayout { row_count, .. }) => LayoutKind::Chunked,
            Layout::Struct(StructLayout { row_count, .. }) => LayoutKind::Struct,
            Layout::List(ListLayout { row_count, .. }) => LayoutKind::List,
            Layout::Dict(DictLayout { row_count, .. }) => LayoutKind::Dict,
            Layout::Zoned(
                ZonedLayout {
                    table: ZoneTable::Read,
                    ..
                },
            ) => LayoutKind::Zoned,
            Layout::Zoned(
                ZonedLayout {
                    table: ZoneTable::Unread(_),
                    ..
                },
            ) => LayoutKind::Zoned,
            Layout::LegacyStats(LegacyStatsLayout { row_count, .. }) => LayoutKind::LegacyStats,
            Layout::Foreign(ForeignLayout { row_count, .. }) => LayoutKind::Foreign,
        }
    }

    /// The id that contexts list, of a foreign layout its own.
    #[tactic(auto, unfolding(crate::specs::LayoutView::layout_data))]
    pub fn encoding_id(&self) -> &str
        ensures { result.now ≡ kind_id (layout_kind (layout_data self.now)) }
    {
        match self {
            Layout::Flat(_) => "vortex.flat",
            Layout::Chunked(ChunkedLayout { row_count, .. }) => "vortex.chunked",
            Layout::Struct(StructLayout { row_count, .. }) => "vortex.struct",
            Layout::List(ListLayout { row_count, .. }) => "vortex.list",
            Layout::Dict(DictLayout { row_count, .. }) => "vortex.dict",
            Layout::Zoned(
                ZonedLayout {
                    table: ZoneTable::Read,
                    ..
                },
            ) => "vortex.zoned",
            Layout::Zoned(
                ZonedLayout {
                    table: ZoneTable::Unread(_),
                    ..
                },
            ) => "vortex.zoned",
            Layout::LegacyStats(LegacyStatsLayout { row_count, .. }) => "vortex.stats",
            Layout::Foreign(foreign) => foreign.id.as_str(),
        }
    }

    /// The segments of the layout itself.
    #[tactic(auto, unfolding(crate::specs::LayoutView::layout_data))]
    pub fn segment_ids(&self) -> &[SegmentId]
        ensures { map number result.now ≡ segments_of (layout_data self.now) }
    {
        match self {
            Layout::Flat(flat) => std::slice::from_ref(&flat.segment_id),
            Layout::Chunked(inner) => &inner.segment_ids,
            Layout::Struct(inner) => &inner.segment_ids,
            Layout::List(inner) => &inner.segment_ids,
            Layout::Dict(inner) => &inner.segment_ids,
            Layout::Zoned(inner) => &inner.segment_ids,
            Layout::LegacyStats(inner) => &inner.segment_ids,
            Layout::Foreign(inner) => &inner.segment_ids,
        }
    }

    /// How many children are present.
    #[tactic(auto, using(crate::proofs::KidSteps::place_rules), unfolding(crate::specs::LayoutView::layout_data))]
    pub fn nchildren(&self) -> u64
        ensures { result ≡ length (children_of (layout_data self.now)) }
    {
        match self {
            Layout::Flat(_) => 0,
            Layout::Chunked(inner) => inner.children.nchildren(),
            Layout::Struct(inner) => inner.children.nchildren(),
            Layout::List(inner) => inner.children.len() as u64,
            Layout::Dict(inner) => inner.children.len() as u64,
            Layout::Zoned(inner) => inner.nchildren(),
            Layout::LegacyStats(inner) => inner.children.len() as u64,
            Layout::Foreign(inner) => inner.children.len() as u64,
        }
    }

    /// Rows of the child at the place, which is below `nchildren`.
    #[tactic(auto, using(crate::proofs::KidSteps::place_rules), unfolding(crate::specs::LayoutView::layout_data))]
    pub fn child_row_count(&self, i: u64) -> u64
        requires { i < length (children_of (layout_data self.now)) }
        ensures { result ≡ rows_at (children_of (layout_data self.now)) i }
    {
        match self {
            Layout::Flat(_) => 0,
            Layout::Chunked(inner) => inner.children.child_row_count(i),
            Layout::Struct(inner) => inner.children.child_row_count(i),
            Layout::List(inner) => kept_rows(&inner.children, i),
            Layout::Dict(inner) => kept_rows(&inner.children, i),
            Layout::Zoned(inner) => inner.child_row_count(i),
            Layout::LegacyStats(inner) => kept_rows(&inner.children, i),
            Layout::Foreign(inner) => kept_rows(&inner.children, i),
        }
    }

    /// A layout in memory is no node that can't be built.
    #[tactic(auto, unfolding(crate::specs::LayoutView::layout_data))]
    pub fn built(&self)
        ensures { answered (layout_data self.now) ≡ Ok (layout_data self.now) }
    {
        match self {
            Layout::Flat(_) => (),
            Layout::Chunked(ChunkedLayout { row_count, .. }) => (),
            Layout::Struct(StructLayout { row_count, .. }) => (),
            Layout::List(ListLayout { row_count, .. }) => (),
            Layout::Dict(DictLayout { row_count, .. }) => (),
            Layout::Zoned(
                ZonedLayout {
                    table: ZoneTable::Read,
                    ..
                },
            ) => (),
            Layout::Zoned(
                ZonedLayout {
                    table: ZoneTable::Unread(_),
                    ..
                },
            ) => (),
            Layout::LegacyStats(LegacyStatsLayout { row_count, .. }) => (),
            Layout::Foreign(ForeignLayout { row_count, .. }) => (),
        }
    }

    /// Whether readers may not split its rows.
    pub fn is_indivisible(&self) -> bool
        ensures { IsTrue result ↔ (kind_name (layout_kind (layout_data self.now)) ≡ Flat) }
    {
        self.is(LayoutKind::Flat)
    }

    /// Whether it is of the kind.
    pub fn is(&self, kind: LayoutKind) -> bool
        ensures { IsTrue result ↔ (kind_name (layout_kind (layout_data self.now)) ≡ kind) }
    {
        self.kind() == kind
    }

    /// The layout itself, where it is of the kind.
    pub fn as_opt(&self, kind: LayoutKind) -> Option<&Layout>
        ensures { MatchOption result (kind_name (layout_kind (layout_data self.now)) ≢ kind) (λ l. (l.now ≡ self.now) × (kind_name (layout_kind (layout_data self.now)) ≡ kind)) }
    {
        if self.is(kind) { Some(self) } else { None }
    }

    /// The flat layout that it is, where it is one.
    #[tactic(auto, unfolding(crate::specs::LayoutView::layout_data))]
    pub fn as_flat(&self) -> Option<&FlatLayout>
        ensures { MatchOption result (kind_name (layout_kind (layout_data self.now)) ≢ Flat) (λ flat. layout_data self.now ≡ flat_lay flat.now) }
    {
        match self {
            Layout::Flat(flat) => Some(flat),
            Layout::Chunked(ChunkedLayout { row_count, .. }) => None,
            Layout::Struct(StructLayout { row_count, .. }) => None,
            Layout::List(ListLayout { row_count, .. }) => None,
            Layout::Dict(DictLayout { row_count, .. }) => None,
            Layout::Zoned(
                ZonedLayout {
                    table: ZoneTable::Read,
                    ..
                },
            ) => None,
            Layout::Zoned(
                ZonedLayout {
                    table: ZoneTable::Unread(_),
                    ..
                },
            ) => None,
            Layout::LegacyStats(LegacyStatsLayout { row_count, .. }) => None,
            Layout::Foreign(ForeignLayout { row_count, .. }) => None,
        }
    }

    /// `is` tests the condition.
    pub fn as_(&self, kind: LayoutKind) -> &Layout
        requires { kind_name (layout_kind (layout_data self.now)) ≡ kind }
        ensures { result.now ≡ self.now }
    {
        let _ = kind;
        self
    }
}

// Written out, so that whoever drops one makes a call, and no proof goes through its kinds again.
impl Drop for Layout {
    #[cycle(layout)]
    fn drop(self) {
        match self {
            Layout::Flat(_) => {}
            Layout::Chunked(_) => {}
            Layout::Struct(_) => {}
            Layout::List(_) => {}
            Layout::Dict(_) => {}
            Layout::Zoned(_) => {}
            Layout::LegacyStats(_) => {}
            Layout::Foreign(_) => {}
        }
    }
}

/// Drops a layout with all below it. A crate that calls this proves nothing of how that is done.
pub fn drop_layout(layout: Layout) {
    drop(layout);
}
