//! Layouts, what they are built in, their bytes, their texts and their rows: the names that callers use.
#![tactic(auto)]

pub use vx_aggregate::{
    AggregateFn, MAX_IS_TRUNCATED, MIN_IS_TRUNCATED, SpecError, Stat, aggregate_stats_table_dtype,
    default_zoned_aggregate_fns, legacy_stats_table_dtype,
};
pub use vx_display::{DisplayLayoutTree, LayoutDisplay};
pub use vx_layout_build::{
    DepthFirst, LayoutChild, LayoutChildrenWalk, LayoutDeserializeArgs, LayoutEncodingExt,
    LayoutWalk, build_node,
};
pub use vx_layout_bytes::{
    GrammarError, Limits, NodeView, NodeViews, OpenNode, RawNode, read_nodes, view_root, write_node,
};
pub use vx_layout_codec::{
    layout_bytes, layout_from_flatbuffer, layout_from_flatbuffer_with_options,
};
pub use vx_layout_fields::LayoutFields;
pub use vx_layout_sent::through_a_thread;
pub use vx_layout_slots::{ChildNames, ChildRowOffsets, ChildTypes, LayoutChildType, LayoutSlots};
pub use vx_layout_tree::{
    ChunkedLayout, DictLayout, ELEMENTS_CHILD_INDEX, FlatLayout, ForeignLayout, Layout,
    LayoutChildren, LayoutError, LayoutKind, LayoutParts, LegacyStatsLayout, ListLayout,
    NUM_CHILDREN_NON_NULLABLE, OFFSETS_CHILD_INDEX, SegmentList, StructLayout,
    VALIDITY_CHILD_INDEX, ViewedChildren, ZonedLayout, layout_children,
};
pub use vx_metadata::{
    AggregateSpec, DictLayoutMetadata, FlatLayoutMetadata, LegacyStatsMetadata, ListLayoutMetadata,
    MetadataError, ZonedMetadata, are_in_order,
};
pub use vx_read::{ReadError, SegmentMap, read_rows};
pub use vx_session::{
    AggregatesError, LayoutBuildContext, LayoutContext, LayoutEncoding, LayoutEncodingRef,
    LayoutRegistry, LayoutSession, LayoutSessionExt, LayoutVTablePlugin, LayoutVTableRef, Scope,
    Session,
};

/// A layout, as the Rust crate names one that is shared.
pub type LayoutRef = Layout;

/// A layout, as the Rust crate names one of any kind.
pub type DynLayout = Layout;

/// The id of a layout's kind.
pub type LayoutId = vx_model::Text;

/// The same.
pub type LayoutEncodingId = vx_model::Text;

/// The segments of a layout itself.
pub type SegmentIds = Vec<vx_model::SegmentId>;
