//! The public calls of vx under one name, a module a part: `vx::write::write_stream`, `vx::layout::read_rows`. No code.
#![tactic(auto)]

/// Types, cells, chunks, and the segments that chunks are written as and read from.
pub mod types {
    pub use vx_chunk::{Chunk, ChunkError};
    pub use vx_chunk_cells::has_storage;
    pub use vx_encodings::all_encodings;
    pub use vx_field_path::{FieldMask, FieldPath};
    pub use vx_model::{
        ArrayContext, Blob, Cell, ContextError, DType, EncodingId, ExtDType, FieldName, IdTooLarge,
        Nullability, PType, SegmentId, StructField, StructFields, Text, Value, fits, fits_one,
    };
    pub use vx_path::owned::Path;
    pub use vx_segment_reader::{DecodeError, buffer_lengths, decode_segment, tree_buffer_lengths};
    pub use vx_segment_writer::{EncodeError, encode_segment};

    /// Tests of what the constructors of chunks ask.
    pub mod conditions {
        pub use vx_chunk_conditions::{
            are_codes, are_of_type, are_parts, has_fields, has_type, makes_dict, makes_list,
            makes_struct, match_fields,
        };
    }
}

/// Layouts of all kinds: constructors, bytes, texts and rows.
pub mod layout {
    pub use vx_display::{DisplayLayoutTree, LayoutDisplay};
    pub use vx_layout_build::{
        DepthFirst, LayoutChild, LayoutChildrenWalk, LayoutDeserializeArgs, LayoutEncodingExt,
        LayoutWalk, build_node,
    };
    pub use vx_layout_bytes::{
        GrammarError, Limits, NodeView, NodeViews, OpenNode, RawNode, read_nodes, view_root,
        write_node,
    };
    pub use vx_layout_codec::{
        layout_bytes, layout_from_flatbuffer, layout_from_flatbuffer_with_options,
    };
    pub use vx_layout_fields::LayoutFields;
    pub use vx_layout_sent::through_a_thread;
    pub use vx_layout_slots::{
        ChildNames, ChildRowOffsets, ChildTypes, LayoutChildType, LayoutSlots,
    };
    pub use vx_layout_tree::{
        ChunkedLayout, DictLayout, ELEMENTS_CHILD_INDEX, FlatLayout, ForeignLayout, Layout,
        LayoutChildren, LayoutError, LayoutKind, LayoutParts, LegacyStatsLayout, ListLayout,
        NUM_CHILDREN_NON_NULLABLE, OFFSETS_CHILD_INDEX, SegmentList, StructLayout,
        VALIDITY_CHILD_INDEX, ViewedChildren, ZonedLayout, layout_children,
    };
    pub use vx_metadata::{
        AggregateSpec, DictLayoutMetadata, FlatLayoutMetadata, LegacyStatsMetadata,
        ListLayoutMetadata, MetadataError, ZonedMetadata, are_in_order,
    };
    pub use vx_read::read_rows;
    pub use vx_read_chunk::{HeldPart, HeldRows, read_chunk};
    pub use vx_segment_map::{ReadError, SegmentMap};
    pub use vx_session::{
        AggregatesError, LayoutBuildContext, LayoutContext, LayoutEncoding, LayoutEncodingRef,
        LayoutRegistry, LayoutSession, LayoutSessionExt, LayoutVTablePlugin, LayoutVTableRef,
        Scope, Session,
    };

    /// A layout, as the Rust crate names one that is shared.
    pub type LayoutRef = Layout;

    /// A layout, as the Rust crate names one of any kind.
    pub type DynLayout = Layout;

    /// The id of a layout's kind.
    pub type LayoutId = vx_model::Text;

    /// The same.
    pub type LayoutEncodingId = vx_model::Text;

    /// The segments of a layout itself.
    pub type SegmentIds = Vec<vx_model::SegmentId>;
}

/// Sequence ids: the order in which segments are appended, whoever makes them.
pub mod sequence {
    pub use vx_sequence::{SequenceError, SequenceId, SequencePointer, Steps, Universe};
}

/// What a write reads from and appends to, and the ordered write over a sink.
pub mod sink {
    pub use vx_order::{
        Attempt, LocalOrder, Order, OrderError, Receipt, WriteErrorName, make_ids, split_off,
    };
    pub use vx_sink::{
        BatchSource, BufferedBytesReservation, BufferedBytesTracker, CompressError,
        CompressorPlugin, Fails, Fallible, LayoutWriterContext, ListSource, MemorySink,
        PlainCompressor, SegmentSink, SinkError, SourceError, TooLarge,
    };
    pub use vx_table_compressor::TableCompressor;
}

/// What columns share that are written by a thread each: the sink under its lock, a seat for each column, the order of
/// a column, the gate before its compressor, and the count of the bytes that workers hold.
pub mod threads {
    pub use vx_column_order::ColumnOrder;
    pub use vx_gate::{Gate, Gated, NoGate};
    pub use vx_seats::{Pairs, Seat, SeatError, SinkState, Turn};
    pub use vx_shared::{BytesSeat, OrderedSink, SharedBytesTracker};
}

/// Bloom filters, their options, and the hash that they store.
pub mod bloom {
    pub use vx_bloom::{BlockCount, BloomFilter, BloomPartial, PartialError, Unsupported};
    pub use vx_bloom_options::{BloomOptions, HashFn, OptionsError, UnknownHash};
    pub use vx_hash::{ByteHash, XxHash3_64};
}

/// Aggregates, the records of zones, their tables, what predicates skip by them, and the statistics of files.
pub mod zones {
    pub use vx_aggregate::{
        AggregateFn, MAX_IS_TRUNCATED, MIN_IS_TRUNCATED, SpecError, Stat,
        aggregate_stats_table_dtype, default_zoned_aggregate_fns, legacy_stats_table_dtype,
    };
    pub use vx_file_stats::{
        FileStatsAccumulator, Precision, StatsError, StatsSet, StatsSource, accumulate_stats,
        legacy_stats_to_aggregates,
    };
    pub use vx_zone_guard::{GuardError, ZoneGuard};
    pub use vx_zone_map::{Predicate, ZoneError, ZoneMap};
    pub use vx_zone_record::{RecordError, cells_record, held_aggregates, zone_record};
    pub use vx_zone_table::ZoneTableBuilder;
}

/// Strategies of all kinds, their constructors and options.
pub mod strategy {
    pub use vx_strategy::{
        BufferedStrategy, BuildError, ChildStrategy, ChunkedLayoutStrategy, CollectStrategy,
        CompressingStrategy, DictStrategy, FlatLayoutStrategy, ListLayoutStrategy, ListWrapper,
        RepartitionStrategy, Strategy, StructStrategy, TableStrategy, ZonedStrategy,
        dict_layout_supported,
    };
    pub use vx_strategy_options::{
        DictLayoutConstraints, DictLayoutOptions, RepartitionWriterOptions, ZonedLayoutOptions,
    };
    pub use vx_table_dispatch::dispatch;
}

/// The rules of nodes: what each does with the chunks that it is handed, one at a time.
pub mod nodes {
    pub use vx_dict_encoder::DictEncoder;
    pub use vx_nodes::{
        Buffered, Collect, ColumnSplit, ListSplit, NodeError, Output, Outputs, Place, Regroup,
        Repartition, Rule, RunCutter, SplitError,
    };
}

/// The step machine, for strategies of all kinds.
pub mod machine {
    pub use vx_machine::{Machine, run};
}

/// Writing a stream of batches by a strategy: by one machine, or column by column on threads.
pub mod write {
    pub use vx_write::{
        ActionKind, Refused, Step, WriteError, Written, column_count, write_stream,
    };
    pub use vx_write_columns::write_columns;
}

/// The program as a call, over any input and output.
pub mod run {
    pub use vx_run::{
        ByteInput, ByteOutput, Command, Input, InputFailure, Nobody, Output, OutputFailure,
        Progress, RealInput, RealOutput, Status, run, run_told,
    };
    pub use vx_run_columns::{run_columns, top, top_told};
}
