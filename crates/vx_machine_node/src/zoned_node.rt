//! Zoned nodes.

ghost use Rattle.std.specs.Prelude.{◌≡◌, IsTrue};
ghost use Rattle.std.specs.Arc.{arc_value};
ghost use Rattle.std.specs.Coded.{Coded-set, coded×, coded_list};
ghost use Rattle.std.specs.Int.NonZero.{non_zero_u32_get};
ghost use Rattle.vx_model.specs.TyView.{ty};
ghost use Rattle.vx_zone_guard.specs.GuardView.{aggregate_code, type_code};
ghost use Rattle.vx_zone_table.specs.BuilderView.{gathered};

use std::num::NonZeroU32;
use std::sync::Arc;
use vx_aggregate::AggregateFn;
use vx_chunk::Chunk;
use vx_model::DType;
use vx_sequence::SequencePointer;
use vx_strategy::ChildStrategy;
use vx_zone_guard::ZoneGuard;
use vx_zone_table::ZoneTableBuilder;

/// A node that records each chunk as a zone, and hands it on.
pub struct ZonedNode {
    pub dtype: Arc<DType>,
    pub zone_len: NonZeroU32,
    /// What is recorded, and the rows of the last chunk.
    pub guard: ZoneGuard,
    /// The records of all chunks so far.
    pub records: ZoneTableBuilder,
    /// The strategy of the table.
    pub stats: ChildStrategy,
    /// At the path that the table stands below.
    pub eof: SequencePointer,
    /// Of all chunks so far.
    pub rows: u64,
    ghost typed: { guard.typed ≡ ty (arc_value dtype) } by { Coded-set type_code guard.typed (ty (arc_value dtype)) },
    ghost same: { guard.zone_len ≡ non_zero_u32_get zone_len },
    ghost columns: { (gathered records).columns ≡ guard.columns } by { Coded-set (coded_list (coded× aggregate_code type_code)) (gathered records).columns guard.columns },
}

/// A zone table before its task starts.
pub struct TableStart {
    pub stats: ChildStrategy,
    pub chunk: Chunk,
    /// At the path that the chunk stands below.
    pub eof: SequencePointer,
}

/// What a zoned layout has besides its children.
#[derive(Drop)]
pub struct Zones {
    pub dtype: Arc<DType>,
    pub rows: u64,
    pub zone_len: NonZeroU32,
    /// Of the table's columns.
    pub aggregates: Vec<AggregateFn>,
}
