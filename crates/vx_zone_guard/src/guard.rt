//! The guard of zones.

ghost use Rattle.std.specs.Prelude.{◌≡◌, ◌∷◌, List, None, map, option_map, IsTrue, IfOk, IfSome, OnOk, IfErr};
ghost use Rattle.std.specs.Int.NonZero.{non_zero_u32_get};
ghost use Rattle.vx_hash.specs.XxHash3.{xxhash3_64};
ghost use Rattle.vx_model.specs.TyView.{ty};
ghost use Rattle.vx_model.specs.TreeView.{val};
ghost use Rattle.vx_model.specs.ChunkData.{piece_type, row_values};
ghost use Rattle.vx_aggregate_spec.specs.Aggregate.{Column, held_aggregates as columns_of};
ghost use Rattle.vx_aggregate.specs.AggregateView.{aggregate as aggregate_of};
ghost use Rattle.vx_zone_spec.specs.Record.{zone_record};
ghost use Rattle.vx_zone_record_spec.specs.Held.{record_fits};
ghost use Rattle.vx_plan.specs.PlanData.{zone_cut};
ghost use Rattle.vx_machine_turns.specs.Zoned.{zone_fault};
ghost use Rattle.vx_turn_laws.specs.Guard.{refused_at, zone_at};
ghost use Rattle.vx_zone_guard.specs.GuardView.{guard_view, Stands, values_of};
ghost use Rattle.vx_zone_guard.specs.Causes.{Refuses};

use crate::error::GuardError;
use std::alloc::Global;
use std::marker::Model;
use std::num::NonZeroU32;
use vx_aggregate::AggregateFn;
use vx_chunk::Chunk;
use vx_model::{DType, Value};
use vx_zone_record::{cells_record, held_aggregates, lent_record};

/// Records each chunk of a stream as one zone, and refuses those that make no zones. Contracts see the type, the zone
/// length, what is recorded, and the rows of the last chunk.
#[derive(Debug, Drop)]
pub struct ZoneGuard {
    dtype: DType,
    zone_len: NonZeroU32,
    /// Those that the type can hold.
    aggregates: Vec<AggregateFn>,
    /// Rows of the last chunk; before the first one a zone's.
    last: u64,
}

impl Model for ZoneGuard {
    ghost use Rattle.std.specs.Int.NonZero.{non_zero_u32_get};
    ghost use Rattle.vx_turn_laws.specs.Guard.{Guard};
    ghost use Rattle.vx_zone_guard.specs.GuardView.{guard_view, guard_code, Stands};

    ghost Value = { Guard };

    ghost coded = { guard_code };

    ghost view = { λ g. guard_view g.dtype (non_zero_u32_get g.zone_len) g.aggregates.items g.last };

    ghost invariant = { λ g. Stands g.dtype g.aggregates.items };
}

impl ZoneGuard {
    ghost use Rattle.std.specs.Prelude.{◌≡◌, None, map, option_map, IsTrue, IfOk, IfSome, OnOk, IfErr, OnErr};
    ghost use Rattle.std.specs.Int.NonZero.{non_zero_u32_get};
    ghost use Rattle.vx_hash.specs.XxHash3.{xxhash3_64};
    ghost use Rattle.vx_model.specs.TyView.{ty};
    ghost use Rattle.vx_model.specs.TreeView.{val};
    ghost use Rattle.vx_model.specs.ChunkData.{piece_type};
    ghost use Rattle.vx_aggregate.specs.AggregateView.{aggregate as aggregate_of};
    ghost use Rattle.vx_zone_record_spec.specs.Held.{record_fits};
    ghost use Rattle.vx_turn_laws.specs.Guard.{guard, refused_at, zone_at, behind};
    ghost use Rattle.vx_zone_guard.specs.GuardView.{values_of};
    ghost use Rattle.vx_zone_guard.specs.Causes.{Refuses};

    /// The guard of a stream of the type, before the first chunk. Of the aggregates it keeps those that the type can
    /// hold, in their order; where it keeps none it records and refuses nothing.
    pub fn new(
        alloc: Global,
        zone_len: NonZeroU32,
        aggregates: Vec<AggregateFn>,
        dtype: DType,
    ) -> Result<ZoneGuard, GuardError>
        ensures ok { IfOk result (λ g. g ≡ guard (non_zero_u32_get zone_len) (map aggregate_of aggregates.items) (ty dtype)) }
        ensures memory { IfErr result (λ e. e ≡ GuardError.OutOfMemory) }
    {
        let kept = held_aggregates(alloc, &aggregates, &dtype)?;
        Ok(ZoneGuard {
            dtype,
            zone_len,
            aggregates: kept,
            last: u64::from(zone_len.get()),
        })
    }

    /// The record of the next chunk's rows, which goes on as it is: a value for each aggregate that is kept, nothing
    /// where none is. Looks at the chunk before it before it looks at this one's length, and takes memory only once
    /// both make zones. Takes time by the rows for each aggregate. Cells that the chunk holds aren't copied.
    pub fn react(&mut self, alloc: Global, chunk: &Chunk) -> Result<Option<Vec<Value>>, GuardError>
        requires { piece_type chunk.now ≡ self.old.typed }
        ensures zone { IfOk result (λ z. option_map values_of z ≡ zone_at xxhash3_64 self.old chunk.now) }
        ensures fits { IfOk result (λ z. IfSome z (λ v. IsTrue (record_fits self.old.columns (values_of v)))) }
        ensures next { OnOk result (self.new ≡ behind self.old chunk.now) }
        ensures makes_zones { OnOk result (refused_at self.old chunk.now ≡ None) }
        ensures kept { OnErr result (self.new ≡ self.old) }
        ensures refused { IfErr result (Refuses self.old chunk.now) }
    {
        let zone = zone_of(
            alloc,
            self.zone_len,
            &self.aggregates,
            &self.dtype,
            self.last,
            chunk,
        )?;
        self.last = chunk.len();
        Ok(zone)
    }
}

/// What a guard tells of the chunk behind one of `last` rows.
fn zone_of(
    alloc: Global,
    zone_len: NonZeroU32,
    aggregates: &[AggregateFn],
    dtype: &DType,
    last: u64,
    chunk: &Chunk,
) -> Result<Option<Vec<Value>>, GuardError>
    requires stands { Stands dtype.now aggregates.now }
    requires typed { piece_type chunk.now ≡ ty dtype.now }
    ensures zone { IfOk result (λ z. option_map values_of z ≡ zone_at xxhash3_64 (guard_view dtype.now (non_zero_u32_get zone_len) aggregates.now last) chunk.now) }
    ensures fits { IfOk result (λ z. IfSome z (λ v. IsTrue (record_fits (guard_view dtype.now (non_zero_u32_get zone_len) aggregates.now last).columns (values_of v)))) }
    ensures makes_zones { OnOk result (refused_at (guard_view dtype.now (non_zero_u32_get zone_len) aggregates.now last) chunk.now ≡ None) }
    ensures refused { IfErr result (Refuses (guard_view dtype.now (non_zero_u32_get zone_len) aggregates.now last) chunk.now) }
{
    if aggregates.is_empty() {
        return Ok(None);
    }
    match cut_length(zone_len, last, chunk.len()) {
        Some(rows) => Err(GuardError::ZoneCut(rows)),
        None => {
            let zone = held_record(alloc, aggregates, dtype, chunk)?;
            Ok(Some(zone))
        }
    }
}

/// The rows of the chunk that makes no zone, where one of so many rows comes behind one of `last`.
fn cut_length(zone_len: NonZeroU32, last: u64, rows: u64) -> Option<u64>
    ensures { (a : Column) → (columns : List Column) → zone_fault (non_zero_u32_get zone_len) (a ∷ columns) last rows ≡ option_map zone_cut result }
{
    let zone_len = u64::from(zone_len.get());
    if last < zone_len {
        return Some(last);
    }
    if rows == 0 || rows > zone_len {
        return Some(rows);
    }
    None
}

/// The record of the chunk's rows.
fn held_record(
    alloc: Global,
    aggregates: &[AggregateFn],
    dtype: &DType,
    chunk: &Chunk,
) -> Result<Vec<Value>, GuardError>
    requires stands { Stands dtype.now aggregates.now }
    requires typed { piece_type chunk.now ≡ ty dtype.now }
    ensures values { IfOk result (λ v. map val v.items ≡ zone_record xxhash3_64 (ty dtype.now) (row_values chunk.now) (columns_of (map aggregate_of aggregates.now) (ty dtype.now))) }
    ensures fits { IfOk result (λ v. IsTrue (record_fits (columns_of (map aggregate_of aggregates.now) (ty dtype.now)) (map val v.items))) }
    ensures memory { IfErr result (λ e. e ≡ GuardError.OutOfMemory) }
{
    chunk.sound();
    if let Some(column) = chunk.as_column() {
        let rows = column.rows(alloc)?;
        let values = lent_record(alloc, aggregates, dtype, &rows)?;
        return Ok(values);
    }
    copied_record(alloc, aggregates, dtype, chunk)
}

/// The record of the rows of a chunk that doesn't keep them as a column.
fn copied_record(
    alloc: Global,
    aggregates: &[AggregateFn],
    dtype: &DType,
    chunk: &Chunk,
) -> Result<Vec<Value>, GuardError>
    requires stands { Stands dtype.now aggregates.now }
    requires typed { piece_type chunk.now ≡ ty dtype.now }
    ensures values { IfOk result (λ v. map val v.items ≡ zone_record xxhash3_64 (ty dtype.now) (row_values chunk.now) (columns_of (map aggregate_of aggregates.now) (ty dtype.now))) }
    ensures fits { IfOk result (λ v. IsTrue (record_fits (columns_of (map aggregate_of aggregates.now) (ty dtype.now)) (map val v.items))) }
    ensures memory { IfErr result (λ e. e ≡ GuardError.OutOfMemory) }
{
    chunk.sound();
    let Ok(cells) = chunk.cells(alloc) else {
        return Err(GuardError::OutOfMemory);
    };
    let values = cells_record(alloc, aggregates, dtype, &cells)?;
    Ok(values)
}
