//! Statistics of the batches so far.

use crate::column::ColumnStats;
use crate::error::StatsError;
use crate::pieces::{no_columns, with_batch};
use crate::stats_set::StatsSet;
use crate::told::sets_of;
use std::alloc::{AllocError, Global};
use vx_aggregate::Stat;
use vx_chunk::Chunk;
use vx_model::DType;

/// The statistics of a source's columns, gathered of the batches that it gave.
#[derive(Drop)]
pub struct FileStatsAccumulator {
    pub(crate) dtype: DType,
    pub(crate) stats: Vec<Stat>,
    pub(crate) limit: u64,
    /// Nothing once memory ran out for a batch.
    pub(crate) columns: Option<Vec<ColumnStats>>,
}

impl FileStatsAccumulator {
    ghost use Rattle.std.specs.Prelude.{◌≡◌, ℕ, false, List, [], ◌∷◌, map, IfOk, IfErr, OnOk};
    ghost use Rattle.vx_model.specs.Ty.{Ty};
    ghost use Rattle.vx_model.specs.TyView.{ty};
    ghost use Rattle.vx_model.specs.ChunkData.{ChunkData, is_sound};
    ghost use Rattle.vx_aggregate.specs.declared.stat.Stat.{Stat};
    ghost use Rattle.vx_file_stats.specs.Precisions.{set_data};
    ghost use Rattle.vx_file_stats.specs.FileStats.{file_stats, is_nullable_struct};
    ghost use Rattle.vx_file_stats.specs.Gathered.{asked_of, limit_of, type_of, Gathered, IsRefused};

    /// Of no batch. The statistics that are asked for may repeat.
    #[tactic(auto, using(crate::proofs::GatheredSteps::start_rules))]
    pub(crate) fn new(
        alloc: Global,
        dtype: &DType,
        stats: Vec<Stat>,
        limit: u64,
    ) -> Result<FileStatsAccumulator, StatsError>
        ensures asked { IfOk result (λ a. asked_of a ≡ stats.items) }
        ensures limit { IfOk result (λ a. limit_of a ≡ limit) }
        ensures dtype { IfOk result (λ a. type_of a ≡ ty dtype.now) }
        ensures gathered { IfOk result (λ a. Gathered a []) }
        ensures taken { OnOk result (is_nullable_struct (ty dtype.now) ≡ false) }
        ensures refused { IfErr result (IsRefused (ty dtype.now)) }
    {
        if dtype.is_struct() && dtype.is_nullable() {
            return Err(StatsError::NullableStruct);
        }
        let columns = no_columns(alloc, dtype)?;
        match dtype.clone() {
            Ok(dtype) => Ok(FileStatsAccumulator {
                dtype,
                stats,
                limit,
                columns: Some(columns),
            }),
            Err(_) => {
                drop(columns);
                Err(StatsError::OutOfMemory)
            }
        }
    }

    /// With one batch more. One of another type counts in nothing.
    pub(crate) fn add(&mut self, batch: &Chunk)
        ensures gathered { (ps : List ChunkData) → Gathered self.old ps → Gathered self.new (batch.now ∷ ps) }
        ensures asked { asked_of self.new ≡ asked_of self.old }
        ensures limit { limit_of self.new ≡ limit_of self.old }
        ensures dtype { type_of self.new ≡ type_of self.old }
    {
        batch.sound();
        if *batch.dtype() != self.dtype {
            return;
        }
        let Some(before) = self.columns.take() else {
            return;
        };
        let alloc = *self.stats.allocator();
        if let Ok(columns) = with_batch(alloc, &self.stats, self.limit, batch, before) {
            self.columns = Some(columns);
        }
    }

    /// A set a field of a struct type, in order, or one of another type: the statistics of the batches given. Where
    /// memory ran out for a batch, it is out here.
    pub fn stats_sets(self) -> Result<Vec<StatsSet>, AllocError>
        ensures { (ps : List ChunkData) → Gathered self ps → IfOk result (λ v. map set_data v.items ≡ file_stats (asked_of self) (limit_of self) (type_of self) ps) }
    {
        let FileStatsAccumulator {
            dtype,
            stats,
            columns,
            ..
        } = self;
        drop(dtype);
        match columns {
            Some(columns) => sets_of(&stats, columns),
            None => Err(AllocError),
        }
    }
}
