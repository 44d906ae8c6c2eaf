//! A source whose batches' statistics are gathered.

ghost use Rattle.std.specs.Prelude.{◌≡◌, ℕ, false, [], IfOk, IfErr, OnOk};
ghost use Rattle.vx_file_stats.specs.FileStats.{is_nullable_struct};
ghost use Rattle.vx_file_stats.specs.Gathered.{asked_of, limit_of, type_of, Gathered, IsRefused};
ghost use Rattle.vx_file_stats.specs.Sources.{gathered_in, source_in};

use crate::accumulator::FileStatsAccumulator;
use crate::error::StatsError;
use crate::wrapped::StatsSource;
use std::alloc::Global;
use vx_aggregate::Stat;
use vx_sink::BatchSource;

/// The source, with the statistics of its batches gathered as it gives them, from here on. Bounds of texts and bytes are
/// cut to so many bytes. A refused source is handed back.
pub fn accumulate_stats<B: BatchSource>(
    alloc: Global,
    source: B,
    stats: Vec<Stat>,
    max_variable_length_statistics_size: u64,
) -> Result<StatsSource<B>, (StatsError, B)>
    ensures source { IfOk result (λ s. source_in s ≡ source) }
    ensures asked { IfOk result (λ s. asked_of (gathered_in s) ≡ stats.items) }
    ensures limit { IfOk result (λ s. limit_of (gathered_in s) ≡ max_variable_length_statistics_size) }
    ensures dtype { IfOk result (λ s. type_of (gathered_in s) ≡ B.kind source) }
    ensures gathered { IfOk result (λ s. Gathered (gathered_in s) []) }
    ensures taken { OnOk result (is_nullable_struct (B.kind source) ≡ false) }
    ensures refused { IfErr result (λ e. IsRefused (B.kind source) e.0) }
    ensures back { IfErr result (λ e. e.1 ≡ source) }
{
    let limit = max_variable_length_statistics_size;
    match FileStatsAccumulator::new(alloc, source.dtype(), stats, limit) {
        Ok(gathered) => Ok(StatsSource { source, gathered }),
        Err(error) => Err((error, source)),
    }
}
