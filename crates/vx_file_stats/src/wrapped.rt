//! A source and what was gathered of it.

use crate::accumulator::FileStatsAccumulator;
use vx_chunk::Chunk;
use vx_fault::Fallible;
use vx_model::DType;
use vx_sink::{BatchSource, SourceError};

/// A source, and the statistics of the batches that it gave. It gives the same batches and fails as the source does, also
/// where memory runs out for statistics: `FileStatsAccumulator::stats_sets` says that.
#[derive(Drop)]
pub struct StatsSource<B> {
    pub(crate) source: B,
    pub(crate) gathered: FileStatsAccumulator,
}

impl<B: BatchSource> StatsSource<B> {
    ghost use Rattle.std.specs.Prelude.{◌≡◌};
    ghost use Rattle.vx_file_stats.specs.Sources.{gathered_in, source_in};

    /// What was gathered, and the source.
    pub fn finish(self) -> (FileStatsAccumulator, B)
        ensures gathered { result.0 ≡ gathered_in self }
        ensures source { result.1 ≡ source_in self }
    {
        let StatsSource { source, gathered } = self;
        (gathered, source)
    }
}

impl<B: BatchSource> Fallible for StatsSource<B> {
    ghost faults = { λ s. B.faults s.source };

    ghost may_fail = { λ s. B.may_fail s.source };

    ghost must_fail = { λ s. B.must_fail s.source };
}

impl<B: BatchSource> BatchSource for StatsSource<B> {
    ghost use Rattle.std.specs.Prelude.{◌≡◌, List};
    ghost use Rattle.vx_model.specs.ChunkData.{ChunkData};
    ghost use Rattle.vx_fault.specs.Faults.{Called};
    ghost use Rattle.vx_sink.specs.Source.{source_failed, Falls, GivesNext};
    ghost use Rattle.vx_file_stats.specs.Gathered.{asked_of, limit_of, type_of, Gathered, given_then};
    ghost use Rattle.vx_file_stats.specs.Sources.{gathered_in, source_in};

    ghost kind = { λ s. B.kind s.source };

    ghost left = { λ s. B.left s.source };

    ghost to_come = { λ s. B.to_come s.source };

    fn dtype(&self) -> &DType {
        self.source.dtype()
    }

    /// The next batch of the source, which counts in the statistics.
    fn next(&mut self) -> Result<Option<Chunk>, SourceError>
        ensures kind { B.kind (source_in self.new) ≡ B.kind (source_in self.old) }
        ensures falls { Falls (B.left (source_in self.old)) (B.left (source_in self.new)) result }
        ensures batch { GivesNext (B.to_come (source_in self.old)) (B.to_come (source_in self.new)) result }
        ensures told { Called (B.faults (source_in self.old)) (B.faults (source_in self.new)) (B.may_fail (source_in self.old)) (B.may_fail (source_in self.new))
            (B.must_fail (source_in self.old)) (B.must_fail (source_in self.new)) (source_failed result) }
        ensures gathered { (ps : List ChunkData) → Gathered (gathered_in self.old) ps → Gathered (gathered_in self.new) (given_then result ps) }
        ensures asked { asked_of (gathered_in self.new) ≡ asked_of (gathered_in self.old) }
        ensures limit { limit_of (gathered_in self.new) ≡ limit_of (gathered_in self.old) }
        ensures dtype { type_of (gathered_in self.new) ≡ type_of (gathered_in self.old) }
    {
        let answer = self.source.next();
        if let Ok(Some(batch)) = &answer {
            self.gathered.add(batch);
        }
        answer
    }
}
