//! A source that tells of its batches.

ghost use Rattle.std.specs.Prelude.{◌≡◌, ℕ};
ghost use Rattle.vx_fault.specs.Faults.{Called};
ghost use Rattle.vx_sink.specs.Source.{source_failed, Falls, GivesNext};
ghost use Rattle.vx_progress.specs.Telling.{CountsOn, Tells};

use crate::progress::Progress;
use std::cell::Cell;
use vx_chunk::Chunk;
use vx_fault::Fallible;
use vx_model::DType;
use vx_sink::{BatchSource, SourceError};

/// A source, and who is told of each batch that it gave. It gives the same batches and fails as the source does.
#[derive(Drop)]
pub struct ToldSource<'a, B, P> {
    source: B,
    progress: P,
    /// So many segments were appended.
    appended: &'a Cell<u64>,
    batches: u64,
    rows: u64,
}

impl<'a, B: BatchSource, P: Progress> ToldSource<'a, B, P> {
    /// Tells from here on, with the number of segments that the cell has.
    pub fn new(source: B, progress: P, appended: &'a Cell<u64>) -> ToldSource<'a, B, P>
        ensures kind { ⟦<ToldSource<'a, B, P> as BatchSource>⟧.kind result ≡ B.kind source }
        ensures left { ⟦<ToldSource<'a, B, P> as BatchSource>⟧.left result ≡ B.left source }
        ensures to_come { ⟦<ToldSource<'a, B, P> as BatchSource>⟧.to_come result ≡ B.to_come source }
        ensures faults { ⟦<ToldSource<'a, B, P> as Fallible>⟧.faults result ≡ B.faults source }
        ensures may_fail { (k : ℕ) → ⟦<ToldSource<'a, B, P> as Fallible>⟧.may_fail result k → B.may_fail source k }
        ensures must_fail { (k : ℕ) → B.must_fail source k → ⟦<ToldSource<'a, B, P> as Fallible>⟧.must_fail result k }
        ensures counted { (result.batches ≡ 0) × (result.rows ≡ 0) }
        ensures untold { P.told result.progress ≡ P.told progress }
    {
        ToldSource {
            source,
            progress,
            appended,
            batches: 0,
            rows: 0,
        }
    }
}

impl<B: BatchSource, P> Fallible for ToldSource<'_, B, P> {
    ghost faults = { λ s. B.faults s.source };

    ghost may_fail = { λ s. B.may_fail s.source };

    ghost must_fail = { λ s. B.must_fail s.source };
}

impl<B: BatchSource, P: Progress> BatchSource for ToldSource<'_, B, P> {
    ghost kind = { λ s. B.kind s.source };

    ghost left = { λ s. B.left s.source };

    ghost to_come = { λ s. B.to_come s.source };

    fn dtype(&self) -> &DType {
        self.source.dtype()
    }

    /// The next batch of the source, of which it tells.
    fn next(&mut self) -> Result<Option<Chunk>, SourceError>
        ensures kind { B.kind self.new.source ≡ B.kind self.old.source }
        ensures falls { Falls (B.left self.old.source) (B.left self.new.source) result }
        ensures batch { GivesNext (B.to_come self.old.source) (B.to_come self.new.source) result }
        ensures told { Called (B.faults self.old.source) (B.faults self.new.source) (B.may_fail self.old.source) (B.may_fail self.new.source)
            (B.must_fail self.old.source) (B.must_fail self.new.source) (source_failed result) }
        ensures counts { CountsOn self.old.batches self.old.rows self.new.batches self.new.rows result }
        ensures tells { Tells self.new.batches self.new.rows (P.told self.old.progress) (P.told self.new.progress) result }
    {
        let answer = self.source.next();
        if let Ok(Some(batch)) = &answer {
            self.batches = self.batches.saturating_add(1);
            self.rows = self.rows.saturating_add(batch.len());
            self.progress
                .taken(self.batches, self.rows, self.appended.get());
        }
        answer
    }
}
