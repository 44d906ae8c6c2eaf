ghost use Rattle.std.specs.Prelude.{◌≡◌, ℕ, Some, map, length, IsTrue};
ghost use Rattle.std.specs.Vec.Iter.{into_iter_items};
ghost use Rattle.vx_model.specs.TyView.{ty};
ghost use Rattle.vx_chunk.specs.ChunkView.{piece};
ghost use Rattle.vx_fault.specs.Fails.{fails_at};

use crate::source::{BatchSource, SourceError};
use std::vec::IntoIter;
use vx_chunk::Chunk;
use vx_fault::{Fails, Fallible};
use vx_model::DType;

/// A source of the batches of a list.
#[derive(Drop)]
pub struct ListSource {
    dtype: DType,
    batches: IntoIter<Chunk>,
    fails: Fails,
}

impl ListSource {
    /// The batches in order; the calls of `next` whose numbers are in `fail` fail.
    pub fn new(dtype: DType, batches: Vec<Chunk>, fail: Vec<u64>) -> ListSource
        ensures kind { ⟦<ListSource as BatchSource>⟧.kind result ≡ ty dtype }
        ensures batches { ⟦<ListSource as BatchSource>⟧.to_come result ≡ Some (map piece batches.items) }
        ensures left { ⟦<ListSource as BatchSource>⟧.left result ≡ length batches.items }
        ensures faults { ⟦<ListSource as Fallible>⟧.faults result ≡ 0 }
        ensures may_fail { (k : ℕ) → ⟦<ListSource as Fallible>⟧.may_fail result k → IsTrue (fails_at fail.items k) }
        ensures must_fail { (k : ℕ) → IsTrue (fails_at fail.items k) → ⟦<ListSource as Fallible>⟧.must_fail result k }
    {
        ListSource {
            dtype,
            batches: batches.into_iter(),
            fails: Fails::new(fail),
        }
    }
}

impl Fallible for ListSource {
    ghost faults = { λ s. ⟦<Fails as Fallible>⟧.faults s.fails };

    ghost may_fail = { λ s. ⟦<Fails as Fallible>⟧.may_fail s.fails };

    ghost must_fail = { λ s. ⟦<Fails as Fallible>⟧.must_fail s.fails };
}

impl BatchSource for ListSource {
    ghost kind = { λ s. ty s.dtype };

    ghost left = { λ s. length (into_iter_items s.batches) };

    ghost to_come = { λ s. Some (map piece (into_iter_items s.batches)) };

    fn dtype(&self) -> &DType {
        &self.dtype
    }

    fn next(&mut self) -> Result<Option<Chunk>, SourceError> {
        if self.fails.call() {
            return Err(SourceError::Failed);
        }
        Ok(self.batches.next())
    }
}
