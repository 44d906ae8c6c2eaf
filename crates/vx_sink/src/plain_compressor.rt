ghost use Rattle.std.specs.Prelude.{◌≡◌, ℕ, IsTrue};
ghost use Rattle.vx_fault.specs.Fails.{fails_at};
ghost use Rattle.vx_layout_spec.specs.Real.{same_rows};

use crate::compressor::{CompressError, CompressorPlugin};
use vx_chunk::Chunk;
use vx_fault::{Fails, Fallible};

/// A compressor whose image of a chunk is the chunk itself.
#[derive(Debug, Drop)]
pub struct PlainCompressor {
    fails: Fails,
}

impl PlainCompressor {
    /// The calls whose numbers are in `fail` fail.
    pub fn new(fail: Vec<u64>) -> PlainCompressor
        ensures kind { ⟦<PlainCompressor as CompressorPlugin>⟧.kind result ≡ 0 }
        ensures faults { ⟦<PlainCompressor as Fallible>⟧.faults result ≡ 0 }
        ensures may_fail { (k : ℕ) → ⟦<PlainCompressor as Fallible>⟧.may_fail result k → IsTrue (fails_at fail.items k) }
        ensures must_fail { (k : ℕ) → IsTrue (fails_at fail.items k) → ⟦<PlainCompressor as Fallible>⟧.must_fail result k }
    {
        PlainCompressor {
            fails: Fails::new(fail),
        }
    }
}

impl Fallible for PlainCompressor {
    ghost faults = { λ c. ⟦<Fails as Fallible>⟧.faults c.fails };

    ghost may_fail = { λ c. ⟦<Fails as Fallible>⟧.may_fail c.fails };

    ghost must_fail = { λ c. ⟦<Fails as Fallible>⟧.must_fail c.fails };
}

impl CompressorPlugin for PlainCompressor {
    ghost kind = { λ _. 0 };

    ghost image = { λ _ _ p. p };

    ghost keeps = { λ _ _ p whole. same_rows p whole };

    fn compress_chunk(&mut self, _which: u32, chunk: &Chunk) -> Result<Chunk, CompressError> {
        if self.fails.call() {
            return Err(CompressError::Failed);
        }
        Ok(chunk.clone()?)
    }
}
