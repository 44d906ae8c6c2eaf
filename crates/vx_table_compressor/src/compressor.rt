//! The compressor.

ghost use Rattle.std.specs.Prelude.{◌≡◌, ℕ, IsTrue};
ghost use Rattle.vx_fault.specs.Fails.{fails_at};
ghost use Rattle.vx_compressor_spec.specs.TableImage.{table_image};
ghost use Rattle.vx_table_compressor.specs.Keeps.{images_keep_rows};

use crate::image::image;
use std::alloc::Global;
use vx_chunk::Chunk;
use vx_fault::{Fails, Fallible};
use vx_sink::{CompressError, CompressorPlugin};

/// A compressor by a table of images: under number 1 a constant, a dictionary or the plain chunk, the first that fits
/// the rows; under 2 a dictionary, where the type has one; under any other number the plain chunk.
#[derive(Debug, Drop)]
pub struct TableCompressor {
    alloc: Global,
    fails: Fails,
}

impl TableCompressor {
    /// The calls whose numbers are in `fail` fail.
    pub fn new(fail: Vec<u64>) -> TableCompressor
        ensures kind { ⟦<TableCompressor as CompressorPlugin>⟧.kind result ≡ 0 }
        ensures faults { ⟦<TableCompressor as Fallible>⟧.faults result ≡ 0 }
        ensures may_fail { (k : ℕ) → ⟦<TableCompressor as Fallible>⟧.may_fail result k → IsTrue (fails_at fail.items k) }
        ensures must_fail { (k : ℕ) → IsTrue (fails_at fail.items k) → ⟦<TableCompressor as Fallible>⟧.must_fail result k }
    {
        TableCompressor {
            alloc: *fail.allocator(),
            fails: Fails::new(fail),
        }
    }
}

impl Fallible for TableCompressor {
    ghost faults = { λ c. ⟦<Fails as Fallible>⟧.faults c.fails };

    ghost may_fail = { λ c. ⟦<Fails as Fallible>⟧.may_fail c.fails };

    ghost must_fail = { λ c. ⟦<Fails as Fallible>⟧.must_fail c.fails };
}

impl CompressorPlugin for TableCompressor {
    ghost kind = { λ _. 0 };

    ghost image = { λ _ which p. table_image which p };

    ghost keeps = { λ _ which p whole. images_keep_rows which p whole };

    /// Takes time by the rows, of a chunk that is a constant and stays one that of a copy. Rows that are held as a column
    /// are looked at where they are, others are copied first; of a dictionary's the distinct ones alone are copied.
    fn compress_chunk(&mut self, which: u32, chunk: &Chunk) -> Result<Chunk, CompressError> {
        if self.fails.call() {
            return Err(CompressError::Failed);
        }
        Ok(image(self.alloc, which, chunk)?)
    }
}
