//! The generated table as a source.

ghost use Rattle.std.specs.Prelude.{◌≡◌, ℕ, ◌+◌, ◌-◌, ◌≤◌, ◌^◌, min, Some, IfOk, IsTrue};
ghost use Rattle.vx_model.specs.Ty.{ty_eq};
ghost use Rattle.vx_model.specs.TyView.{ty};
ghost use Rattle.vx_model.specs.ChunkData.{plain_piece};
ghost use Rattle.vx_generator.specs.Generated.{table_type, rows_from, batch_count, batches_from, table_batches};

use crate::row::{dtype, rows};
use std::alloc::{AllocError, Global};
use vx_chunk::Chunk;
use vx_fault::Fallible;
use vx_model::DType;
use vx_sink::{BatchSource, SourceError};

/// A batch has so many rows, the last one what is left.
const BATCH_ROWS: u32 = 1000;

/// A source of the generated table's batches. It holds none of them, and makes each as it is asked for. No call fails,
/// unless memory runs out.
#[derive(Drop)]
pub struct GeneratedSource {
    alloc: Global,
    dtype: DType,
    next: u32,
    end: u32,
    ghost typed: { IsTrue (ty_eq (ty dtype) table_type) },
    ghost within: { next ≤ end },
}

impl GeneratedSource {
    /// The table of so many rows. It takes memory for the type alone, and refuses only for want of it.
    pub fn new(alloc: Global, rows: u32) -> Result<GeneratedSource, AllocError>
        ensures kind { IfOk result (λ s. ⟦<GeneratedSource as BatchSource>⟧.kind s ≡ table_type) }
        ensures batches { IfOk result (λ s. ⟦<GeneratedSource as BatchSource>⟧.to_come s ≡ Some (table_batches rows)) }
        ensures left { IfOk result (λ s. ⟦<GeneratedSource as BatchSource>⟧.left s ≡ batch_count rows) }
        ensures faults { IfOk result (λ s. ⟦<GeneratedSource as Fallible>⟧.faults s ≡ 0) }
        ensures may_fail { IfOk result (λ s. (k : ℕ) → ¬ ⟦<GeneratedSource as Fallible>⟧.may_fail s k) }
    {
        let dtype = dtype(alloc)?;
        Ok(GeneratedSource {
            alloc,
            dtype,
            next: 0,
            end: rows,
        })
    }
}

impl Fallible for GeneratedSource {
    ghost faults = { λ s. 0 };

    ghost may_fail = { λ s k. ⊥ };
}

impl BatchSource for GeneratedSource {
    ghost kind = { λ s. ty s.dtype };

    ghost left = { λ s. batch_count (s.end - s.next) };

    ghost to_come = { λ s. Some (batches_from (ty s.dtype) (batch_count (s.end - s.next)) s.next s.end) };

    fn dtype(&self) -> &DType {
        &self.dtype
    }

    fn next(&mut self) -> Result<Option<Chunk>, SourceError> {
        let count = batch_len(self.end - self.next);
        if count == 0 {
            return Ok(None);
        }
        match batch(self.alloc, &self.dtype, self.next, count) {
            Ok(chunk) => {
                self.next += count;
                Ok(Some(chunk))
            }
            Err(AllocError) => Err(SourceError::OutOfMemory),
        }
    }
}

/// How many rows the next batch has, where so many are left.
fn batch_len(left: u32) -> u32
    ensures { result ≡ min 1000 left }
{
    if left < BATCH_ROWS { left } else { BATCH_ROWS }
}

/// So many rows of the table, from one on.
fn batch(alloc: Global, dtype: &DType, first: u32, count: u32) -> Result<Chunk, AllocError>
    requires typed { IsTrue (ty_eq (ty dtype.now) table_type) }
    requires within { first + count ≤ 2 ^ 32 - 1 }
    ensures { IfOk result (λ c. c ≡ plain_piece (ty dtype.now) (rows_from first count)) }
{
    let dtype = dtype.clone()?;
    Ok(Chunk::plain(dtype, rows(alloc, first, count)?))
}
