ghost use Rattle.std.specs.Prelude.{◌≡◌, ℕ, IfOk};
ghost use Rattle.vx_model.specs.ChunkData.{ChunkData};
ghost use Rattle.vx_layout_spec.specs.Real.{Whole, SameRows};
ghost use Rattle.vx_chunk.specs.ChunkView.{piece};
ghost use Rattle.vx_fault.specs.Faults.{Called};
ghost use Rattle.vx_sink.specs.Compressor.{compress_failed};

use std::alloc::{AllocError, AllocFailed};
use thiserror::Error;
use vx_chunk::Chunk;
use vx_fault::Fallible;

/// Why a compressor gave no chunk.
#[derive(Debug, Drop, Error)]
pub enum CompressError {
    /// The compressor failed; its count of faults says so.
    #[error("the compressor failed")]
    Failed,
    #[error("out of memory")]
    OutOfMemory,
}

impl From<AllocError> for CompressError {
    ghost use Rattle.std.specs.Prelude.{◌≡◌};
    ghost use Rattle.vx_sink.specs.declared.compressor.CompressError.TheVariants.{OutOfMemory};

    ghost from_gives = { λ _ e. e ≡ OutOfMemory };

    fn from(_error: AllocError) -> CompressError {
        CompressError::OutOfMemory
    }
}

impl<T: Drop> From<AllocFailed<T>> for CompressError {
    ghost use Rattle.std.specs.Prelude.{◌≡◌};
    ghost use Rattle.vx_sink.specs.declared.compressor.CompressError.TheVariants.{OutOfMemory};

    ghost from_gives = { λ _ e. e ≡ OutOfMemory };

    fn from(_error: AllocFailed<T>) -> CompressError {
        CompressError::OutOfMemory
    }
}

/// Gives chunks of the same rows in another encoding, by the number of the compressor that is asked for.
pub trait CompressorPlugin: Fallible {
    /// What kind of compressor it is, which no call changes.
    ghost kind: { Self → ℕ };

    /// What a kind makes, under a number, of a chunk.
    ghost image: { ℕ → ℕ → ChunkData → ChunkData };

    /// The chunk's image under the number.
    fn compress_chunk(&mut self, which: u32, chunk: &Chunk) -> Result<Chunk, CompressError>
        ensures kind { kind self.new ≡ kind self.old }
        ensures image { IfOk result (λ c. piece c ≡ image (kind self.old) which (piece chunk.now)) }
        ensures told { Called (Self.faults self.old) (Self.faults self.new) (Self.may_fail self.old) (Self.may_fail self.new)
            (Self.must_fail self.old) (Self.must_fail self.new) (compress_failed result) };

    /// The image of a whole chunk is a whole chunk of the same type and row values.
    ghost keeps: { (k which : ℕ) (p : ChunkData) → Whole p → SameRows p (image k which p) };
}
