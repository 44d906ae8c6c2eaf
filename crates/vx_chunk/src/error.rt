//! Why a call on chunks is refused.

use std::alloc::{AllocError, AllocFailed};
use thiserror::Error;

/// Why a call on chunks is refused.
#[derive(Debug, Drop, Error)]
pub enum ChunkError {
    /// The number of rows, of elements or of bytes that is above the greatest u64. One above the greatest u128 stands
    /// there as that.
    #[error("{0} is above the greatest u64")]
    TooLarge(u128),
    #[error("out of memory")]
    OutOfMemory,
}

impl From<AllocError> for ChunkError {
    ghost use Rattle.std.specs.Prelude.{◌≡◌};
    ghost use Rattle.vx_chunk.specs.declared.error.ChunkError.TheVariants.{OutOfMemory};

    ghost from_gives = { λ _ e. e ≡ OutOfMemory };

    fn from(_error: AllocError) -> ChunkError {
        ChunkError::OutOfMemory
    }
}

impl<T: Drop> From<AllocFailed<T>> for ChunkError {
    ghost use Rattle.std.specs.Prelude.{◌≡◌};
    ghost use Rattle.vx_chunk.specs.declared.error.ChunkError.TheVariants.{OutOfMemory};

    ghost from_gives = { λ _ e. e ≡ OutOfMemory };

    fn from(_error: AllocFailed<T>) -> ChunkError {
        ChunkError::OutOfMemory
    }
}
