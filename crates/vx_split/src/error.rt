//! Why a splitter refuses.

use std::alloc::{AllocError, AllocFailed};
use thiserror::Error;
use vx_chunk::ChunkError;
use vx_model::FieldName;

/// Why there is no splitter for a type, or why a splitter refuses a chunk.
#[derive(Debug, Drop, Error)]
pub enum SplitError {
    /// The type isn't a struct.
    #[error("the type is not a struct")]
    NotStruct,
    /// The first name of a field that equals one before it.
    #[error("a field is there twice")]
    DuplicateField(FieldName),
    /// The elements of all lists up to the chunk's end, which are more than the greatest u64. More than the greatest
    /// u128 stand there as that.
    #[error("{0} is above the greatest u64")]
    TooLarge(u128),
    #[error("out of memory")]
    OutOfMemory,
}

impl From<AllocError> for SplitError {
    ghost use Rattle.std.specs.Prelude.{◌≡◌};
    ghost use Rattle.vx_split.specs.declared.error.SplitError.TheVariants.{OutOfMemory};

    ghost from_gives = { λ _ e. e ≡ OutOfMemory };

    fn from(_error: AllocError) -> SplitError {
        SplitError::OutOfMemory
    }
}

impl<T: Drop> From<AllocFailed<T>> for SplitError {
    ghost use Rattle.std.specs.Prelude.{◌≡◌};
    ghost use Rattle.vx_split.specs.declared.error.SplitError.TheVariants.{OutOfMemory};

    ghost from_gives = { λ _ e. e ≡ OutOfMemory };

    fn from(_error: AllocFailed<T>) -> SplitError {
        SplitError::OutOfMemory
    }
}

impl From<ChunkError> for SplitError {
    ghost use Rattle.std.specs.Prelude.{◌≡◌};
    ghost use Rattle.vx_split.specs.Causes.{of_chunk};

    ghost from_gives = { λ c e. e ≡ of_chunk c };

    fn from(error: ChunkError) -> SplitError {
        match error {
            ChunkError::TooLarge(n) => SplitError::TooLarge(n),
            ChunkError::OutOfMemory => SplitError::OutOfMemory,
        }
    }
}
