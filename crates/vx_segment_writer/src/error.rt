//! Why a chunk has no segment.

use std::alloc::{AllocError, AllocFailed};
use thiserror::Error;
use vx_model::EncodingId;

/// Why a chunk has no segment.
#[derive(Debug, Drop, Error)]
pub enum EncodeError {
    /// The chunk's first encoding in pre-order that the context doesn't list.
    #[error("{0:?} is not in the array context")]
    EncodingNotListed(EncodingId),
    #[error("out of memory")]
    OutOfMemory,
}

impl From<AllocError> for EncodeError {
    ghost use Rattle.std.specs.Prelude.{◌≡◌};
    ghost use Rattle.vx_segment_writer.specs.declared.error.EncodeError.TheVariants.{OutOfMemory};

    ghost from_gives = { λ _ e. e ≡ OutOfMemory };

    fn from(_error: AllocError) -> EncodeError {
        EncodeError::OutOfMemory
    }
}

impl<T: Drop> From<AllocFailed<T>> for EncodeError {
    ghost use Rattle.std.specs.Prelude.{◌≡◌};
    ghost use Rattle.vx_segment_writer.specs.declared.error.EncodeError.TheVariants.{OutOfMemory};

    ghost from_gives = { λ _ e. e ≡ OutOfMemory };

    fn from(_error: AllocFailed<T>) -> EncodeError {
        EncodeError::OutOfMemory
    }
}
