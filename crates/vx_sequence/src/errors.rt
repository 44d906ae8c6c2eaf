//! Why a call on an id or a pointer was refused.
ghost use Rattle.std.specs.Prelude.{◌≡◌};
ghost use Rattle.vx_sequence.specs.declared.errors.SequenceError.TheVariants.{OutOfMemory};

use std::alloc::{AllocError, AllocFailed};
use thiserror::Error;

/// Why a call on an id or a pointer was refused. After it the universe is as before.
#[derive(Debug, Drop, Error)]
pub enum SequenceError {
    /// The pointer's last index is the greatest u64, so that it has no next sibling.
    #[error("the last index of the path is the greatest one")]
    IndexFull,
    /// Memory ran out.
    #[error("out of memory")]
    OutOfMemory,
}

impl From<AllocError> for SequenceError {
    ghost from_gives = { λ _ e. e ≡ OutOfMemory };

    fn from(_error: AllocError) -> Self {
        SequenceError::OutOfMemory
    }
}

impl<T: Drop> From<AllocFailed<T>> for SequenceError {
    ghost from_gives = { λ _ e. e ≡ OutOfMemory };

    fn from(_error: AllocFailed<T>) -> Self {
        SequenceError::OutOfMemory
    }
}
