use std::alloc::{AllocError, AllocFailed};
use thiserror::Error;

/// Why bytes are no chunk of the type: the first fault.
#[derive(Debug, Drop, Error)]
pub enum DecodeError {
    /// The bytes are no segment. The place of the field, the byte or the buffer at fault, from the first byte on.
    #[error("no segment at byte {0}")]
    Grammar(u64),
    /// A node isn't one of the type. Its number in pre-order, from 0.
    #[error("node {0} does not fit the type")]
    BadType(u64),
    #[error("out of memory")]
    OutOfMemory,
}

impl From<AllocError> for DecodeError {
    ghost use Rattle.std.specs.Prelude.{◌≡◌};
    ghost use Rattle.vx_segment_reader.specs.declared.error.DecodeError.TheVariants.{OutOfMemory};

    ghost from_gives = { λ _ e. e ≡ OutOfMemory };

    fn from(_error: AllocError) -> DecodeError {
        DecodeError::OutOfMemory
    }
}

impl<T: Drop> From<AllocFailed<T>> for DecodeError {
    ghost use Rattle.std.specs.Prelude.{◌≡◌};
    ghost use Rattle.vx_segment_reader.specs.declared.error.DecodeError.TheVariants.{OutOfMemory};

    ghost from_gives = { λ _ e. e ≡ OutOfMemory };

    fn from(_error: AllocFailed<T>) -> DecodeError {
        DecodeError::OutOfMemory
    }
}
