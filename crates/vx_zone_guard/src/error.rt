//! Why a guard of zones refuses a chunk.

use std::alloc::AllocError;
use thiserror::Error;
use vx_zone_record::RecordError;

/// Why a guard of zones refuses a chunk.
#[derive(Debug, Drop, Error)]
pub enum GuardError {
    /// The rows of a chunk that makes no zone: none, or more than a zone has. Of one that is shorter than a zone, once
    /// another follows.
    #[error("a chunk of {0} rows makes no zone")]
    ZoneCut(u64),
    #[error("out of memory")]
    OutOfMemory,
}

impl From<AllocError> for GuardError {
    ghost use Rattle.std.specs.Prelude.{◌≡◌};
    ghost use Rattle.vx_zone_guard.specs.declared.error.GuardError.TheVariants.{OutOfMemory};

    ghost from_gives = { λ _ e. e ≡ OutOfMemory };

    fn from(_error: AllocError) -> GuardError {
        GuardError::OutOfMemory
    }
}

impl From<RecordError> for GuardError {
    ghost use Rattle.std.specs.Prelude.{◌≡◌};
    ghost use Rattle.vx_zone_guard.specs.declared.error.GuardError.TheVariants.{OutOfMemory};

    ghost from_gives = { λ _ e. e ≡ OutOfMemory };

    fn from(_error: RecordError) -> GuardError {
        GuardError::OutOfMemory
    }
}
