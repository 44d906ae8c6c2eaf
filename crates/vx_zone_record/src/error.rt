//! Why there is no record.

use std::alloc::AllocError;
use thiserror::Error;

/// Why there is no record.
#[derive(Debug, Drop, Error)]
pub enum RecordError {
    #[error("out of memory")]
    OutOfMemory,
}

impl From<AllocError> for RecordError {
    ghost use Rattle.std.specs.Prelude.{◌≡◌};
    ghost use Rattle.vx_zone_record.specs.declared.error.RecordError.TheVariants.{OutOfMemory};

    ghost from_gives = { λ _ e. e ≡ OutOfMemory };

    fn from(_error: AllocError) -> RecordError {
        RecordError::OutOfMemory
    }
}
