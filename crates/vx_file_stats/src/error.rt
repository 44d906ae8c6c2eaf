//! Why statistics aren't gathered.

use std::alloc::AllocError;
use thiserror::Error;

/// Why statistics of a source's batches aren't gathered.
#[derive(Debug, Drop, Error)]
pub enum StatsError {
    /// The batches are nullable structs.
    #[error("the type is a nullable struct")]
    NullableStruct,
    #[error("out of memory")]
    OutOfMemory,
}

impl From<AllocError> for StatsError {
    ghost use Rattle.std.specs.Prelude.{◌≡◌};
    ghost use Rattle.vx_file_stats.specs.declared.error.StatsError.TheVariants.{OutOfMemory};

    ghost from_gives = { λ _ e. e ≡ OutOfMemory };

    fn from(_error: AllocError) -> StatsError {
        StatsError::OutOfMemory
    }
}
