use std::alloc::{AllocError, AllocFailed};
use thiserror::Error;
use vx_field_path::FieldPath;

/// Why no strategy was made.
#[derive(Debug, Drop, Error)]
pub enum BuildError {
    #[error("a block has no rows")]
    ZeroBlockLen,
    #[error("no chunk may wait")]
    ZeroConcurrency,
    /// A zone's rows are none or pass u32: this number.
    #[error("a zone of {0} rows")]
    ZoneLength(u64),
    #[error("an override of the root")]
    RootPath,
    /// The first standing path that overlaps, and the new one. Equal paths overlap.
    #[error("two overrides overlap")]
    OverlappingPath(FieldPath, FieldPath),
    #[error("out of memory")]
    OutOfMemory,
}

impl From<AllocError> for BuildError {
    ghost use Rattle.std.specs.Prelude.{◌≡◌};
    ghost use Rattle.vx_strategy_options.specs.declared.error.BuildError.TheVariants.{OutOfMemory};

    ghost from_gives = { λ _ e. e ≡ OutOfMemory };

    fn from(_error: AllocError) -> BuildError {
        BuildError::OutOfMemory
    }
}

impl<T: Drop> From<AllocFailed<T>> for BuildError {
    ghost use Rattle.std.specs.Prelude.{◌≡◌};
    ghost use Rattle.vx_strategy_options.specs.declared.error.BuildError.TheVariants.{OutOfMemory};

    ghost from_gives = { λ _ e. e ≡ OutOfMemory };

    fn from(_error: AllocFailed<T>) -> BuildError {
        BuildError::OutOfMemory
    }
}
