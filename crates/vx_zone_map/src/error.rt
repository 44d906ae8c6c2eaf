//! Why a zone map isn't made or doesn't answer.

use std::alloc::{AllocError, AllocFailed};
use thiserror::Error;

/// Why a zone map isn't made or doesn't answer.
#[derive(Debug, Drop, Error)]
pub enum ZoneError {
    /// The table hasn't the type of a zone table of the column and the aggregates.
    #[error("the table is of another type")]
    TableType,
    /// The zones before the last one have more rows than the column.
    #[error("the zones have more rows than the column")]
    ZoneRows,
    /// A comparison of a type whose values aren't compared, or with what isn't a value of the type, or is null.
    #[error("a comparison with no value of the column's type")]
    PredicateType,
    #[error("out of memory")]
    OutOfMemory,
}

impl From<AllocError> for ZoneError {
    ghost use Rattle.std.specs.Prelude.{◌≡◌};
    ghost use Rattle.vx_zone_map.specs.declared.error.ZoneError.TheVariants.{OutOfMemory};

    ghost from_gives = { λ _ e. e ≡ OutOfMemory };

    fn from(_error: AllocError) -> ZoneError {
        ZoneError::OutOfMemory
    }
}

impl<T: Drop> From<AllocFailed<T>> for ZoneError {
    ghost use Rattle.std.specs.Prelude.{◌≡◌};
    ghost use Rattle.vx_zone_map.specs.declared.error.ZoneError.TheVariants.{OutOfMemory};

    ghost from_gives = { λ _ e. e ≡ OutOfMemory };

    fn from(_error: AllocFailed<T>) -> ZoneError {
        ZoneError::OutOfMemory
    }
}
