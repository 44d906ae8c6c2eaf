use std::alloc::{AllocError, AllocFailed};
use thiserror::Error;

/// Why a JSON value gives nothing.
#[derive(Debug, Drop, Error)]
pub enum JsonError {
    /// The value isn't of the form, or what it says breaks a condition.
    #[error("wrong value")]
    Wrong,
    #[error("out of memory")]
    OutOfMemory,
}

impl From<AllocError> for JsonError {
    ghost use Rattle.std.specs.Prelude.{◌≡◌};
    ghost use Rattle.vx_json.specs.declared.error.JsonError.TheVariants.{OutOfMemory};

    ghost from_gives = { λ _ e. e ≡ OutOfMemory };

    fn from(_error: AllocError) -> JsonError {
        JsonError::OutOfMemory
    }
}

impl<T: Drop> From<AllocFailed<T>> for JsonError {
    ghost use Rattle.std.specs.Prelude.{◌≡◌};
    ghost use Rattle.vx_json.specs.declared.error.JsonError.TheVariants.{OutOfMemory};

    ghost from_gives = { λ _ e. e ≡ OutOfMemory };

    fn from(_error: AllocFailed<T>) -> JsonError {
        JsonError::OutOfMemory
    }
}
