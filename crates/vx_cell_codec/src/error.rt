use std::alloc::{AllocError, AllocFailed};
use thiserror::Error;

/// Why bytes give no cells.
#[derive(Debug, Drop, Error)]
pub enum CellError {
    /// The bytes are not the spelling of so many cells of the type.
    #[error("no cells of the type")]
    NoCells,
    #[error("out of memory")]
    OutOfMemory,
}

impl From<AllocError> for CellError {
    ghost use Rattle.std.specs.Prelude.{◌≡◌};
    ghost use Rattle.vx_cell_codec.specs.declared.error.CellError.TheVariants.{OutOfMemory};

    ghost from_gives = { λ _ e. e ≡ OutOfMemory };

    fn from(_error: AllocError) -> CellError {
        CellError::OutOfMemory
    }
}

impl<T: Drop> From<AllocFailed<T>> for CellError {
    ghost use Rattle.std.specs.Prelude.{◌≡◌};
    ghost use Rattle.vx_cell_codec.specs.declared.error.CellError.TheVariants.{OutOfMemory};

    ghost from_gives = { λ _ e. e ≡ OutOfMemory };

    fn from(_error: AllocFailed<T>) -> CellError {
        CellError::OutOfMemory
    }
}
