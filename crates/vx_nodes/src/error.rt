//! Why a rule of a node refuses.

use std::alloc::{AllocError, AllocFailed};
use thiserror::Error;
use vx_chunk::ChunkError;
use vx_model::FieldName;
use vx_split::SplitError;
use vx_zone_guard::GuardError;

/// Why there is no rule for a type, or why a rule refuses a chunk. The errors of the rules become this one.
#[derive(Debug, Drop, Error)]
pub enum NodeError {
    /// The type isn't a struct. Of `ColumnSplit::new` alone.
    #[error("the type is not a struct")]
    NotStruct,
    /// The first name of a field that equals one before it. Of `ColumnSplit::new` alone.
    #[error("a field is there twice")]
    DuplicateField(FieldName),
    /// The rows of a chunk that makes no zone. Of `ZoneGuard` alone.
    #[error("a chunk of {0} rows makes no zone")]
    ZoneCut(u64),
    /// The number of rows, bytes, elements or runs that is above the greatest u64. One above the greatest u128 stands
    /// there as that.
    #[error("{0} is above the greatest u64")]
    TooLarge(u128),
    #[error("out of memory")]
    OutOfMemory,
}

impl From<AllocError> for NodeError {
    ghost use Rattle.std.specs.Prelude.{◌≡◌};
    ghost use Rattle.vx_nodes.specs.declared.error.NodeError.TheVariants.{OutOfMemory};

    ghost from_gives = { λ _ e. e ≡ OutOfMemory };

    fn from(_error: AllocError) -> NodeError {
        NodeError::OutOfMemory
    }
}

impl<T: Drop> From<AllocFailed<T>> for NodeError {
    ghost use Rattle.std.specs.Prelude.{◌≡◌};
    ghost use Rattle.vx_nodes.specs.declared.error.NodeError.TheVariants.{OutOfMemory};

    ghost from_gives = { λ _ e. e ≡ OutOfMemory };

    fn from(_error: AllocFailed<T>) -> NodeError {
        NodeError::OutOfMemory
    }
}

impl From<ChunkError> for NodeError {
    ghost use Rattle.std.specs.Prelude.{◌≡◌};
    ghost use Rattle.vx_nodes.specs.Joined.{of_chunk};

    ghost from_gives = { λ c e. e ≡ of_chunk c };

    fn from(error: ChunkError) -> NodeError {
        match error {
            ChunkError::TooLarge(n) => NodeError::TooLarge(n),
            ChunkError::OutOfMemory => NodeError::OutOfMemory,
        }
    }
}

impl From<SplitError> for NodeError {
    ghost use Rattle.std.specs.Prelude.{◌≡◌};
    ghost use Rattle.vx_nodes.specs.Joined.{of_split};

    ghost from_gives = { λ c e. e ≡ of_split c };

    fn from(error: SplitError) -> NodeError {
        match error {
            SplitError::NotStruct => NodeError::NotStruct,
            SplitError::DuplicateField(name) => NodeError::DuplicateField(name),
            SplitError::TooLarge(n) => NodeError::TooLarge(n),
            SplitError::OutOfMemory => NodeError::OutOfMemory,
        }
    }
}

impl From<GuardError> for NodeError {
    ghost use Rattle.std.specs.Prelude.{◌≡◌};
    ghost use Rattle.vx_nodes.specs.Joined.{of_guard};

    ghost from_gives = { λ c e. e ≡ of_guard c };

    fn from(error: GuardError) -> NodeError {
        match error {
            GuardError::ZoneCut(rows) => NodeError::ZoneCut(rows),
            GuardError::OutOfMemory => NodeError::OutOfMemory,
        }
    }
}
