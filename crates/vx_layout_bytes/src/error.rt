use std::alloc::{AllocError, AllocFailed};
use thiserror::Error;

/// Why bytes are no node within the limits: the first fault in reading order. The place is a number of bytes.
#[derive(Debug, Drop, Error)]
pub enum GrammarError {
    /// The first field that isn't whole starts here, or the bytes go on here behind the root node.
    #[error("no layout at byte {0}")]
    Grammar(u64),
    /// A node that is deeper than the limit starts here.
    #[error("too deep at byte {0}")]
    TooDeep(u64),
    /// The first node past the limit starts here.
    #[error("too many nodes at byte {0}")]
    TooManyNodes(u64),
    #[error("out of memory")]
    OutOfMemory,
}

impl From<AllocError> for GrammarError {
    ghost use Rattle.std.specs.Prelude.{◌≡◌};
    ghost use Rattle.vx_layout_bytes.specs.declared.error.GrammarError.TheVariants.{OutOfMemory};

    ghost from_gives = { λ _ e. e ≡ OutOfMemory };

    fn from(_error: AllocError) -> GrammarError {
        GrammarError::OutOfMemory
    }
}

impl<T: Drop> From<AllocFailed<T>> for GrammarError {
    ghost use Rattle.std.specs.Prelude.{◌≡◌};
    ghost use Rattle.vx_layout_bytes.specs.declared.error.GrammarError.TheVariants.{OutOfMemory};

    ghost from_gives = { λ _ e. e ≡ OutOfMemory };

    fn from(_error: AllocFailed<T>) -> GrammarError {
        GrammarError::OutOfMemory
    }
}
