ghost use Rattle.vx_metadata.specs.Views.{Refuses};

use std::alloc::{AllocError, Global};
use thiserror::Error;
use vx_model::Blob;

/// Why bytes are no metadata of a kind.
#[derive(Debug, Drop, Error)]
pub enum MetadataError {
    /// No value of the kind has these bytes.
    #[error("no metadata of the kind")]
    Metadata(Blob),
    #[error("out of memory")]
    OutOfMemory,
}

impl From<AllocError> for MetadataError {
    ghost use Rattle.std.specs.Prelude.{◌≡◌};
    ghost use Rattle.vx_metadata.specs.declared.error.MetadataError.TheVariants.{OutOfMemory};

    ghost from_gives = { λ _ e. e ≡ OutOfMemory };

    fn from(_error: AllocError) -> MetadataError {
        MetadataError::OutOfMemory
    }
}

/// The refusal of the bytes, with a copy of them.
pub(crate) fn refused(alloc: Global, bytes: &[u8]) -> MetadataError
    ensures { Refuses bytes.now result }
{
    match Blob::from_slice(alloc, bytes) {
        Ok(kept) => MetadataError::Metadata(kept),
        Err(_) => MetadataError::OutOfMemory,
    }
}
