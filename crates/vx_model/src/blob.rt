ghost use Rattle.std.specs.Prelude.{◌≡◌, ℕ, List, IfOk};

use std::alloc::{AllocError, Global};
use std::marker::Model;

/// A string of bytes.
#[derive(Debug, Drop)]
pub struct Blob {
    inner: Vec<u8>,
}

impl Model for Blob {
    ghost Value = { List ℕ };

    ghost view = { λ b. b.inner.items };
}

impl Blob {
    /// A copy of the bytes.
    pub fn from_slice(alloc: Global, bytes: &[u8]) -> Result<Blob, AllocError>
        ensures { IfOk result (λ b. b ≡ bytes.now) }
    {
        Ok(Blob {
            inner: Vec::from_slice(alloc, bytes)?,
        })
    }

    /// The bytes.
    pub fn as_slice(&self) -> &[u8]
        ensures { result.now ≡ self.now }
    {
        self.inner.as_slice()
    }
}

impl From<Vec<u8>> for Blob {
    ghost from_gives = { λ v b. b ≡ v.items };

    fn from(inner: Vec<u8>) -> Blob {
        Blob { inner }
    }
}

impl Clone for Blob {
    ghost is_clone = { λ b copy. copy ≡ b };

    fn clone(&self) -> Result<Blob, AllocError> {
        Ok(Blob {
            inner: Vec::from_slice(*self.inner.allocator(), self.inner.as_slice())?,
        })
    }
}
