//! An output that keeps what it was given first.

ghost use Rattle.std.specs.Prelude.{◌≡◌, ◌≤◌, ◌++◌, [], take};

use vx_fault::Fallible;
use vx_run::{Output, OutputFailure};

const LEN: usize = 64;

/// Passes on what it is given, and keeps the first 64 bytes that were taken.
#[derive(Drop)]
pub struct Front<O: Output> {
    inner: O,
    kept: [u8; LEN],
    len: usize,
    ghost within: { len ≤ 64 },
}

impl<O: Output> Front<O> {
    /// Nothing is kept before the first call.
    pub fn new(inner: O) -> Front<O>
        ensures inner { result.inner ≡ inner }
        ensures front { take result.len result.kept ≡ [] }
    {
        Front {
            inner,
            kept: [0; LEN],
            len: 0,
        }
    }

    /// The first bytes that were taken.
    pub fn front(&self) -> &[u8]
        ensures { result.now ≡ take self.now.len self.now.kept }
    {
        &self.kept[..self.len]
    }

    /// Adds bytes behind those that are kept, as far as there is room.
    #[tactic(auto, using(crate::proofs::Kept::kept_more))]
    fn keep(&mut self, bytes: &[u8])
        ensures inner { self.new.inner ≡ self.old.inner }
        ensures front { take self.new.len self.new.kept ≡ take 64 (take self.old.len self.old.kept ++ bytes.now) }
    {
        let count = bytes.len().min(LEN - self.len);
        let end = self.len + count;
        self.kept[self.len..end].copy_from_slice(&bytes[..count]);
        self.len = end;
    }
}

impl<O: Output> Fallible for Front<O> {
    ghost faults = { λ s. O.faults s.inner };

    ghost may_fail = { λ s k. O.may_fail s.inner k };

    ghost must_fail = { λ s k. O.must_fail s.inner k };
}

impl<O: Output> Output for Front<O> {
    ghost written = { λ s. O.written s.inner };

    ghost most = { λ s. O.most s.inner };

    fn write(&mut self, bytes: &[u8]) -> Result<u64, OutputFailure> {
        let count = self.inner.write(bytes)?;
        self.keep(&bytes[..count as usize]);
        Ok(count)
    }
}
