//! Inputs and outputs in memory.

ghost use Rattle.std.specs.Prelude.{◌≡◌, ℕ, ◌<◌, ◌≤◌, Some, [], drop, length, IsTrue};
ghost use Rattle.vx_fault.specs.Fails.{fails_at};

use crate::input::{Input, InputFailure};
use crate::output::{Output, OutputFailure};
use vx_fault::{Fails, Fallible};

/// Bytes in memory, at most so many a call.
#[derive(Debug, Drop)]
pub struct ByteInput {
    bytes: Vec<u8>,
    at: usize,
    most: u64,
    fails: Fails,
    ghost within: { at ≤ length bytes.items },
    ghost moves: { 0 < most },
}

impl ByteInput {
    /// Gives at most `most` bytes a call; the calls whose numbers are in `fail` fail.
    pub fn new(bytes: Vec<u8>, most: u64, fail: Vec<u64>) -> ByteInput
        requires { 0 < most }
        ensures to_come { ⟦<ByteInput as Input>⟧.to_come result ≡ Some bytes.items }
        ensures faults { ⟦<ByteInput as Fallible>⟧.faults result ≡ 0 }
        ensures may_fail { (k : ℕ) → ⟦<ByteInput as Fallible>⟧.may_fail result k → IsTrue (fails_at fail.items k) }
        ensures must_fail { (k : ℕ) → IsTrue (fails_at fail.items k) → ⟦<ByteInput as Fallible>⟧.must_fail result k }
        ensures most { ⟦<ByteInput as Input>⟧.most result ≡ most }
    {
        ByteInput {
            bytes,
            at: 0,
            most,
            fails: Fails::new(fail),
        }
    }
}

impl Fallible for ByteInput {
    ghost faults = { λ s. ⟦<Fails as Fallible>⟧.faults s.fails };

    ghost may_fail = { λ s. ⟦<Fails as Fallible>⟧.may_fail s.fails };

    ghost must_fail = { λ s. ⟦<Fails as Fallible>⟧.must_fail s.fails };
}

impl Input for ByteInput {
    ghost to_come = { λ s. Some (drop s.at s.bytes.items) };

    ghost most = { λ s. s.most };

    #[tactic(auto, using(crate::proofs::RunSteps::read_front, crate::proofs::RunSteps::at_end))]
    fn read(&mut self, buf: &mut [u8]) -> Result<u64, InputFailure> {
        if self.fails.call() {
            return Err(InputFailure::Failed);
        }
        let rest = self.bytes.as_slice().split_at(self.at).1;
        let most = usize::try_from(self.most).unwrap_or(usize::MAX);
        let count = rest.len().min(most).min(buf.len());
        let front = rest.split_at(count).0;
        buf[..count].copy_from_slice(front);
        self.at += count;
        Ok(count as u64)
    }
}

/// Takes bytes into memory, at most so many a call.
#[derive(Debug, Drop)]
pub struct ByteOutput {
    written: Vec<u8>,
    most: u64,
    fails: Fails,
    ghost moves: { 0 < most },
}

impl ByteOutput {
    /// Takes at most `most` bytes a call; the calls whose numbers are in `fail` fail.
    pub fn new(most: u64, fail: Vec<u64>) -> ByteOutput
        requires { 0 < most }
        ensures written { ⟦<ByteOutput as Output>⟧.written result ≡ Some [] }
        ensures faults { ⟦<ByteOutput as Fallible>⟧.faults result ≡ 0 }
        ensures may_fail { (k : ℕ) → ⟦<ByteOutput as Fallible>⟧.may_fail result k → IsTrue (fails_at fail.items k) }
        ensures must_fail { (k : ℕ) → IsTrue (fails_at fail.items k) → ⟦<ByteOutput as Fallible>⟧.must_fail result k }
        ensures most { ⟦<ByteOutput as Output>⟧.most result ≡ most }
    {
        let written = Vec::new(*fail.allocator());
        ByteOutput {
            written,
            most,
            fails: Fails::new(fail),
        }
    }

    /// What was written.
    pub fn bytes(&self) -> &[u8]
        ensures { ⟦<ByteOutput as Output>⟧.written self.now ≡ Some result.now }
    {
        self.written.as_slice()
    }
}

impl Fallible for ByteOutput {
    ghost faults = { λ s. ⟦<Fails as Fallible>⟧.faults s.fails };

    ghost may_fail = { λ s. ⟦<Fails as Fallible>⟧.may_fail s.fails };

    ghost must_fail = { λ s. ⟦<Fails as Fallible>⟧.must_fail s.fails };
}

impl Output for ByteOutput {
    ghost written = { λ s. Some s.written.items };

    ghost most = { λ s. s.most };

    fn write(&mut self, bytes: &[u8]) -> Result<u64, OutputFailure> {
        if self.fails.call() {
            return Err(OutputFailure::Failed);
        }
        let most = usize::try_from(self.most).unwrap_or(usize::MAX);
        let count = bytes.len().min(most);
        match self.written.extend_from_slice(&bytes[..count]) {
            Ok(()) => Ok(count as u64),
            Err(_) => Err(OutputFailure::OutOfMemory),
        }
    }
}
