ghost use Rattle.std.specs.Prelude.{◌≡◌, ℕ, ◌≤◌, ◌^◌, List, Option, IfOk};
ghost use Rattle.std.specs.Io.{ReadsAtMost};
ghost use Rattle.std.specs.Io.KnownBytes.{ReadConsumes};
ghost use Rattle.vx_fault.specs.Faults.{Called};
ghost use Rattle.vx_run.specs.Failures.{input_failed};

use thiserror::Error;
use vx_fault::Fallible;

/// Why no bytes were read.
#[derive(Debug, Drop, Error)]
pub enum InputFailure {
    /// The input failed; its count of faults says so.
    #[error("the input failed")]
    Failed,
    #[error("out of memory")]
    OutOfMemory,
}

/// Bytes that are read in order.
pub trait Input: Fallible {
    /// The bytes to come, where the input tells them.
    ghost to_come: { Self → Option (List ℕ) };

    /// The most bytes that a call gives, which no call changes.
    ghost most: { Self → ℕ } = { λ _. 2 ^ 64 };

    /// Reads the next bytes into the front of the buffer, and gives their number: 0, for a buffer that has room,
    /// at the end alone.
    fn read(&mut self, buf: &mut [u8]) -> Result<u64, InputFailure>
        ensures bound { ReadsAtMost result buf.new }
        ensures bytes { ReadConsumes (to_come self.old) (to_come self.new) result buf.new }
        ensures few { IfOk result (λ n. n ≤ most self.old) }
        ensures most { most self.new ≡ most self.old }
        ensures told { Called (Self.faults self.old) (Self.faults self.new) (Self.may_fail self.old) (Self.may_fail self.new)
            (Self.must_fail self.old) (Self.must_fail self.new) (input_failed result) };
}
