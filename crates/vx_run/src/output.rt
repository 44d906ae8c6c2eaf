ghost use Rattle.std.specs.Prelude.{◌≡◌, ℕ, ◌<◌, ◌≤◌, ◌^◌, List, Option, length, IfOk};
ghost use Rattle.std.specs.Io.{WritesAtMost};
ghost use Rattle.std.specs.Io.KnownBytes.{WriteAppends};
ghost use Rattle.vx_fault.specs.Faults.{Called};
ghost use Rattle.vx_run.specs.Failures.{output_failed};

use thiserror::Error;
use vx_fault::Fallible;

/// Why no bytes were written.
#[derive(Debug, Drop, Error)]
pub enum OutputFailure {
    /// The output failed; its count of faults says so.
    #[error("the output failed")]
    Failed,
    #[error("out of memory")]
    OutOfMemory,
}

/// Takes bytes in order.
pub trait Output: Fallible {
    /// The bytes written so far, where the output tells them.
    ghost written: { Self → Option (List ℕ) };

    /// The most bytes that a call takes, which no call changes.
    ghost most: { Self → ℕ } = { λ _. 2 ^ 64 };

    /// Writes bytes from the front of the piece, and gives their number: at least one of a piece that isn't empty.
    fn write(&mut self, bytes: &[u8]) -> Result<u64, OutputFailure>
        ensures bound { WritesAtMost result bytes.now }
        ensures some { 0 < length bytes.now → IfOk result (λ n. 0 < n) }
        ensures bytes { WriteAppends (written self.old) (written self.new) result bytes.now }
        ensures few { IfOk result (λ n. n ≤ most self.old) }
        ensures most { most self.new ≡ most self.old }
        ensures told { Called (Self.faults self.old) (Self.faults self.new) (Self.may_fail self.old) (Self.may_fail self.new)
            (Self.must_fail self.old) (Self.must_fail self.new) (output_failed result) };
}
