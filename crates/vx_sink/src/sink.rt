ghost use Rattle.std.specs.Prelude.{◌≡◌, ℕ, ◌<◌, ◌^◌, List, Option, IfOk};
ghost use Rattle.vx_fault.specs.Faults.{Called};
ghost use Rattle.vx_sink.specs.Sink.{sink_failed, next_after, segments_after};

use std::alloc::{AllocError, AllocFailed};
use thiserror::Error;
use vx_fault::Fallible;
use vx_model::SegmentId;

/// Why a sink took no segment.
#[derive(Debug, Drop, Error)]
pub enum SinkError {
    /// The sink failed; its count of faults says so.
    #[error("the sink failed")]
    Failed,
    #[error("out of memory")]
    OutOfMemory,
}

impl From<AllocError> for SinkError {
    ghost use Rattle.std.specs.Prelude.{◌≡◌};
    ghost use Rattle.vx_sink.specs.declared.sink.SinkError.TheVariants.{OutOfMemory};

    ghost from_gives = { λ _ e. e ≡ OutOfMemory };

    fn from(_error: AllocError) -> SinkError {
        SinkError::OutOfMemory
    }
}

impl<T: Drop> From<AllocFailed<T>> for SinkError {
    ghost use Rattle.std.specs.Prelude.{◌≡◌};
    ghost use Rattle.vx_sink.specs.declared.sink.SinkError.TheVariants.{OutOfMemory};

    ghost from_gives = { λ _ e. e ≡ OutOfMemory };

    fn from(_error: AllocFailed<T>) -> SinkError {
        SinkError::OutOfMemory
    }
}

/// Segments, numbered in the order in which they are appended.
pub trait SegmentSink: Fallible {
    /// The number of the next segment.
    ghost next: { Self → ℕ };

    /// The segments, where the sink tells them.
    ghost segments: { Self → Option (List (List ℕ)) };

    /// Of a borrowed sink the name of the borrow, which no call exchanges for another.
    ghost borrow: { Self → ℕ } = { λ _. 0 };

    /// The number of the next segment.
    fn next_id(&self) -> u64
        ensures { result ≡ next self.now };

    /// Puts the bytes behind the segments. An error changes nothing but the count of faults.
    fn append(&mut self, bytes: &[u8]) -> Result<SegmentId, SinkError>
        requires { next self.old < 2 ^ 32 }
        ensures number { IfOk result (λ id. id.0 ≡ next self.old) }
        ensures next { next self.new ≡ next_after (next self.old) result }
        ensures segments { segments self.new ≡ segments_after (segments self.old) bytes.now result }
        ensures told { Called (Self.faults self.old) (Self.faults self.new) (Self.may_fail self.old) (Self.may_fail self.new)
            (Self.must_fail self.old) (Self.must_fail self.new) (sink_failed result) }
        ensures borrow { borrow self.new ≡ borrow self.old };
}

impl<S: SegmentSink> SegmentSink for &mut S {
    ghost next = { λ s. S.next s.now };

    ghost segments = { λ s. S.segments s.now };

    ghost borrow = { λ s. s.ghost_name };

    fn next_id(&self) -> u64 {
        (**self).next_id()
    }

    fn append(&mut self, bytes: &[u8]) -> Result<SegmentId, SinkError> {
        (**self).append(bytes)
    }
}
