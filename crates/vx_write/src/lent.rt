//! A sink that is lent.

ghost use Rattle.vx_write.specs.Lent.{two_in_one};

use vx_fault::Fallible;
use vx_model::SegmentId;
use vx_sink::{SegmentSink, SinkError};

/// A borrowed sink. It names both the loan and what the sink itself stands on, so that a write over it keeps both.
pub(crate) struct Lent<'a, S> {
    pub sink: &'a mut S,
}

impl<S: SegmentSink> Fallible for Lent<'_, S> {
    ghost faults = { λ s. S.faults s.sink.now };

    ghost may_fail = { λ s. S.may_fail s.sink.now };

    ghost must_fail = { λ s. S.must_fail s.sink.now };
}

impl<S: SegmentSink> SegmentSink for Lent<'_, S> {
    ghost next = { λ s. S.next s.sink.now };

    ghost segments = { λ s. S.segments s.sink.now };

    ghost borrow = { λ s. two_in_one s.sink.ghost_name (S.borrow s.sink.now) };

    fn next_id(&self) -> u64 {
        self.sink.next_id()
    }

    fn append(&mut self, bytes: &[u8]) -> Result<SegmentId, SinkError> {
        self.sink.append(bytes)
    }
}
