//! A sink that counts its segments.

ghost use Rattle.std.specs.Prelude.{◌≡◌, ℕ};

use std::cell::Cell;
use vx_fault::Fallible;
use vx_model::SegmentId;
use vx_sink::{SegmentSink, SinkError};

/// A sink that counts, in a cell that others look at, the segments that it takes. It takes the same segments and fails as the
/// sink does.
#[derive(Drop)]
pub struct CountedSink<'a, S> {
    sink: S,
    appended: &'a Cell<u64>,
}

impl<'a, S: SegmentSink> CountedSink<'a, S> {
    /// Counts from what the cell has.
    pub fn new(sink: S, appended: &'a Cell<u64>) -> CountedSink<'a, S>
        ensures next { ⟦<CountedSink<'a, S> as SegmentSink>⟧.next result ≡ S.next sink }
        ensures segments { ⟦<CountedSink<'a, S> as SegmentSink>⟧.segments result ≡ S.segments sink }
        ensures faults { ⟦<CountedSink<'a, S> as Fallible>⟧.faults result ≡ S.faults sink }
        ensures may_fail { (k : ℕ) → ⟦<CountedSink<'a, S> as Fallible>⟧.may_fail result k → S.may_fail sink k }
        ensures must_fail { (k : ℕ) → S.must_fail sink k → ⟦<CountedSink<'a, S> as Fallible>⟧.must_fail result k }
    {
        CountedSink { sink, appended }
    }

    /// The sink.
    pub fn into_inner(self) -> S
        ensures segments { S.segments result ≡ ⟦<CountedSink<'a, S> as SegmentSink>⟧.segments self.entry }
        ensures next { S.next result ≡ ⟦<CountedSink<'a, S> as SegmentSink>⟧.next self.entry }
    {
        self.sink
    }
}

impl<S: SegmentSink> Fallible for CountedSink<'_, S> {
    ghost faults = { λ s. S.faults s.sink };

    ghost may_fail = { λ s. S.may_fail s.sink };

    ghost must_fail = { λ s. S.must_fail s.sink };
}

impl<S: SegmentSink> SegmentSink for CountedSink<'_, S> {
    ghost next = { λ s. S.next s.sink };

    ghost segments = { λ s. S.segments s.sink };

    ghost borrow = { λ s. S.borrow s.sink };

    fn next_id(&self) -> u64 {
        self.sink.next_id()
    }

    fn append(&mut self, bytes: &[u8]) -> Result<SegmentId, SinkError> {
        let id = self.sink.append(bytes)?;
        self.appended.set(self.appended.get().saturating_add(1));
        Ok(id)
    }
}
