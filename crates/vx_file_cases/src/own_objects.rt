//! A source, a sink and a compressor of the program's own, which fail when they are told to.

ghost use Rattle.std.specs.Prelude.{None, length};
ghost use Rattle.vx_model.specs.TyView.{ty};
ghost use Rattle.vx_fault.specs.Counts.{Counts};
ghost use Rattle.vx_layout_spec.specs.Real.{same_rows};

use vx_fault::Fallible;
use vx_sink::{BatchSource, CompressError, CompressorPlugin, SegmentSink, SinkError, SourceError};
use vx_types::{Chunk, DType, SegmentId};

/// Tells the one call that fails.
#[derive(Drop)]
pub(crate) struct Fault {
    pub calls_before: u64,
    pub count: u64,
}

impl Fault {
    /// The call after so many fails.
    pub fn after(calls_before: u64) -> Fault {
        Fault {
            calls_before,
            count: 0,
        }
    }

    /// Whether this call fails.
    fn falls(&mut self) -> bool
        ensures { Counts self.old.count self.new.count result }
    {
        let falls = self.calls_before == 0;
        if falls {
            self.calls_before = u64::MAX;
            self.count = self.count.saturating_add(1);
        } else {
            self.calls_before -= 1;
        }
        falls
    }
}

/// Batches, the last one first.
#[derive(Drop)]
pub(crate) struct Stack {
    pub dtype: DType,
    pub batches: Vec<Chunk>,
    pub fault: Fault,
}

impl Fallible for Stack {
    ghost faults = { λ s. s.fault.count };

    ghost may_fail = { λ _ _. Unit {0} };
}

impl BatchSource for Stack {
    ghost kind = { λ s. ty s.dtype };

    ghost left = { λ s. length s.batches.items };

    ghost to_come = { λ _. None };

    fn dtype(&self) -> &DType {
        &self.dtype
    }

    fn next(&mut self) -> Result<Option<Chunk>, SourceError> {
        if self.fault.falls() {
            return Err(SourceError::Failed);
        }
        Ok(self.batches.pop())
    }
}

/// Counts segments and keeps none.
#[derive(Drop)]
pub(crate) struct Counter {
    pub next: u64,
    pub fault: Fault,
}

impl Counter {
    /// No segments; the append after so many fails.
    pub fn new(calls_before: u64) -> Counter {
        Counter {
            next: 0,
            fault: Fault::after(calls_before),
        }
    }
}

impl Fallible for Counter {
    ghost faults = { λ s. s.fault.count };

    ghost may_fail = { λ _ _. Unit {0} };
}

impl SegmentSink for Counter {
    ghost next = { λ s. s.next };

    ghost segments = { λ _. None };

    fn next_id(&self) -> u64 {
        self.next
    }

    fn append(&mut self, _bytes: &[u8]) -> Result<SegmentId, SinkError> {
        if self.fault.falls() {
            return Err(SinkError::Failed);
        }
        let id = SegmentId(self.next as u32);
        self.next += 1;
        Ok(id)
    }
}

/// Gives no image at all.
#[derive(Drop)]
pub(crate) struct Broken {
    pub faults: u64,
}

impl Fallible for Broken {
    ghost faults = { λ c. c.faults };

    ghost may_fail = { λ _ _. Unit {0} };
}

impl CompressorPlugin for Broken {
    ghost kind = { λ _. 0 };

    ghost image = { λ _ _ p. p };

    ghost keeps = { λ _ _ p whole. same_rows p whole };

    fn compress_chunk(&mut self, _which: u32, _chunk: &Chunk) -> Result<Chunk, CompressError> {
        self.faults = self.faults.saturating_add(1);
        Err(CompressError::Failed)
    }
}
