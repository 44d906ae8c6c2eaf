//! What a write may use.

ghost use Rattle.std.specs.Prelude.{◌≡◌, ◌+◌, ◌-◌, ◌<◌, ◌≤◌, ◌^◌, true, false, Some, None, IfOk, IfErr, OnOk, OnErr};
ghost use Rattle.vx_model.specs.Words.{lists_id};

use crate::tracker::{BufferedBytesReservation, BufferedBytesTracker, TooLarge};
use std::alloc::AllocError;
use vx_model::{ArrayContext, Text};

/// What a write may use, and what it holds back.
#[derive(Debug, Drop)]
pub struct LayoutWriterContext {
    array_ctx: ArrayContext,
    allowed: Option<Vec<Text>>,
    marked: bool,
    tracker: BufferedBytesTracker,
}

impl LayoutWriterContext {
    ghost use Rattle.vx_sink.specs.ContextView.{listed, allowed_in, allows_id, is_marked, counted};

    /// A write may use these encodings and all aggregates. It isn't marked, and holds nothing back.
    pub fn new(array_ctx: ArrayContext) -> LayoutWriterContext
        ensures listed { listed result ≡ array_ctx }
        ensures allowed { allowed_in result ≡ None }
        ensures marked { is_marked result ≡ false }
        ensures counted { counted result ≡ 0 }
    {
        LayoutWriterContext {
            array_ctx,
            allowed: None,
            marked: false,
            tracker: BufferedBytesTracker::new(),
        }
    }

    /// The same, with these ids as those of the aggregates that zones may have.
    pub fn with_allowed_aggregates(self, allowed: Vec<Text>) -> LayoutWriterContext
        ensures listed { listed result ≡ listed self }
        ensures allowed { allowed_in result ≡ Some allowed.items }
        ensures marked { is_marked result ≡ is_marked self }
        ensures counted { counted result ≡ counted self }
    {
        LayoutWriterContext {
            allowed: Some(allowed),
            ..self
        }
    }

    /// The same, marked: a nullable struct stands above what is written.
    pub fn with_nullable_ancestor(self) -> LayoutWriterContext
        ensures listed { listed result ≡ listed self }
        ensures allowed { allowed_in result ≡ allowed_in self }
        ensures marked { is_marked result ≡ true }
        ensures counted { counted result ≡ counted self }
    {
        LayoutWriterContext {
            marked: true,
            ..self
        }
    }

    /// The same, with this tracker.
    pub fn with_buffered_bytes_tracker(self, tracker: BufferedBytesTracker) -> LayoutWriterContext
        ensures listed { listed result ≡ listed self }
        ensures allowed { allowed_in result ≡ allowed_in self }
        ensures marked { is_marked result ≡ is_marked self }
        ensures counted { counted result ≡ tracker }
    {
        LayoutWriterContext { tracker, ..self }
    }

    /// The same for a worker, which counts for itself: nothing is held back yet.
    pub fn for_worker(&self) -> Result<LayoutWriterContext, AllocError>
        ensures listed { IfOk result (λ c. listed c ≡ listed self.now) }
        ensures allowed { IfOk result (λ c. allowed_in c ≡ allowed_in self.now) }
        ensures marked { IfOk result (λ c. is_marked c ≡ is_marked self.now) }
        ensures counted { IfOk result (λ c. counted c ≡ 0) }
    {
        Ok(LayoutWriterContext {
            array_ctx: self.array_ctx.clone()?,
            allowed: self.allowed.clone()?,
            marked: self.marked,
            tracker: BufferedBytesTracker::new(),
        })
    }

    /// The encodings that a write may use. No write extends them.
    pub fn array_ctx(&self) -> &ArrayContext
        ensures { result.now ≡ listed self.now }
    {
        &self.array_ctx
    }

    /// Whether zones may have the aggregate of this id. Takes a walk over the ids that are given.
    pub fn allows_aggregate(&self, id: &str) -> bool
        ensures { result ≡ allows_id (allowed_in self.now) id.now }
    {
        match &self.allowed {
            Some(ids) => lists(ids, id),
            None => true,
        }
    }

    /// Whether a nullable struct stands above what is written.
    pub fn has_nullable_ancestor(&self) -> bool
        ensures { result ≡ is_marked self.now }
    {
        self.marked
    }

    /// The tracker of the bytes that are held back.
    pub fn buffered_bytes_tracker(&self) -> &BufferedBytesTracker
        ensures { result.now ≡ counted self.now }
    {
        &self.tracker
    }

    /// How many bytes are held back.
    pub fn buffered_bytes(&self) -> u64
        ensures { result ≡ counted self.now }
    {
        self.tracker.buffered_bytes()
    }

    /// `BufferedBytesTracker::reserve` at the tracker.
    pub fn reserve_buffered_bytes(
        &mut self,
        bytes: u64,
    ) -> Result<BufferedBytesReservation, TooLarge>
        ensures bytes { IfOk result (λ r. r ≡ bytes) }
        ensures total { OnOk result (counted self.new ≡ counted self.old + bytes) }
        ensures fits { OnOk result (counted self.old + bytes < 2 ^ 64) }
        ensures refused { IfErr result (λ e. (e.0 ≡ counted self.old + bytes) × (2 ^ 64 ≤ counted self.old + bytes)) }
        ensures unchanged { OnErr result (self.new ≡ self.old) }
        ensures listed { listed self.new ≡ listed self.old }
        ensures allowed { allowed_in self.new ≡ allowed_in self.old }
        ensures marked { is_marked self.new ≡ is_marked self.old }
    {
        self.tracker.reserve(bytes)
    }

    /// `BufferedBytesReservation::release` at the tracker.
    pub fn release_buffered_bytes(&mut self, reservation: BufferedBytesReservation)
        requires { reservation ≤ counted self.old }
        ensures counted { counted self.new ≡ counted self.old - reservation }
        ensures listed { listed self.new ≡ listed self.old }
        ensures allowed { allowed_in self.new ≡ allowed_in self.old }
        ensures marked { is_marked self.new ≡ is_marked self.old }
    {
        reservation.release(&mut self.tracker);
    }
}

impl From<ArrayContext> for LayoutWriterContext {
    ghost use Rattle.std.specs.Prelude.{◌≡◌, false, None};
    ghost use Rattle.vx_sink.specs.ContextView.{listed, allowed_in, is_marked, counted};

    ghost from_gives = { λ ids c. (listed c ≡ ids) × (allowed_in c ≡ None) × (is_marked c ≡ false) × (counted c ≡ 0) };

    fn from(array_ctx: ArrayContext) -> LayoutWriterContext {
        LayoutWriterContext::new(array_ctx)
    }
}

/// Whether the id is among them.
#[tactic(auto, using(crate::proofs::Ids::id_rules))]
fn lists(ids: &[Text], id: &str) -> bool
    ensures { result ≡ lists_id id.now ids.now }
{
    for listed in ids {
        if listed.as_str() == id {
            return true;
        }
    }
    false
}
