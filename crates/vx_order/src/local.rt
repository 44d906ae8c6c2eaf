//! An order of one universe and one sink.
ghost use Rattle.std.specs.Prelude.{◌≡◌, IsTrue, IfNone, IfSome};
ghost use Rattle.vx_path.specs.Path.{path_lt};
ghost use Rattle.vx_sequence.specs.Universe.{IsActive, IsLeast, IsUniverse};

use crate::attempt::Attempt;
use crate::ordered::Order;
use vx_order_answer::{OrderError, Receipt};
use vx_sequence::{SequenceError, SequenceId, SequencePointer, Universe};
use vx_sink::{SegmentSink, SinkError};

/// An order of one universe and one sink, which nobody else uses. All bytes may be written at all paths.
///
/// It ends by `into_sink`, so that the writes to a borrowed sink are known.
pub struct LocalOrder<S> {
    sink: S,
    universe: Universe,
}

impl<S: SegmentSink> LocalOrder<S> {
    ghost use Rattle.vx_order.specs.Local.{sink_of, universe_of};

    /// The order over a universe's active ids. Segments go to this sink.
    pub fn new(sink: S, universe: Universe) -> LocalOrder<S>
        ensures sink { sink_of result ≡ sink }
        ensures universe { universe_of result ≡ universe }
    {
        LocalOrder { sink, universe }
    }

    /// The sink. The universe is dropped.
    pub fn into_sink(self) -> S
        ensures { result ≡ sink_of self }
    {
        let LocalOrder {
            sink,
            universe: _universe,
        } = self;
        sink
    }
}

impl<S: SegmentSink> Order for LocalOrder<S> {
    ghost use Rattle.vx_order.specs.Outlet.{own};

    type Sink = S;

    ghost active = { λ o. o.universe };

    ghost sink = { λ o. o.sink };

    ghost outlet = { λ o. own (record { next = S.next o.sink; segments = S.segments o.sink; borrow = S.borrow o.sink }) };

    ghost may_write = { λ _ _ _. Unit {0} };

    ghost borrow = { λ o. S.borrow o.sink };

    fn advance(&mut self, p: &mut SequencePointer) -> Result<SequenceId, OrderError> {
        match p.advance(&mut self.universe) {
            Ok(id) => Ok(id),
            Err(SequenceError::IndexFull) => Err(OrderError::TooLarge(1 << 64)),
            Err(SequenceError::OutOfMemory) => Err(OrderError::OutOfMemory),
        }
    }

    fn descend(&mut self, id: SequenceId) -> Result<SequencePointer, (SequenceId, OrderError)> {
        match id.descend(&mut self.universe) {
            Ok(pointer) => Ok(pointer),
            Err((id, _)) => Err((id, OrderError::OutOfMemory)),
        }
    }

    fn release(&mut self, id: SequenceId) {
        id.release(&mut self.universe);
    }

    fn is_least(&self, id: &SequenceId) -> bool {
        id.is_first(&self.universe)
    }

    fn try_write(
        &mut self,
        id: SequenceId,
        bytes: &[u8],
    ) -> Result<Attempt, (SequenceId, OrderError)> {
        if let Some(least) = smaller_path(&self.universe, &id) {
            return match self.universe.copy_of(least) {
                Ok(smaller) => Ok(Attempt::Waiting { id, smaller }),
                Err(_) => Err((id, OrderError::OutOfMemory)),
            };
        }
        let number = self.sink.next_id();
        if number > u64::from(u32::MAX) {
            return Err((id, OrderError::TooLarge(u128::from(number))));
        }
        // Memory is taken before the sink is asked.
        let Ok(path) = self.universe.copy_of(id.path()) else {
            return Err((id, OrderError::OutOfMemory));
        };
        match self.sink.append(bytes) {
            Ok(segment) => {
                id.release(&mut self.universe);
                Ok(Attempt::Written(Receipt {
                    path,
                    number: segment.0,
                }))
            }
            Err(SinkError::Failed) => Err((id, OrderError::SinkFault)),
            Err(SinkError::OutOfMemory) => Err((id, OrderError::OutOfMemory)),
        }
    }
}

/// The least active path, where it is smaller than the id's.
#[tactic(auto, using(crate::proofs::Smaller::smaller_rules))]
fn smaller_path<'a>(universe: &'a Universe, id: &SequenceId) -> Option<&'a [u64]>
    requires { IsActive universe.now id.now }
    ensures none { IfNone result (IsLeast universe.now id.now) }
    ensures rules { IsUniverse universe.now }
    ensures some { IfSome result (λ p. IsActive universe.now p.now × IsLeast universe.now p.now × IsTrue (path_lt p.now id.now)) }
{
    let least = universe.least()?;
    if least == id.path() {
        None
    } else {
        Some(least)
    }
}
