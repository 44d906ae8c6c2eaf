ghost use Rattle.std.specs.Prelude.{◌≡◌, ◌^◌, Some, length, IsTrue, IfNone, IfSome};
ghost use Rattle.vx_path.specs.Path.{path_lt};
ghost use Rattle.vx_sequence.specs.Universe.{IsActive, IsLeast, IsUniverse};
ghost use Rattle.vx_seats.specs.History.{bytes_for};

use std::sync::Wait;
use std::sync::ledger::Ledger;
use vx_order::{Attempt, Order};
use vx_order_answer::OrderError;
use vx_seats::{Pairs, Seat};
use vx_sequence::{SequenceError, SequenceId, SequencePointer, Universe};
use vx_shared::OrderedSink;
use vx_sink::SegmentSink;

/// A column's order over a sink that columns share. It allows the sink's pairs of path and bytes.
///
/// Its universe holds the column's paths alone: for smaller paths of other columns `try_write` waits inside. Its seat
/// must be spent, so it must be taken apart.
pub struct ColumnOrder<
    'a,
    S: SegmentSink,
    R: Wait,
    W: Ledger,
    F: Ledger,
    M: Ledger,
    N: Ledger,
    P: Pairs,
> {
    pub sink: &'a OrderedSink<S, W, F, M, N, P>,
    pub seat: Seat<W, F, M, N, P>,
    pub universe: Universe,
    /// Under which it waits.
    pub rt: &'a R,
}

impl<'a, S: SegmentSink, R: Wait, W: Ledger, F: Ledger, M: Ledger, N: Ledger, P: Pairs> Order
    for ColumnOrder<'a, S, R, W, F, M, N, P> {
    ghost use Rattle.std.specs.Prelude.{length, Some};
    ghost use Rattle.vx_order.specs.Outlet.{shared};
    ghost use Rattle.vx_seats.specs.History.{bytes_for};

    type Sink = Seat<W, F, M, N, P>;

    ghost active = { λ o. o.universe };

    ghost sink = { λ o. o.seat };

    ghost outlet = { λ o. shared (record { sink = W.name; column = o.seat.column; writes = o.seat.writes.amount; faults = o.seat.faults.amount; seen = o.seat.seen.amount; first = P.first; pairs = length P.pairs }) };

    ghost may_write = { λ _ p b. bytes_for P.pairs p ≡ Some b };

    ghost borrow = { λ _. 0 };

    fn advance(&mut self, p: &mut SequencePointer) -> Result<SequenceId, OrderError> {
        match p.advance(&mut self.universe) {
            Ok(id) => Ok(id),
            Err(SequenceError::IndexFull) => Err(OrderError::TooLarge(1 << 64)),
            Err(SequenceError::OutOfMemory) => Err(OrderError::OutOfMemory),
        }
    }

    fn descend(&mut self, id: SequenceId) -> Result<SequencePointer, (SequenceId, OrderError)> {
        match id.descend(&mut self.universe) {
            Ok(pointer) => Ok(pointer),
            Err((id, _)) => Err((id, OrderError::OutOfMemory)),
        }
    }

    fn release(&mut self, id: SequenceId) {
        id.release(&mut self.universe);
    }

    fn is_least(&self, id: &SequenceId) -> bool {
        id.is_first(&self.universe)
    }

    fn try_write(
        &mut self,
        id: SequenceId,
        bytes: &[u8],
    ) -> Result<Attempt, (SequenceId, OrderError)> {
        if let Some(least) = smaller_path(&self.universe, &id) {
            return match self.universe.copy_of(least) {
                Ok(smaller) => Ok(Attempt::Waiting { id, smaller }),
                Err(_) => Err((id, OrderError::OutOfMemory)),
            };
        }
        match self.sink.write(self.rt, &mut self.seat, id.path(), bytes) {
            Ok(receipt) => {
                id.release(&mut self.universe);
                Ok(Attempt::Written(receipt))
            }
            Err(error) => Err((id, error)),
        }
    }
}

/// The least active path, where it is smaller than the id's.
#[tactic(auto, using(crate::proofs::Smaller::least_below, crate::proofs::Smaller::none_active))]
fn smaller_path<'a>(universe: &'a Universe, id: &SequenceId) -> Option<&'a [u64]>
    requires { IsActive universe.now id.now }
    ensures none { IfNone result (IsLeast universe.now id.now) }
    ensures rules { IsUniverse universe.now }
    ensures some { IfSome result (λ p. IsActive universe.now p.now × IsLeast universe.now p.now × IsTrue (path_lt p.now id.now)) }
{
    if id.is_first(universe) {
        return None;
    }
    universe.least()
}
