//! A sink that columns share: one lock round its state, and a condition variable beside it.
ghost use Rattle.std.specs.Prelude.{◌≡◌, ◌+◌, ◌^◌, ◌<◌, ◌≤◌, ℕ, Some, [], map, length, sum_by, vec_len, IsTrue, IfOk, IfErr, All, true};
ghost use Rattle.std.specs.List.{range_with_len};
ghost use Rattle.vx_path.specs.Sort.{sort};
ghost use Rattle.vx_fault.specs.Counts.{Rose};
ghost use Rattle.vx_fault.specs.Told.{then_told};
ghost use Rattle.vx_order_answer.specs.Refusal.{once};
ghost use Rattle.vx_seats.specs.History.{bytes_for, all_listed, ascends, paths, numbered, stored};
ghost use Rattle.vx_seats.specs.Turns.{NeverFails, NumberFits};
ghost use Rattle.vx_shared.specs.Wrote.{wrote, faulted, stopped};

use std::sync::ledger::{Blank, Ledger};
use std::sync::{Condvar, Mutex, Wait};
use vx_order_answer::{OrderError, Receipt, WriteErrorName};
use vx_path::owned::Path;
use vx_seats::{Pairs, Seat, SeatError, SinkState, Turn};
use vx_sink::SegmentSink;

/// A sink that columns share. Each call holds its lock once, but for a `write` that waits.
pub struct OrderedSink<S: SegmentSink, W: Ledger, F: Ledger, M: Ledger, N: Ledger, P: Pairs> {
    state: Mutex<SinkState<S, W, F, M, N, P>>,
    /// Who waits is woken here, as a front is raised or a stop is made. A write wakes nobody: it ends no wait.
    moved: Condvar,
}

impl<S: SegmentSink, W: Ledger, F: Ledger, M: Ledger, N: Ledger, P: Pairs> OrderedSink<
    S,
    W,
    F,
    M,
    N,
    P,
> {
    /// `SinkState::new`.
    pub fn new(
        sink: S,
        fronts: Vec<Path>,
        writes: Blank,
        faults: Blank,
        made: Blank,
        seen: Blank,
    ) -> Result<(Self, Vec<Seat<W, F, M, N, P>>), (S, SeatError)>
        requires columns { (vec_len fronts ≡ P.columns) × (0 < P.columns) }
        requires writes { (writes.name ≡ W.name) × (writes.parts ≡ W.parts) × (W.parts ≡ P.columns) }
        requires faults { (faults.name ≡ F.name) × (faults.parts ≡ F.parts) × (F.parts ≡ P.columns) }
        requires made { (made.name ≡ M.name) × (made.parts ≡ M.parts) × (M.parts ≡ P.columns) }
        requires seen { (seen.name ≡ N.name) × (seen.parts ≡ N.parts) × (N.parts ≡ P.columns) }
        requires sink { (S.next sink ≡ P.first) × (S.segments sink ≡ P.told) × (S.faults sink ≡ P.faults) × (S.borrow sink ≡ P.borrow) }
        requires never_fails { NeverFails P.may_fail → NeverFails (S.may_fail sink) }
        ensures seats { IfOk result (λ r. vec_len r.1 ≡ vec_len fronts) }
        ensures columns { IfOk result (λ r. map (λ s. s.column) r.1.items ≡ range_with_len 0 (vec_len fronts)) }
        ensures none { IfOk result (λ r. All (λ s. (s.writes.amount ≡ 0) × (s.faults.amount ≡ 0) × (s.made.amount ≡ 0) × (s.seen.amount ≡ 0)) r.1.items) }
        ensures refused { IfErr result (λ r. r.0 ≡ sink) }
    {
        let (state, seats) = SinkState::new(sink, fronts, writes, faults, made, seen)?;
        Ok((
            OrderedSink {
                state: Mutex::new(state),
                moved: Condvar::new(),
            },
            seats,
        ))
    }

    /// `SinkState::try_write`, tried again after each wait while it answers `Waiting`.
    pub fn write<R: Wait>(
        &self,
        rt: &R,
        seat: &mut Seat<W, F, M, N, P>,
        path: &[u64],
        bytes: &[u8],
    ) -> Result<Receipt, OrderError>
        requires allowed { bytes_for P.pairs path.now ≡ Some bytes.now }
        ensures path { IfOk result (λ r. r.path ≡ path.now) }
        ensures fits { IfErr result (NumberFits P.first (length P.pairs)) }

        ensures column { seat.new.column ≡ seat.old.column }
        ensures writes { seat.new.writes.amount ≡ wrote seat.old.writes.amount result }
        ensures faults { seat.new.faults.amount ≡ once seat.old.faults.amount (faulted result) }
        ensures made { seat.new.made.amount ≡ seat.old.made.amount }
        ensures seen { seat.new.seen.amount ≡ once seat.old.seen.amount (stopped result) }
    {
        let mut guard = self.state.lock(rt);
        for _ in rt.forever() {
            match guard.try_write(seat, path, bytes)? {
                Turn::Written(receipt) => return Ok(receipt),
                Turn::Waiting(_smaller) => guard = self.moved.wait(rt, guard),
            }
        }
        unreachable!()
    }

    /// `SinkState::raise`. Then all that wait are woken.
    pub fn raise<R: Wait>(&self, rt: &R, seat: &Seat<W, F, M, N, P>, front: Option<Path>) {
        self.state.lock(rt).raise(seat, front);
        self.moved.notify_all();
    }

    /// `SinkState::stop`. Then all that wait are woken.
    pub fn stop<R: Wait>(&self, rt: &R, seat: &mut Seat<W, F, M, N, P>, error: WriteErrorName)
        ensures column { seat.new.column ≡ seat.old.column }
        ensures writes { seat.new.writes.amount ≡ seat.old.writes.amount }
        ensures faults { seat.new.faults.amount ≡ seat.old.faults.amount }
        ensures made { seat.new.made.amount ≡ 1 }
        ensures seen { seat.new.seen.amount ≡ seat.old.seen.amount }
    {
        self.state.lock(rt).stop(seat, error);
        self.moved.notify_all();
    }

    /// The sink and the history. The seats are spent.
    pub fn close(self, seats: Vec<Seat<W, F, M, N, P>>) -> (S, Vec<Receipt>)
        ensures ascends { ascends (paths result.1.items) ≡ true }
        ensures listed { all_listed P.pairs (paths result.1.items) ≡ true }
        ensures numbers { numbered P.first result.1.items ≡ true }
        ensures next { S.next result.0 ≡ P.first + length result.1.items }
        ensures told { S.segments result.0 ≡ then_told P.told (stored P.pairs result.1.items) }
        ensures rises { P.faults ≤ S.faults result.0 }
        ensures borrowed { S.borrow result.0 ≡ P.borrow }

        ensures all { 0 < vec_len seats → vec_len seats ≡ W.parts → length result.1.items ≡ sum_by (λ s. s.writes.amount) seats.items }
        ensures some { sum_by (λ s. s.writes.amount) seats.items ≤ length result.1.items }
        ensures whole { 0 < vec_len seats → vec_len seats ≡ W.parts → sum_by (λ s. s.writes.amount) seats.items ≡ length P.pairs
            → paths result.1.items ≡ sort (map (λ c. c.path) P.pairs) }
        ensures faults { 0 < sum_by (λ s. s.faults.amount) seats.items → Rose P.faults (S.faults result.0) }
        ensures quiet { 0 < vec_len seats → vec_len seats ≡ F.parts → sum_by (λ s. s.faults.amount) seats.items ≡ 0 → S.faults result.0 ≡ P.faults }
        ensures could_fail { 0 < sum_by (λ s. s.faults.amount) seats.items → ¬ NeverFails P.may_fail }
        ensures stops { vec_len seats ≡ M.parts → 0 < sum_by (λ s. s.seen.amount) seats.items → 0 < sum_by (λ s. s.made.amount) seats.items }
    {
        let OrderedSink {
            state,
            moved: _moved,
        } = self;
        state.into_inner().close(seats)
    }
}
