//! What lies under the lock.
ghost use Rattle.std.specs.Prelude.{◌≡◌, ◌+◌, ◌-◌, ◌*◌, ◌^◌, ◌<◌, ◌≤◌, ℕ, List, [], ◌∷◌, ◌++◌, Option, Some, None, length, map, min, sum_by, nat_lt, is_some, vec_len, vec_capacity, IsTrue, IfNone, IfSome, IfOk, IfErr, OnOk, All, true, false, if◌then◌else◌};
ghost use Rattle.std.specs.List.{range_with_len};
ghost use Rattle.vx_fault.specs.Counts.{Rose, IsCalm};
ghost use Rattle.vx_fault.specs.Told.{then_told};
ghost use Rattle.vx_order_answer.specs.Refusal.{once};
ghost use Rattle.vx_seats.specs.History.{bytes_for, all_listed, ascends, paths, numbered, stored, bit};
ghost use Rattle.vx_seats.specs.Fronts.{NoneAhead, later, raised_front};
ghost use Rattle.vx_seats.specs.Turns.{Answers, NumberFits, IsFree, IsLast, IsNew, WaitsFor, IsWaiting, IsTooLarge, IsWritten, NeverFails, Tells, is_sink_fault, is_stopped, history_after, writes_after};

use crate::fronts::least_ahead;
use crate::pairs::Pairs;
use crate::seat::{Seat, SeatError};
use crate::shares::Shares;
use crate::turn::Turn;
use std::alloc::{AllocError, Global};
use std::marker::PhantomData;
use std::sync::ledger::{Blank, Book, Ledger};
use vx_order_answer::{OrderError, Receipt, WriteErrorName};
use vx_path::owned::{Path, path_le};
use vx_sink::{SegmentSink, SinkError};

/// A sink that columns share, the history of the writes to it, the first stop and the columns' fronts.
///
/// A front is a path below which its column writes no more, or nothing once the column has ended.
pub struct SinkState<S: SegmentSink, W: Ledger, F: Ledger, M: Ledger, N: Ledger, P: Pairs> {
    sink: S,
    history: Vec<Receipt>,
    stop: Option<(u64, WriteErrorName)>,
    fronts: Vec<Option<Path>>,
    writes: Book<W>,
    faults: Book<F>,
    made: Book<M>,
    seen: Book<N>,
    of: PhantomData<P>,
    pub ghost ascending: { ascends (paths history.items) ≡ true },
    pub ghost listed: { all_listed P.pairs (paths history.items) ≡ true },
    pub ghost numbers: { numbered P.first history.items ≡ true },
    pub ghost next: { S.next sink ≡ P.first + length history.items },
    pub ghost told: { S.segments sink ≡ then_told P.told (stored P.pairs history.items) },
    pub ghost counted: { length history.items ≡ writes.total },
    pub ghost rises: { P.faults ≤ S.faults sink },
    pub ghost failed: { 0 < faults.total → Rose P.faults (S.faults sink) },
    pub ghost quiet: { faults.total ≡ 0 → S.faults sink ≡ P.faults },
    pub ghost never_fails: { NeverFails P.may_fail → NeverFails (S.may_fail sink) },
    pub ghost could_fail: { 0 < faults.total → ¬ NeverFails P.may_fail },
    pub ghost borrowed: { S.borrow sink ≡ P.borrow },
    pub ghost stopped: { is_some stop ≡ nat_lt 0 made.total },
    pub ghost stops: { 0 < seen.total → 0 < made.total },
    pub ghost columns: { vec_len fronts ≡ P.columns },
}

impl<S: SegmentSink, W: Ledger, F: Ledger, M: Ledger, N: Ledger, P: Pairs> SinkState<
    S,
    W,
    F,
    M,
    N,
    P,
> {
    /// A state without a write, and a seat for each front. A blank has as many parts as there are fronts.
    pub fn new(
        sink: S,
        fronts: Vec<Path>,
        writes: Blank,
        faults: Blank,
        made: Blank,
        seen: Blank,
    ) -> Result<(Self, Vec<Seat<W, F, M, N, P>>), (S, SeatError)>
        requires columns { (vec_len fronts ≡ P.columns) × (0 < P.columns) }
        requires writes { (writes.name ≡ W.name) × (writes.parts ≡ W.parts) × (W.parts ≡ P.columns) }
        requires faults { (faults.name ≡ F.name) × (faults.parts ≡ F.parts) × (F.parts ≡ P.columns) }
        requires made { (made.name ≡ M.name) × (made.parts ≡ M.parts) × (M.parts ≡ P.columns) }
        requires seen { (seen.name ≡ N.name) × (seen.parts ≡ N.parts) × (N.parts ≡ P.columns) }
        requires sink { (S.next sink ≡ P.first) × (S.segments sink ≡ P.told) × (S.faults sink ≡ P.faults) × (S.borrow sink ≡ P.borrow) }
        requires never_fails { NeverFails P.may_fail → NeverFails (S.may_fail sink) }
        ensures sink { IfOk result (λ r. r.0.sink ≡ sink) }
        ensures history { IfOk result (λ r. r.0.history.items ≡ []) }
        ensures stop { IfOk result (λ r. r.0.stop ≡ None) }
        ensures fronts { IfOk result (λ r. r.0.fronts.items ≡ map (λ p. Some p) fronts.items) }
        ensures seats { IfOk result (λ r. vec_len r.1 ≡ vec_len fronts) }
        ensures columns { IfOk result (λ r. map (λ s. s.column) r.1.items ≡ range_with_len 0 (vec_len fronts)) }
        ensures none { IfOk result (λ r. All (λ s. (s.writes.amount ≡ 0) × (s.faults.amount ≡ 0) × (s.made.amount ≡ 0) × (s.seen.amount ≡ 0)) r.1.items) }
        ensures refused { IfErr result (λ r. r.0 ≡ sink) }
    {
        let Ok(fronts) = as_fronts(fronts) else {
            return Err((sink, SeatError::OutOfMemory));
        };
        let alloc = *fronts.allocator();
        let (writes, all_writes) = writes.open::<W>();
        let (faults, all_faults) = faults.open::<F>();
        let (made, all_made) = made.open::<M>();
        let (seen, all_seen) = seen.open::<N>();
        let all = Shares {
            writes: all_writes,
            faults: all_faults,
            made: all_made,
            seen: all_seen,
        };
        let seats = match seats(alloc, all, fronts.len()) {
            Ok(seats) => seats,
            Err(_) => return Err((sink, SeatError::OutOfMemory)),
        };
        let history = Vec::new(alloc);
        Ok((
            SinkState {
                sink,
                history,
                stop: None,
                fronts,
                writes,
                faults,
                made,
                seen,
                of: PhantomData,
            },
            seats,
        ))
    }

    /// Appends the bytes, where nothing stands in the way of the path: no stop, no smaller front of another column, and
    /// no path of the history that isn't smaller.
    pub fn try_write(
        &mut self,
        seat: &mut Seat<W, F, M, N, P>,
        path: &[u64],
        bytes: &[u8],
    ) -> Result<Turn, OrderError>
        requires allowed { bytes_for P.pairs path.now ≡ Some bytes.now }
        ensures answer { Answers self.old.stop self.old.fronts.items (paths self.old.history.items) (S.next self.old.sink) seat.old.column path.now result }
        ensures ends { IfSome self.old.stop (λ s. result ≡ Err (OrderError.Stopped s.0 s.1)) }
        ensures waits { (q : List ℕ) → self.old.stop ≡ None → WaitsFor self.old.fronts.items (paths self.old.history.items) seat.old.column path.now q → IsWaiting result }
        ensures large { IsFree self.old.stop self.old.fronts.items (paths self.old.history.items) seat.old.column path.now → 2 ^ 32 ≤ S.next self.old.sink → IsTooLarge result }
        ensures complete { IsFree self.old.stop self.old.fronts.items (paths self.old.history.items) seat.old.column path.now → S.next self.old.sink < 2 ^ 32
            → IsCalm (S.faults self.old.sink) (S.faults self.new.sink) → IsWritten result }
        ensures fits { IfErr result (NumberFits P.first (length P.pairs)) }

        ensures history { self.new.history.items ≡ history_after self.old.history.items result }
        ensures stop { self.new.stop ≡ self.old.stop }
        ensures fronts { self.new.fronts.items ≡ self.old.fronts.items }
        ensures told { Tells (S.faults self.old.sink) (S.faults self.new.sink) (S.may_fail self.old.sink) (S.may_fail self.new.sink)
            (S.must_fail self.old.sink) (S.must_fail self.new.sink) result }
        ensures column { seat.new.column ≡ seat.old.column }
        ensures writes { seat.new.writes.amount ≡ writes_after seat.old.writes.amount result }
        ensures faults { seat.new.faults.amount ≡ once seat.old.faults.amount (is_sink_fault result) }
        ensures made { seat.new.made.amount ≡ seat.old.made.amount }
        ensures seen { seat.new.seen.amount ≡ once seat.old.seen.amount (is_stopped result) }
    {
        if let Some((column, name)) = self.stop {
            self.see(seat);
            return Err(OrderError::Stopped(column, name));
        }
        if let Some(path) = smaller(&self.fronts, &self.history, seat.column, path) {
            return match Path::from_slice(*self.fronts.allocator(), path) {
                Ok(path) => Ok(Turn::Waiting(path)),
                Err(_) => Err(OrderError::OutOfMemory),
            };
        }
        let number = self.sink.next_id();
        if number > u64::from(u32::MAX) {
            self.has_room(path, bytes, seat);
            return Err(OrderError::TooLarge(u128::from(number)));
        }
        self.append(seat, path, bytes)
    }

    /// Does nothing; tells a caller's proof that the next number is that of a pair.
    fn has_room(&self, path: &[u64], bytes: &[u8], seat: &Seat<W, F, M, N, P>)
        requires allowed { bytes_for P.pairs path.now ≡ Some bytes.now }
        requires free { IsFree self.now.stop self.now.fronts.items (paths self.now.history.items) seat.now.column path.now }
        ensures { S.next self.now.sink < P.first + length P.pairs }
    {}

    /// Counts a stop that the seat saw.
    fn see(&mut self, seat: &mut Seat<W, F, M, N, P>)
        requires { is_some self.old.stop ≡ true }
        ensures sink { self.new.sink ≡ self.old.sink }
        ensures history { self.new.history.items ≡ self.old.history.items }
        ensures stop { self.new.stop ≡ self.old.stop }
        ensures fronts { self.new.fronts.items ≡ self.old.fronts.items }
        ensures column { seat.new.column ≡ seat.old.column }
        ensures writes { seat.new.writes.amount ≡ seat.old.writes.amount }
        ensures faults { seat.new.faults.amount ≡ seat.old.faults.amount }
        ensures made { seat.new.made.amount ≡ seat.old.made.amount }
        ensures seen { seat.new.seen.amount ≡ 1 }
    {
        self.seen.add(&mut seat.seen, unless(seat.told));
        seat.told = true;
    }

    /// Appends the bytes at a path in whose way nothing stands.
    fn append(
        &mut self,
        seat: &mut Seat<W, F, M, N, P>,
        path: &[u64],
        bytes: &[u8],
    ) -> Result<Turn, OrderError>
        requires allowed { bytes_for P.pairs path.now ≡ Some bytes.now }
        requires free { IsFree self.old.stop self.old.fronts.items (paths self.old.history.items) seat.old.column path.now }
        requires room { S.next self.old.sink < 2 ^ 32 }
        ensures answer { Answers self.old.stop self.old.fronts.items (paths self.old.history.items) (S.next self.old.sink) seat.old.column path.now result }
        ensures complete { IsCalm (S.faults self.old.sink) (S.faults self.new.sink) → IsWritten result }
        ensures history { self.new.history.items ≡ history_after self.old.history.items result }
        ensures stop { self.new.stop ≡ self.old.stop }
        ensures fronts { self.new.fronts.items ≡ self.old.fronts.items }
        ensures told { Tells (S.faults self.old.sink) (S.faults self.new.sink) (S.may_fail self.old.sink) (S.may_fail self.new.sink)
            (S.must_fail self.old.sink) (S.must_fail self.new.sink) result }
        ensures column { seat.new.column ≡ seat.old.column }
        ensures writes { seat.new.writes.amount ≡ writes_after seat.old.writes.amount result }
        ensures faults { seat.new.faults.amount ≡ once seat.old.faults.amount (is_sink_fault result) }
        ensures made { seat.new.made.amount ≡ seat.old.made.amount }
        ensures seen { seat.new.seen.amount ≡ seat.old.seen.amount }
    {
        // Memory is taken before the sink is asked.
        let alloc = *self.fronts.allocator();
        let Ok((kept, told)) = prepared(&mut self.history, alloc, path) else {
            return Err(OrderError::OutOfMemory);
        };
        match self.sink.append(bytes) {
            Ok(segment) => {
                let number = segment.0;
                put(&mut self.history, Receipt { path: kept, number });
                self.writes.add(&mut seat.writes, 1);
                Ok(Turn::Written(Receipt { path: told, number }))
            }
            Err(SinkError::Failed) => {
                self.faults.audit(&mut seat.faults);
                self.faults.add(&mut seat.faults, unless(seat.faulted));
                seat.faulted = true;
                Err(OrderError::SinkFault)
            }
            Err(SinkError::OutOfMemory) => Err(OrderError::OutOfMemory),
        }
    }

    /// Raises the column's front, nothing being the greatest.
    pub fn raise(&mut self, seat: &Seat<W, F, M, N, P>, front: Option<Path>)
        ensures fronts { self.new.fronts.items ≡ raised_front self.old.fronts.items seat.now.column front }
        ensures history { self.new.history.items ≡ self.old.history.items }
        ensures stop { self.new.stop ≡ self.old.stop }
        ensures sink { self.new.sink ≡ self.old.sink }
    {
        let column = seat.column;
        if is_later(&self.fronts[column], &front) {
            self.fronts[column] = front;
        }
    }

    /// Keeps the column and the name, where no stop is kept yet.
    pub fn stop(&mut self, seat: &mut Seat<W, F, M, N, P>, error: WriteErrorName)
        ensures stop { self.new.stop ≡ (if is_some self.old.stop then self.old.stop else Some (seat.old.column, error)) }
        ensures history { self.new.history.items ≡ self.old.history.items }
        ensures fronts { self.new.fronts.items ≡ self.old.fronts.items }
        ensures sink { self.new.sink ≡ self.old.sink }
        ensures column { seat.new.column ≡ seat.old.column }
        ensures writes { seat.new.writes.amount ≡ seat.old.writes.amount }
        ensures faults { seat.new.faults.amount ≡ seat.old.faults.amount }
        ensures made { seat.new.made.amount ≡ 1 }
        ensures seen { seat.new.seen.amount ≡ seat.old.seen.amount }
    {
        self.made.audit(&mut seat.made);
        self.made.add(&mut seat.made, unless(seat.stopped));
        seat.stopped = true;
        self.stop = Some(first_stop(self.stop, seat.column as u64, error));
    }

    /// The sink and the history. The seats are spent.
    pub fn close(self, seats: Vec<Seat<W, F, M, N, P>>) -> (S, Vec<Receipt>)
        ensures sink { result.0 ≡ self.sink }
        ensures history { result.1.items ≡ self.history.items }
        ensures ascends { ascends (paths result.1.items) ≡ true }
        ensures listed { all_listed P.pairs (paths result.1.items) ≡ true }
        ensures numbers { numbered P.first result.1.items ≡ true }
        ensures next { S.next result.0 ≡ P.first + length result.1.items }
        ensures told { S.segments result.0 ≡ then_told P.told (stored P.pairs result.1.items) }
        ensures rises { P.faults ≤ S.faults result.0 }
        ensures borrowed { S.borrow result.0 ≡ P.borrow }

        ensures all { 0 < vec_len seats → vec_len seats ≡ W.parts → length result.1.items ≡ sum_by (λ s. s.writes.amount) seats.items }
        ensures some { sum_by (λ s. s.writes.amount) seats.items ≤ length result.1.items }
        ensures faults { 0 < sum_by (λ s. s.faults.amount) seats.items → Rose P.faults (S.faults result.0) }
        ensures quiet { 0 < vec_len seats → vec_len seats ≡ F.parts → sum_by (λ s. s.faults.amount) seats.items ≡ 0 → S.faults result.0 ≡ P.faults }
        ensures could_fail { 0 < sum_by (λ s. s.faults.amount) seats.items → ¬ NeverFails P.may_fail }
        ensures stops { vec_len seats ≡ M.parts → 0 < sum_by (λ s. s.seen.amount) seats.items → 0 < sum_by (λ s. s.made.amount) seats.items }
    {
        let SinkState {
            sink,
            history,
            stop: _,
            fronts: _fronts,
            mut writes,
            mut faults,
            mut made,
            mut seen,
            of: _,
        } = self;
        let mut seats = seats;
        match seats.pop() {
            Some(first) => {
                let mut all = Shares::all(first, seats);
                writes.audit(&mut all.writes);
                faults.audit(&mut all.faults);
                made.audit(&mut all.made);
                seen.audit(&mut all.seen);
            }
            None => seats.destroy_empty(),
        }
        (sink, history)
    }
}

/// Memory for one more entry: room for it, and its path twice.
fn prepared(
    history: &mut Vec<Receipt>,
    alloc: Global,
    path: &[u64],
) -> Result<(Path, Path), AllocError>
    ensures paths { IfOk result (λ r. (r.0 ≡ path.now) × (r.1 ≡ path.now)) }
    ensures room { OnOk result (vec_len history.new < vec_capacity history.new) }
    ensures items { history.new.items ≡ history.old.items }
{
    let kept = Path::from_slice(alloc, path)?;
    let told = kept.clone()?;
    history.reserve(1)?;
    Ok((kept, told))
}

/// Puts an entry, for which there is room, behind the history.
fn put(history: &mut Vec<Receipt>, entry: Receipt)
    requires { vec_len history.old < vec_capacity history.old }
    ensures { history.new.items ≡ history.old.items ++ (entry ∷ []) }
{
    let Ok(()) = history.push(entry) else {
        unreachable!()
    };
}

/// 1, unless the event came before.
fn unless(before: bool) -> u64
    ensures { result + bit before ≡ 1 }
{
    if before { 0 } else { 1 }
}

/// The stop that is kept.
fn first_stop(
    stop: Option<(u64, WriteErrorName)>,
    column: u64,
    error: WriteErrorName,
) -> (u64, WriteErrorName)
    ensures { Some result ≡ (if is_some stop then stop else Some (column, error)) }
{
    stop.unwrap_or((column, error))
}

/// The last path of the history.
fn last_path(history: &[Receipt]) -> Option<&[u64]>
    ensures none { IfNone result (paths history.now ≡ []) }
    ensures some { IfSome result (λ q. IsLast (paths history.now) q.now) }
{
    let last = history.last()?;
    Some(last.path.as_slice())
}

/// What the path waits for.
fn smaller<'a>(
    fronts: &'a [Option<Path>],
    history: &'a [Receipt],
    column: usize,
    path: &[u64],
) -> Option<&'a [u64]>
    ensures none { IfNone result (NoneAhead fronts.now column path.now × IsNew (paths history.now) path.now) }
    ensures some { IfSome result (λ q. WaitsFor fronts.now (paths history.now) column path.now q.now) }
{
    if let Some(front) = least_ahead(fronts, column, path) {
        return Some(front);
    }
    let last = last_path(history)?;
    if path_le(path, last) {
        Some(last)
    } else {
        None
    }
}

/// Whether the second front is the later one.
fn is_later(front: &Option<Path>, than: &Option<Path>) -> bool
    ensures { later front.now than.now ≡ (if result then than.now else front.now) }
{
    match (front, than) {
        (None, _) => false,
        (Some(_), None) => true,
        (Some(p), Some(q)) => path_le(p.as_slice(), q.as_slice()),
    }
}

/// The columns' first fronts.
fn as_fronts(paths: Vec<Path>) -> Result<Vec<Option<Path>>, AllocError>
    ensures { IfOk result (λ v. v.items ≡ map (λ p. Some p) paths.items) }
{
    let mut fronts = Vec::with_capacity(*paths.allocator(), paths.len())?;
    for path in paths {
        fronts.push(Some(path))?;
    }
    Ok(fronts)
}

/// A seat for each part.
fn seats<W: Ledger, F: Ledger, M: Ledger, N: Ledger, P: Pairs>(
    alloc: Global,
    all: Shares<W, F, M, N>,
    count: usize,
) -> Result<Vec<Seat<W, F, M, N, P>>, AllocError>
    requires columns { count ≡ P.columns }
    requires parts { (all.writes.parts ≡ count) × (all.faults.parts ≡ count) × (all.made.parts ≡ count) × (all.seen.parts ≡ count) }
    requires none { (all.writes.amount ≡ 0) × (all.faults.amount ≡ 0) × (all.made.amount ≡ 0) × (all.seen.amount ≡ 0) }
    ensures count { IfOk result (λ v. vec_len v ≡ count) }
    ensures columns { IfOk result (λ v. map (λ s. s.column) v.items ≡ range_with_len 0 count) }
    ensures none { IfOk result (λ v. All (λ s. (s.writes.amount ≡ 0) × (s.faults.amount ≡ 0) × (s.made.amount ≡ 0) × (s.seen.amount ≡ 0)) v.items) }
{
    let mut all = all;
    let mut seats = Vec::with_capacity(alloc, count)?;
    for column in 0..count {
        let seat = Seat {
            column,
            faulted: false,
            stopped: false,
            told: false,
            writes: all.writes.split_off(1, 0),
            faults: all.faults.split_off(1, 0),
            made: all.made.split_off(1, 0),
            seen: all.seen.split_off(1, 0),
            of: PhantomData,
        };
        if let Err(failed) = seats.push(seat) {
            failed.value.spend();
            unreachable!()
        }
    }
    Ok(seats)
}
