//! The workers: hired, run and dismissed.

ghost use Rattle.std.specs.Prelude.{◌≡◌, ◌+◌, ◌<◌, ◌≤◌, ◌++◌, ◌∷◌, ℕ, [], None, Some, map, length, slice_index_or, vec_len, All, IfSome, IsSome, option_map};
ghost use Rattle.std.specs.List.{AllZip};
ghost use Rattle.std.specs.Vec.{vec_capacity};
ghost use Rattle.vx_column_worker.specs.Staffed.{IsStaffed, HasRoom, MayRun, HasRun, jobs_from};

use crate::worker::{Done, Job, Outcome, Worker};
use std::alloc::Global;
use std::sync::Wait;
use std::sync::ledger::Ledger;
use std::thread;
use std::thread::Threads;
use vx_column_ids::ColumnPart;
use vx_column_inputs::Input;
use vx_gate::Gate;
use vx_seats::{Pairs, Seat};
use vx_shared::{BytesSeat, OrderedSink, SharedBytesTracker};
use vx_sink::{CompressorPlugin, SegmentSink};

/// What workers are given besides, and give back, in order of the columns.
pub struct Staff<C, W: Ledger, F: Ledger, M: Ledger, N: Ledger, L: Ledger, P: Pairs> {
    pub seats: Vec<Seat<W, F, M, N, P>>,
    pub bytes: Vec<BytesSeat<L>>,
    pub compressors: Vec<C>,
    /// Has room for one a column.
    pub outcomes: Vec<Outcome>,
}

/// Runs the workers, each in a thread of its own, and waits for them all.
pub fn run_workers<
    S: SegmentSink + Send,
    C: CompressorPlugin + Send,
    G: Gate + Sync,
    R: Threads + Wait + Sync,
    W: Ledger + Send + Sync,
    F: Ledger + Send + Sync,
    M: Ledger + Send + Sync,
    N: Ledger + Send + Sync,
    L: Ledger + Send + Sync,
    P: Pairs + Send + Sync,
>(
    rt: &R,
    alloc: Global,
    gate: &G,
    sink: &OrderedSink<S, W, F, M, N, P>,
    tracker: &SharedBytesTracker<L>,
    workers: &mut Vec<Worker<C, W, F, M, N, L, P>>,
)
    requires some { 0 < vec_len workers.old }
    requires may { All (λ w. MayRun P.pairs C.image C.kind w.job w.done) workers.old.items }
    ensures count { vec_len workers.new ≡ vec_len workers.old }
    ensures each { AllZip (λ a b. HasRun C.image C.kind C.faults C.may_fail P.first (length P.pairs) a.job b.job
        (record { writes = a.seat.writes.amount; faults = a.seat.faults.amount; made = a.seat.made.amount; seen = a.seat.seen.amount })
        (record { writes = b.seat.writes.amount; faults = b.seat.faults.amount; made = b.seat.made.amount; seen = b.seat.seen.amount }) b.done) workers.old.items workers.new.items }
{
    let threads = workers.len();
    run_each(
        rt,
        alloc,
        gate,
        sink,
        tracker,
        workers.as_mut_slice(),
        threads,
    );
}

/// The same, place by place.
fn run_each<
    S: SegmentSink + Send,
    C: CompressorPlugin + Send,
    G: Gate + Sync,
    R: Threads + Wait + Sync,
    W: Ledger + Send + Sync,
    F: Ledger + Send + Sync,
    M: Ledger + Send + Sync,
    N: Ledger + Send + Sync,
    L: Ledger + Send + Sync,
    P: Pairs + Send + Sync,
>(
    rt: &R,
    alloc: Global,
    gate: &G,
    sink: &OrderedSink<S, W, F, M, N, P>,
    tracker: &SharedBytesTracker<L>,
    workers: &mut [Worker<C, W, F, M, N, L, P>],
    threads: usize,
)
    requires some { 0 < threads }
    requires may { All (λ w. MayRun P.pairs C.image C.kind w.job w.done) workers.old }
    ensures count { length workers.new ≡ length workers.old }
    ensures each { (i : ℕ) (d : _) → i < length workers.old
        → HasRun C.image C.kind C.faults C.may_fail P.first (length P.pairs) (slice_index_or workers.old i d).job (slice_index_or workers.new i d).job
        (record {
          writes = (slice_index_or workers.old i d).seat.writes.amount;
          faults = (slice_index_or workers.old i d).seat.faults.amount;
          made = (slice_index_or workers.old i d).seat.made.amount;
          seen = (slice_index_or workers.old i d).seat.seen.amount;
        })
        (record {
          writes = (slice_index_or workers.new i d).seat.writes.amount;
          faults = (slice_index_or workers.new i d).seat.faults.amount;
          made = (slice_index_or workers.new i d).seat.made.amount;
          seen = (slice_index_or workers.new i d).seat.seen.amount;
        }) (slice_index_or workers.new i d).done }
{
    let run = |_place: usize, worker: &mut Worker<C, W, F, M, N, L, P>|
        requires { MayRun P.pairs C.image C.kind worker.now.job worker.now.done }
        ensures { HasRun C.image C.kind C.faults C.may_fail P.first (length P.pairs) worker.entry.now.job worker.exit.now.job
            (record {
              writes = worker.entry.now.seat.writes.amount;
              faults = worker.entry.now.seat.faults.amount;
              made = worker.entry.now.seat.made.amount;
              seen = worker.entry.now.seat.seen.amount;
            })
            (record { writes = worker.exit.now.seat.writes.amount; faults = worker.exit.now.seat.faults.amount; made = worker.exit.now.seat.made.amount; seen = worker.exit.now.seat.seen.amount })
            worker.exit.now.done }
    { run_one(rt, alloc, gate, sink, tracker, worker) };
    thread::for_each_mut(rt, workers, threads, &run);
}

/// A worker does its job.
fn run_one<
    S: SegmentSink,
    C: CompressorPlugin,
    G: Gate,
    R: Wait,
    W: Ledger,
    F: Ledger,
    M: Ledger,
    N: Ledger,
    L: Ledger,
    P: Pairs,
>(
    rt: &R,
    alloc: Global,
    gate: &G,
    sink: &OrderedSink<S, W, F, M, N, P>,
    tracker: &SharedBytesTracker<L>,
    worker: &mut Worker<C, W, F, M, N, L, P>,
)
    requires { MayRun P.pairs C.image C.kind worker.old.job worker.old.done }
    ensures { HasRun C.image C.kind C.faults C.may_fail P.first (length P.pairs) worker.old.job worker.new.job
        (record { writes = worker.old.seat.writes.amount; faults = worker.old.seat.faults.amount; made = worker.old.seat.made.amount; seen = worker.old.seat.seen.amount })
        (record { writes = worker.new.seat.writes.amount; faults = worker.new.seat.faults.amount; made = worker.new.seat.made.amount; seen = worker.new.seat.seen.amount }) worker.new.done }
{
    worker.run(rt, alloc, gate, sink, tracker);
}

/// A worker a column, in order, each with its ids, a compressor, a seat at the sink and one at the tracker.
pub fn hire<C: CompressorPlugin, W: Ledger, F: Ledger, M: Ledger, N: Ledger, L: Ledger, P: Pairs>(
    room: Vec<Worker<C, W, F, M, N, L, P>>,
    mut inputs: Vec<Input>,
    mut parts: Vec<ColumnPart>,
    staff: &mut Staff<C, W, F, M, N, L, P>,
) -> Vec<Worker<C, W, F, M, N, L, P>>
    requires room { (vec_len room ≡ 0) × (vec_len inputs ≤ vec_capacity room) }
    requires count { IsStaffed (vec_len inputs) staff.old.seats staff.old.bytes staff.old.compressors }
    requires parts { vec_len parts ≡ vec_len inputs }
    ensures count { vec_len result ≡ vec_len inputs }
    ensures seats { map (λ w. w.seat) result.items ≡ staff.old.seats.items }
    ensures bytes { map (λ w. w.bytes) result.items ≡ staff.old.bytes.items }
    ensures jobs { map (λ w. w.job) result.items ≡ map Some (jobs_from 0 inputs.items parts.items staff.old.compressors.items) }
    ensures free { All (λ w. w.done ≡ None) result.items }
    ensures left { IsStaffed 0 staff.new.seats staff.new.bytes staff.new.compressors × HasRoom (vec_len inputs) staff.new.seats staff.new.bytes staff.new.compressors }
    ensures outcomes { staff.new.outcomes ≡ staff.old.outcomes }
{
    let mut workers = room;
    'hired: while let Some(input) = inputs.pop() {
        let column = inputs.len() as u64;
        let part = last_of(&mut parts);
        let compressor = last_of(&mut staff.compressors);
        let seat = last_of(&mut staff.seats);
        let bytes = last_of(&mut staff.bytes);
        workers.push_reserved(Worker {
            seat,
            bytes,
            job: Some(Job {
                column,
                input,
                part,
                compressor,
            }),
            done: None,
        });
    }
    parts.destroy_empty();
    workers.reverse();
    workers
}

/// Takes the last.
fn last_of<T>(list: &mut Vec<T>) -> T
    requires { 0 < vec_len list.old }
    ensures items { list.old.items ≡ list.new.items ++ (result ∷ []) }
    ensures len { vec_len list.new + 1 ≡ vec_len list.old }
    ensures capacity { vec_capacity list.new ≡ vec_capacity list.old }
{
    match list.pop() {
        Some(last) => last,
        None => unreachable!(),
    }
}

/// Seats and compressors come back in order of the columns, and what came of each.
pub fn dismiss<
    C: CompressorPlugin,
    W: Ledger,
    F: Ledger,
    M: Ledger,
    N: Ledger,
    L: Ledger,
    P: Pairs,
>(mut workers: Vec<Worker<C, W, F, M, N, L, P>>, staff: &mut Staff<C, W, F, M, N, L, P>)
    requires ended { All (λ w. (w.job ≡ None) × IsSome w.done) workers.items }
    requires none { IsStaffed 0 staff.old.seats staff.old.bytes staff.old.compressors × (vec_len staff.old.outcomes ≡ 0) }
    requires room { HasRoom (vec_len workers) staff.old.seats staff.old.bytes staff.old.compressors × (vec_len workers ≤ vec_capacity staff.old.outcomes) }
    ensures seats { staff.new.seats.items ≡ map (λ w. w.seat) workers.items }
    ensures bytes { staff.new.bytes.items ≡ map (λ w. w.bytes) workers.items }
    ensures compressors { map Some staff.new.compressors.items ≡ map (λ w. option_map (λ d. d.compressor) w.done) workers.items }
    ensures outcomes { map Some staff.new.outcomes.items ≡ map (λ w. option_map (λ d. d.outcome) w.done) workers.items }
    ensures count { (vec_len staff.new.seats ≡ vec_len workers) × (vec_len staff.new.outcomes ≡ vec_len workers) }
{
    workers.reverse();
    'dismissed: while let Some(worker) = workers.pop() {
        let Worker {
            seat,
            bytes,
            job,
            done,
        } = worker;
        staff.seats.push_reserved(seat);
        staff.bytes.push_reserved(bytes);
        let left = ended(job, done);
        let Done {
            compressor,
            outcome,
        } = left;
        staff.compressors.push_reserved(compressor);
        staff.outcomes.push_reserved(outcome);
    }
    workers.destroy_empty();
}

/// What is left of a job that is done.
fn ended<C>(job: Option<Job<C>>, done: Option<Done<C>>) -> Done<C>
    requires none { job ≡ None }
    requires some { IsSome done }
    ensures { done ≡ Some result }
{
    match (job, done) {
        (None, Some(done)) => done,
        _ => unreachable!(),
    }
}
