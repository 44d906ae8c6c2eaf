//! A column's machine, stepped to its end: its segments are taken on to the shared sink, its front is raised, and its bytes are booked.

ghost use Rattle.std.specs.Prelude.{◌≡◌, ◌+◌, false, if◌then◌else◌, length, IfOk, IfErr, OnOk};
ghost use Rattle.vx_layout_tree.specs.LayoutView.{layout_data};
ghost use Rattle.vx_write_answer.specs.Causes.{is_sink_fault};
ghost use Rattle.vx_machine_view.specs.Machine.{is_finished};
ghost use Rattle.vx_column_machine.specs.View.{machine_of};
ghost use Rattle.vx_column_machine.specs.Course.{Course, plan_of};
ghost use Rattle.vx_column_machine.specs.Underway.{InBalance};
ghost use Rattle.vx_column_machine.specs.Causes.{IsDone, StepPressed};
ghost use Rattle.vx_column_worker.specs.Jobs.{AtWork};
ghost use Rattle.vx_column_worker.specs.Worked.{WorkerCause, SharedPast, SinkCause, MayWrite, SeatTold, PressedOnly, is_stopped, made_after};

use crate::names::name_of;
use crate::worker::Outcome;
use std::alloc::AllocError;
use std::sync::Wait;
use std::sync::ledger::Ledger;
use vx_column_machine::ColumnMachine;
use vx_path::owned::Path;
use vx_seats::{Pairs, Seat};
use vx_shared::{BytesSeat, OrderedSink, SharedBytesTracker};
use vx_sink::{BatchSource, CompressorPlugin, SegmentSink};
use vx_write_answer::WriteError;

/// Steps until the machine has finished or is refused; refused, the others are stopped, unless another's stop ended it.
///
/// Behind each step the front is raised, and then the bytes are booked. The first front is set as the sink is made, at or below the
/// machine's least path: so it is raised before the first step too.
pub(crate) fn steps<
    B: BatchSource + Drop,
    D: CompressorPlugin,
    S: SegmentSink,
    R: Wait,
    W: Ledger,
    F: Ledger,
    M: Ledger,
    N: Ledger,
    L: Ledger,
    P: Pairs,
>(
    rt: &R,
    sink: &OrderedSink<S, W, F, M, N, P>,
    tracker: &SharedBytesTracker<L>,
    seat: &mut Seat<W, F, M, N, P>,
    bytes: &mut BytesSeat<L>,
    mut machine: ColumnMachine<B>,
    compressor: &mut D,
) -> Outcome
    requires balance { InBalance B.may_fail machine }
    requires at_work { (x : Course) × AtWork B.to_come B.kind B.left P.pairs (D.image (D.kind compressor.old)) x machine }
    ensures done { IfOk result (λ r. (x : Course) → AtWork B.to_come B.kind B.left P.pairs (D.image (D.kind compressor.old)) x machine
        → IsDone (plan_of x) (layout_data r.0) r.1.items) }
    ensures writes { IfOk result (λ r. seat.new.writes.amount + length machine.paths.items ≡ seat.old.writes.amount + length r.1.items) }
    ensures refused { IfErr result (λ e. (x : Course) → AtWork B.to_come B.kind B.left P.pairs (D.image (D.kind compressor.old)) x machine
        → WorkerCause (SharedPast P.first (length P.pairs)) x e) }
    // It makes no stop but the refused column's own.
    ensures seat { SeatTold result seat.old.faults.amount seat.new.faults.amount (made_after result seat.old.made.amount) seat.new.made.amount seat.old.seen.amount seat.new.seen.amount }
    ensures column { seat.new.column ≡ seat.old.column }
    ensures kind { D.kind compressor.new ≡ D.kind compressor.old }
    ensures pressed { PressedOnly (D.faults compressor.old) (D.faults compressor.new) (D.may_fail compressor.old) result }
{
    let mut raised: Option<Path> = None;
    'steps: for _ in rt.forever() {
        let Ok(()) = raise(rt, sink, seat, &machine, &mut raised) else {
            give_up(
                rt,
                sink,
                tracker,
                seat,
                bytes,
                machine,
                &WriteError::OutOfMemory,
            );
            return Err(WriteError::OutOfMemory);
        };
        book(rt, tracker, bytes, machine.held());
        if machine.finished() {
            let Ok(done) = machine.finish_with_paths() else {
                stop_others(rt, sink, seat, &WriteError::OutOfMemory);
                return Err(WriteError::OutOfMemory);
            };
            return Ok(done);
        }
        match turn(rt, sink, seat, &mut machine, compressor) {
            Ok(()) => {}
            Err(error) => {
                give_up(rt, sink, tracker, seat, bytes, machine, &error);
                return Err(error);
            }
        }
    }
    unreachable!()
}

/// Stops the others, unless another's stop ended the column; then gives up all that its machine holds, and books nothing for it.
fn give_up<
    B: BatchSource + Drop,
    S: SegmentSink,
    R: Wait,
    W: Ledger,
    F: Ledger,
    M: Ledger,
    N: Ledger,
    L: Ledger,
    P: Pairs,
>(
    rt: &R,
    sink: &OrderedSink<S, W, F, M, N, P>,
    tracker: &SharedBytesTracker<L>,
    seat: &mut Seat<W, F, M, N, P>,
    bytes: &mut BytesSeat<L>,
    machine: ColumnMachine<B>,
    error: &WriteError,
)
    requires { InBalance B.may_fail machine }
    ensures made { seat.new.made.amount ≡ (if is_stopped error.now then seat.old.made.amount else 1) }
    ensures column { seat.new.column ≡ seat.old.column }
    ensures writes { seat.new.writes.amount ≡ seat.old.writes.amount }
    ensures faults { seat.new.faults.amount ≡ seat.old.faults.amount }
    ensures seen { seat.new.seen.amount ≡ seat.old.seen.amount }
{
    stop_others(rt, sink, seat, error);
    machine.refuse();
    book(rt, tracker, bytes, 0);
}

/// Stops the other columns, unless another's stop ended this one.
pub(crate) fn stop_others<
    S: SegmentSink,
    R: Wait,
    W: Ledger,
    F: Ledger,
    M: Ledger,
    N: Ledger,
    P: Pairs,
>(rt: &R, sink: &OrderedSink<S, W, F, M, N, P>, seat: &mut Seat<W, F, M, N, P>, error: &WriteError)
    ensures made { seat.new.made.amount ≡ (if is_stopped error.now then seat.old.made.amount else 1) }
    ensures column { seat.new.column ≡ seat.old.column }
    ensures writes { seat.new.writes.amount ≡ seat.old.writes.amount }
    ensures faults { seat.new.faults.amount ≡ seat.old.faults.amount }
    ensures seen { seat.new.seen.amount ≡ seat.old.seen.amount }
{
    let Some(name) = name_of(error) else {
        return;
    };
    sink.stop(rt, seat, name);
}

/// One step. A segment goes on to the shared sink.
fn turn<
    B: BatchSource + Drop,
    D: CompressorPlugin,
    S: SegmentSink,
    R: Wait,
    W: Ledger,
    F: Ledger,
    M: Ledger,
    N: Ledger,
    P: Pairs,
>(
    rt: &R,
    sink: &OrderedSink<S, W, F, M, N, P>,
    seat: &mut Seat<W, F, M, N, P>,
    machine: &mut ColumnMachine<B>,
    compressor: &mut D,
) -> Result<(), WriteError>
    requires balance { InBalance B.may_fail machine.old }
    requires going { is_finished (machine_of machine.old.machine) ≡ false }
    requires at_work { (x : Course) × AtWork B.to_come B.kind B.left P.pairs (D.image (D.kind compressor.old)) x machine.old }
    ensures balance { InBalance B.may_fail machine.new }
    ensures at_work { OnOk result ((x : Course) → AtWork B.to_come B.kind B.left P.pairs (D.image (D.kind compressor.old)) x machine.old
        → AtWork B.to_come B.kind B.left P.pairs (D.image (D.kind compressor.old)) x machine.new) }
    ensures writes { OnOk result (seat.new.writes.amount + length machine.old.paths.items ≡ seat.old.writes.amount + length machine.new.paths.items) }
    ensures refused { IfErr result (λ e. (x : Course) → AtWork B.to_come B.kind B.left P.pairs (D.image (D.kind compressor.old)) x machine.old
        → WorkerCause (SharedPast P.first (length P.pairs)) x e) }
    ensures seat { SeatTold result seat.old.faults.amount seat.new.faults.amount seat.old.made.amount seat.new.made.amount seat.old.seen.amount seat.new.seen.amount }
    ensures column { seat.new.column ≡ seat.old.column }
    ensures kind { D.kind compressor.new ≡ D.kind compressor.old }
    ensures pressed { StepPressed (D.faults compressor.old) (D.faults compressor.new) (D.may_fail compressor.old) (D.may_fail compressor.new) result }
{
    let written = machine.step(compressor)?;
    match written {
        Some(segment) => hand_on(rt, sink, seat, machine.paths(), segment.as_slice()),
        None => Ok(()),
    }
}

/// Raises the column's front to the least path that its machine holds, or to nothing where it holds none, unless it was raised there
/// last.
fn raise<
    B: BatchSource + Drop,
    S: SegmentSink,
    R: Wait,
    W: Ledger,
    F: Ledger,
    M: Ledger,
    N: Ledger,
    P: Pairs,
>(
    rt: &R,
    sink: &OrderedSink<S, W, F, M, N, P>,
    seat: &Seat<W, F, M, N, P>,
    machine: &ColumnMachine<B>,
    raised: &mut Option<Path>,
) -> Result<(), AllocError> {
    let front = machine.front()?;
    if stands_at(raised, &front) {
        return Ok(());
    }
    *raised = match &front {
        Some(path) => Some(path.clone()?),
        None => None,
    };
    sink.raise(rt, seat, front);
    Ok(())
}

/// Whether it was raised there last.
fn stands_at(raised: &Option<Path>, front: &Option<Path>) -> bool {
    match (raised, front) {
        (Some(last), Some(path)) => last == path,
        (None, None) => true,
        _ => false,
    }
}

/// Hands a segment on to the shared sink, at the last of the paths.
fn hand_on<S: SegmentSink, R: Wait, W: Ledger, F: Ledger, M: Ledger, N: Ledger, P: Pairs>(
    rt: &R,
    sink: &OrderedSink<S, W, F, M, N, P>,
    seat: &mut Seat<W, F, M, N, P>,
    paths: &[Path],
    segment: &[u8],
) -> Result<(), WriteError>
    requires { MayWrite P.pairs paths.now segment.now }
    ensures writes { OnOk result (seat.new.writes.amount ≡ seat.old.writes.amount + 1) }
    ensures refused { IfErr result (SinkCause (SharedPast P.first (length P.pairs))) }
    ensures seat { SeatTold result seat.old.faults.amount seat.new.faults.amount seat.old.made.amount seat.new.made.amount seat.old.seen.amount seat.new.seen.amount }
    ensures column { seat.new.column ≡ seat.old.column }
{
    let Some(path) = paths.last() else {
        // A segment has a path.
        unreachable!()
    };
    let _receipt = sink.write(rt, seat, path.as_slice(), segment)?;
    Ok(())
}

/// Books what its own tracker counts now.
fn book<R: Wait, L: Ledger>(
    rt: &R,
    tracker: &SharedBytesTracker<L>,
    bytes: &mut BytesSeat<L>,
    now: u64,
)
    ensures { bytes.new.held ≡ now }
{
    let held = bytes.held();
    if now > held {
        tracker.reserve(rt, bytes, now - held);
    } else if now < held {
        tracker.release(rt, bytes, held - now);
    }
}
