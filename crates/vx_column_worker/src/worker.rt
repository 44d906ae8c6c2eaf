//! A column's worker: a machine of its own at the column's ids, whose segments are taken on to the shared sink.

ghost use Rattle.std.specs.Prelude.{◌≡◌, ◌+◌, List, None, Some, length, IfOk, IfErr, IfSome, OnOk, IsSome};
ghost use Rattle.vx_model.specs.ChunkData.{ChunkData};
ghost use Rattle.vx_layout_tree.specs.LayoutView.{layout_data};
ghost use Rattle.vx_write_answer.specs.Causes.{is_sink_fault};
ghost use Rattle.vx_column_ids.specs.Outsets.{outset_of};
ghost use Rattle.vx_column_machine.specs.Course.{plan_of};
ghost use Rattle.vx_column_machine.specs.Causes.{IsDone};
ghost use Rattle.vx_column_worker.specs.Jobs.{JobFits, course_of};
ghost use Rattle.vx_column_worker.specs.Worked.{WorkerCause, SharedPast, SeatTold, SeatStopped, PressedOnly, made_after};

use crate::steps::{steps, stop_others};
use std::alloc::Global;
use std::mem;
use std::sync::Wait;
use std::sync::ledger::Ledger;
use vx_column_ids::ColumnPart;
use vx_column_inputs::Input;
use vx_column_machine::ColumnMachine;
use vx_fault::Fallible;
use vx_gate::{Gate, Gated};
use vx_layout_tree::Layout;
use vx_path::owned::Path;
use vx_seats::{Pairs, Seat};
use vx_shared::{BytesSeat, OrderedSink, SharedBytesTracker};
use vx_sink::{BatchSource, CompressorPlugin, ListSource, SegmentSink};
use vx_write_answer::WriteError;

/// What came of a column: its layout, whose segments are places in the list of their paths; or why it was refused.
pub type Outcome = Result<(Layout, Vec<Path>), WriteError>;

/// What a worker writes, at which ids, and by which compressor. It must be spent, as its part is.
pub struct Job<C> {
    pub column: u64,
    pub input: Input,
    pub part: ColumnPart,
    pub compressor: C,
}

/// What is left of a job.
pub struct Done<C> {
    pub compressor: C,
    pub outcome: Outcome,
}

/// A column's worker, with its seats at the sink and at the tracker. It must be spent, as they are.
pub struct Worker<
    C: CompressorPlugin,
    W: Ledger,
    F: Ledger,
    M: Ledger,
    N: Ledger,
    L: Ledger,
    P: Pairs,
> {
    pub seat: Seat<W, F, M, N, P>,
    pub bytes: BytesSeat<L>,
    pub job: Option<Job<C>>,
    pub done: Option<Done<C>>,
}

impl<C: CompressorPlugin, W: Ledger, F: Ledger, M: Ledger, N: Ledger, L: Ledger, P: Pairs> Worker<
    C,
    W,
    F,
    M,
    N,
    L,
    P,
> {
    /// Does its job. Refused, it stops the others, unless another's stop ended it; and its front is at its end.
    pub fn run<S: SegmentSink, G: Gate, R: Wait>(
        &mut self,
        rt: &R,
        alloc: Global,
        gate: &G,
        sink: &OrderedSink<S, W, F, M, N, P>,
        tracker: &SharedBytesTracker<L>,
    )
        requires free { self.old.done ≡ None }
        requires fits { IfSome self.old.job (λ j. JobFits P.pairs (C.image (C.kind j.compressor)) j.column j.input (outset_of j.part) (⟦<ListSource as BatchSource>⟧.kind j.input.source)
            (⟦<ListSource as Fallible>⟧.may_fail j.input.source) (⟦<ListSource as BatchSource>⟧.to_come j.input.source)
            (⟦<ListSource as BatchSource>⟧.left j.input.source)) }
        ensures done { IfSome self.old.job (λ j. IfSome self.new.done (λ d. (chunks : List ChunkData) → ⟦<ListSource as BatchSource>⟧.to_come j.input.source ≡ Some chunks
            → IfOk d.outcome (λ r. IsDone (plan_of (course_of (C.image (C.kind j.compressor)) j.column j.input chunks)) (layout_data r.0) r.1.items
            × (self.new.seat.writes.amount ≡ self.old.seat.writes.amount + length (plan_of (course_of (C.image (C.kind j.compressor)) j.column j.input chunks)).pairs)))) }
        ensures refused { IfSome self.old.job (λ j. IfSome self.new.done (λ d. (chunks : List ChunkData) → ⟦<ListSource as BatchSource>⟧.to_come j.input.source ≡ Some chunks
            → IfErr d.outcome (WorkerCause (SharedPast P.first (length P.pairs)) (course_of (C.image (C.kind j.compressor)) j.column j.input chunks)))) }
        ensures stopped { IfSome self.new.done (λ d. IfErr d.outcome (λ e. SeatStopped e (is_sink_fault e) self.old.seat.faults.amount self.new.seat.faults.amount
            self.old.seat.made.amount self.new.seat.made.amount self.old.seat.seen.amount self.new.seat.seen.amount)) }
        ensures unstopped { IfSome self.new.done (λ d. OnOk d.outcome ((self.new.seat.faults.amount ≡ self.old.seat.faults.amount)
            × (self.new.seat.made.amount ≡ self.old.seat.made.amount) × (self.new.seat.seen.amount ≡ self.old.seat.seen.amount))) }
        ensures ended { IfSome self.old.job (λ j. IsSome self.new.done) }
        ensures spent { self.new.job ≡ None }
        ensures kind { IfSome self.old.job (λ j. IfSome self.new.done (λ d. C.kind d.compressor ≡ C.kind j.compressor)) }
        // Its compressor failed only where the refusal says so.
        ensures pressed { IfSome self.old.job (λ j. IfSome self.new.done (λ d. PressedOnly (C.faults j.compressor) (C.faults d.compressor) (C.may_fail j.compressor) d.outcome)) }
        ensures column { self.new.seat.column ≡ self.old.seat.column }
    {
        let Some(job) = self.job.take() else {
            return;
        };
        let done = self.write(rt, alloc, gate, sink, tracker, job);
        sink.raise(rt, &self.seat, None);
        match mem::replace(&mut self.done, Some(done)) {
            None => {}
            Some(_) => unreachable!(),
        }
    }

    /// Writes the column, its compressor behind the gate. Refused, it stops the others, unless another's stop ended it.
    fn write<S: SegmentSink, G: Gate, R: Wait>(
        &mut self,
        rt: &R,
        alloc: Global,
        gate: &G,
        sink: &OrderedSink<S, W, F, M, N, P>,
        tracker: &SharedBytesTracker<L>,
        job: Job<C>,
    ) -> Done<C>
        requires { JobFits P.pairs (C.image (C.kind job.compressor)) job.column job.input (outset_of job.part) (⟦<ListSource as BatchSource>⟧.kind job.input.source)
            (⟦<ListSource as Fallible>⟧.may_fail job.input.source) (⟦<ListSource as BatchSource>⟧.to_come job.input.source)
            (⟦<ListSource as BatchSource>⟧.left job.input.source) }
        ensures done { (chunks : List ChunkData) → ⟦<ListSource as BatchSource>⟧.to_come job.input.source ≡ Some chunks
            → IfOk result.outcome (λ r. IsDone (plan_of (course_of (C.image (C.kind job.compressor)) job.column job.input chunks)) (layout_data r.0) r.1.items
            × (self.new.seat.writes.amount ≡ self.old.seat.writes.amount + length (plan_of (course_of (C.image (C.kind job.compressor)) job.column job.input chunks)).pairs)) }
        ensures refused { (chunks : List ChunkData) → ⟦<ListSource as BatchSource>⟧.to_come job.input.source ≡ Some chunks
            → IfErr result.outcome (WorkerCause (SharedPast P.first (length P.pairs)) (course_of (C.image (C.kind job.compressor)) job.column job.input chunks)) }
        ensures seat { SeatTold result.outcome self.old.seat.faults.amount self.new.seat.faults.amount (made_after result.outcome self.old.seat.made.amount) self.new.seat.made.amount
            self.old.seat.seen.amount self.new.seat.seen.amount }
        ensures column { self.new.seat.column ≡ self.old.seat.column }
        ensures same_job { self.new.job ≡ self.old.job }
        ensures same_done { self.new.done ≡ self.old.done }
        ensures kind { C.kind result.compressor ≡ C.kind job.compressor }
        ensures pressed { PressedOnly (C.faults job.compressor) (C.faults result.compressor) (C.may_fail job.compressor) result.outcome }
    {
        let Job {
            column,
            input,
            part,
            compressor,
        } = job;
        let mut gated = Gated {
            compressor,
            gate,
            column,
        };
        let outcome = self.run_machine(rt, alloc, sink, tracker, column, input, part, &mut gated);
        let Gated {
            compressor,
            gate: _,
            column: _,
        } = gated;
        Done {
            compressor,
            outcome,
        }
    }

    /// Begins the column's own machine at the part's ids, and steps it to its end. Refused, it stops the others, unless another's stop
    /// ended it.
    fn run_machine<D: CompressorPlugin, S: SegmentSink, R: Wait>(
        &mut self,
        rt: &R,
        alloc: Global,
        sink: &OrderedSink<S, W, F, M, N, P>,
        tracker: &SharedBytesTracker<L>,
        column: u64,
        input: Input,
        part: ColumnPart,
        compressor: &mut D,
    ) -> Outcome
        requires { JobFits P.pairs (D.image (D.kind compressor.old)) column input (outset_of part) (⟦<ListSource as BatchSource>⟧.kind input.source)
            (⟦<ListSource as Fallible>⟧.may_fail input.source) (⟦<ListSource as BatchSource>⟧.to_come input.source)
            (⟦<ListSource as BatchSource>⟧.left input.source) }
        ensures done { (chunks : List ChunkData) → ⟦<ListSource as BatchSource>⟧.to_come input.source ≡ Some chunks
            → IfOk result (λ r. IsDone (plan_of (course_of (D.image (D.kind compressor.old)) column input chunks)) (layout_data r.0) r.1.items
            × (self.new.seat.writes.amount ≡ self.old.seat.writes.amount + length (plan_of (course_of (D.image (D.kind compressor.old)) column input chunks)).pairs)) }
        ensures refused { (chunks : List ChunkData) → ⟦<ListSource as BatchSource>⟧.to_come input.source ≡ Some chunks
            → IfErr result (WorkerCause (SharedPast P.first (length P.pairs)) (course_of (D.image (D.kind compressor.old)) column input chunks)) }
        ensures seat { SeatTold result self.old.seat.faults.amount self.new.seat.faults.amount (made_after result self.old.seat.made.amount) self.new.seat.made.amount
            self.old.seat.seen.amount self.new.seat.seen.amount }
        ensures column { self.new.seat.column ≡ self.old.seat.column }
        ensures same_job { self.new.job ≡ self.old.job }
        ensures same_done { self.new.done ≡ self.old.done }
        ensures kind { D.kind compressor.new ≡ D.kind compressor.old }
        ensures pressed { PressedOnly (D.faults compressor.old) (D.faults compressor.new) (D.may_fail compressor.old) result }
    {
        vx_segment_spec::segments_read_back();
        vx_machine_view::conditions();
        let Input { way, source, ctx } = input;
        // No encoding is listed twice.
        ctx.array_ctx().ids();
        let begun = ColumnMachine::begin(alloc, way.strategy.strategy(), ctx, source, column, part);
        match begun {
            Ok(machine) => steps(
                rt,
                sink,
                tracker,
                &mut self.seat,
                &mut self.bytes,
                machine,
                compressor,
            ),
            Err(error) => {
                stop_others(rt, sink, &mut self.seat, &error);
                Err(error)
            }
        }
    }
}
