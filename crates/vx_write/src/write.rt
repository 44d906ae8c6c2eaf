//! The one call that writes a stream.

ghost use Rattle.std.specs.Prelude.{◌≡◌, ◌+◌, ◌-◌, ◌≤◌, ◌^◌, max, Bool, List, Some, IfOk, IfErr, OnOk};
ghost use Rattle.vx_model.specs.ChunkData.{ChunkData};
ghost use Rattle.vx_layout_tree.specs.LayoutView.{layout_data};
ghost use Rattle.vx_plan.specs.Valid.{Valid};
ghost use Rattle.vx_fault.specs.Counts.{IsCalm};
ghost use Rattle.vx_fault.specs.Faults.{FaultsTold};
ghost use Rattle.vx_fault.specs.Told.{NoneTold};
ghost use Rattle.vx_sink.specs.ContextView.{is_marked, counted};
ghost use Rattle.vx_strategy.specs.StrategyView.{strategy_data};
ghost use Rattle.vx_write_answer.specs.declared.error.WriteError.TheVariants.{OutOfMemory};
ghost use Rattle.vx_write_answer.specs.Causes.{errs, is_source_fault, is_sink_fault, is_compress_fault};
ghost use Rattle.vx_machine.specs.Calls.{appends_in, calls_in};
ghost use Rattle.vx_machine.specs.Context.{setting_of};
ghost use Rattle.vx_plan.specs.Number.{segments};
ghost use Rattle.vx_write.specs.Traced.{tasks_of, Traced};
ghost use Rattle.vx_write.specs.NowhereStuck.{NowhereStuck};
ghost use Rattle.vx_write.specs.Written.{Planned, Wrote, Halted};
ghost use Rattle.vx_write.specs.Answer.{SameContext, steps_of, asked};
ghost use Rattle.vx_write.specs.Readable.{IsReadable};

use crate::lent::Lent;
use crate::tasks::write_tasks;
use std::alloc::Global;
use vx_layout_tree::Layout;
use vx_sink::{BatchSource, CompressorPlugin, LayoutWriterContext, SegmentSink};
use vx_strategy::Strategy;
use vx_write_answer::{Step, WriteError};

/// What a write gives: where its rows are, and the steps that it took.
#[derive(Debug, Drop)]
pub struct Written {
    pub layout: Layout,
    pub trace: Vec<Step>,
}

/// Why a write was refused, and the steps before.
#[derive(Debug, Drop)]
pub struct Refused {
    pub error: WriteError,
    pub trace: Vec<Step>,
}

/// Writes the source's batches by the strategy: appends their segments to the sink, and gives their layout.
///
/// The source's type is the schema. It is written by tasks, a step at a time; of those that are ready a pick of the schedule
/// takes the one at this place modulo their number, and past the schedule's end the first is taken. Layout and segments don't
/// depend on the schedule. It decides the trace, and how far a write comes that is refused: where several faults stand in the
/// stream, also which one comes. After a refusal earlier segments stand.
///
/// A step counts anew what changed, down to the task that acted, and what has an append that waits for its turn.
#[tactic(auto, using(crate::proofs::Unstuck::never_stuck))]
pub fn write_stream<B: BatchSource, S: SegmentSink, C: CompressorPlugin>(
    alloc: Global,
    strategy: &Strategy,
    ctx: &mut LayoutWriterContext,
    source: &mut B,
    sink: &mut S,
    schedule: &[u64],
    compressor: &mut C,
) -> Result<Written, Refused>
    // Ok gives the plan of all batches, from which their rows are read back, and comes of valid input alone.
    ensures wrote { IfOk result (λ w. Planned (setting_of ctx.old (C.image (C.kind compressor.old))) (strategy_data strategy.now) (B.kind source.old)
        (is_marked ctx.old) (B.to_come source.old)
        (Wrote (B.kind source.old) (S.next sink.old) (S.next sink.new) (S.segments sink.old) (S.segments sink.new) (layout_data w.layout))) }
    // Readers build the same layout of its bytes, and prune by its zone tables without a loss.
    ensures readable { IfOk result (λ w. Planned (setting_of ctx.old (C.image (C.kind compressor.old))) (strategy_data strategy.now) (B.kind source.old)
        (is_marked ctx.old) (B.to_come source.old)
        (λ xs p. IsReadable (setting_of ctx.old (C.image (C.kind compressor.old))) (B.kind source.old) (S.next sink.old) (segments p) (layout_data w.layout))) }
    ensures ended { OnOk result (NoneTold (B.to_come source.new)) }
    // Its steps are all those of the batches' tasks, as the schedule picks them.
    ensures trace { IfOk result (λ w. Traced (setting_of ctx.old (C.image (C.kind compressor.old))) (strategy_data strategy.now) (B.kind source.old)
        (is_marked ctx.old) (B.to_come source.old) schedule.now w.trace.items) }
    // After a refusal the segments appended are the first of the plan of the batches taken, the error has its cause there, the
    // steps are the first that the schedule picks, and the error is that of the act that it picks next.
    ensures halted { IfErr result (λ r. Halted (setting_of ctx.old (C.image (C.kind compressor.old))) (strategy_data strategy.now) (B.kind source.old)
        (is_marked ctx.old) (counted ctx.old) (S.next sink.old) (S.next sink.new) (B.to_come source.old) (B.to_come source.new) (S.segments sink.old) (S.segments sink.new)
        schedule.now r.trace.items r.error) }
    ensures appended { S.next sink.new ≡ S.next sink.old + appends_in (steps_of result) }
    // No segment has a number past the last.
    ensures last { S.next sink.new ≤ max (S.next sink.old) (2 ^ 32) }
    // A fault is told by its count and comes where it may, and no call that must fail is passed over.
    ensures source { FaultsTold (B.faults source.old) (B.faults source.new) (B.may_fail source.old) (B.must_fail source.old)
        (asked result) (errs (λ r. is_source_fault r.error) result) }
    ensures sink { FaultsTold (S.faults sink.old) (S.faults sink.new) (S.may_fail sink.old) (S.must_fail sink.old)
        (S.next sink.new - S.next sink.old) (errs (λ r. is_sink_fault r.error) result) }
    ensures compressor { FaultsTold (C.faults compressor.old) (C.faults compressor.new) (C.may_fail compressor.old) (C.must_fail compressor.old)
        (calls_in (steps_of result)) (errs (λ r. is_compress_fault r.error) result) }
    // Valid input, where nothing fails, gives Ok unless memory runs out.
    ensures complete { (xs : List ChunkData) → B.to_come source.old ≡ Some xs
        → Valid (setting_of ctx.old (C.image (C.kind compressor.old))) (strategy_data strategy.now) (B.kind source.old) (is_marked ctx.old)
        (S.next sink.old) (counted ctx.old) xs
        → IsCalm (B.faults source.old) (B.faults source.new) → IsCalm (S.faults sink.old) (S.faults sink.new)
        → IsCalm (C.faults compressor.old) (C.faults compressor.new) → IfErr result (λ r. r.error ≡ OutOfMemory) }
    // Whatever batches come and whatever is picked, it gets nowhere stuck: until all is done or an act is refused, a task is
    // ready, and each act leaves one less.
    ensures never_stuck { (xs : List ChunkData) (ended : Bool)
        → NowhereStuck (tasks_of (setting_of ctx.old (C.image (C.kind compressor.old))) (strategy_data strategy.now) (B.kind source.old) (is_marked ctx.old) xs ended) }
    // Ok or refused, nothing is held back any more.
    ensures same { SameContext ctx.old ctx.new × (B.kind source.new ≡ B.kind source.old) × (S.borrow sink.new ≡ S.borrow sink.old) × (C.kind compressor.new ≡ C.kind compressor.old) }
{
    let mut trace = Vec::new(alloc);
    let lent = Lent { sink: &mut *sink };
    let (written, Lent { sink: _sink }) = write_tasks(
        alloc, strategy, ctx, source, lent, schedule, compressor, &mut trace,
    );
    match written {
        Ok(layout) => Ok(Written { layout, trace }),
        Err(error) => Err(Refused { error, trace }),
    }
}
