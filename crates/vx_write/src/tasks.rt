//! A write by tasks, over ids and an order of its own.

ghost use Rattle.std.specs.Prelude.{◌≡◌, ◌+◌, ◌≤◌, ◌^◌, max, List, ℕ, [], Some, IfOk, IfErr, OnOk};
ghost use Rattle.vx_model.specs.ChunkData.{ChunkData};
ghost use Rattle.vx_layout_tree.specs.LayoutView.{layout_data};
ghost use Rattle.vx_plan.specs.Valid.{Valid};
ghost use Rattle.vx_fault.specs.Counts.{IsCalm};
ghost use Rattle.vx_fault.specs.Faults.{FaultsTold};
ghost use Rattle.vx_fault.specs.Told.{NoneTold};
ghost use Rattle.vx_sink.specs.ContextView.{is_marked, counted};
ghost use Rattle.vx_sequence.specs.Universe.{root};
ghost use Rattle.vx_strategy.specs.StrategyView.{strategy_data};
ghost use Rattle.vx_machine_ids.specs.Stock.{end_stock};
ghost use Rattle.vx_machine_ids.specs.Balance.{Owned, Exact};
ghost use Rattle.vx_write_answer.specs.declared.error.WriteError.TheVariants.{OutOfMemory};
ghost use Rattle.vx_write_answer.specs.Causes.{errs, is_source_fault, is_sink_fault, is_compress_fault};
ghost use Rattle.vx_machine.specs.Calls.{reads_in, appends_in, calls_in, asked_by};
ghost use Rattle.vx_machine.specs.Context.{setting_of};
ghost use Rattle.vx_plan.specs.Number.{segments};
ghost use Rattle.vx_write.specs.Traced.{Traced};
ghost use Rattle.vx_write.specs.Written.{Planned, Wrote, Halted};
ghost use Rattle.vx_write.specs.Answer.{SameContext, AnsweredTold};
ghost use Rattle.vx_write.specs.Readable.{IsReadable};

use std::alloc::Global;
use vx_layout_tree::Layout;
use vx_machine::{Machine, give_up_pointer, run, take_below};
use vx_order::{LocalOrder, Order};
use vx_sequence::{SequenceId, SequencePointer};
use vx_sink::{BatchSource, CompressorPlugin, LayoutWriterContext, SegmentSink};
use vx_strategy::Strategy;
use vx_write_answer::{Step, WriteError};

/// Writes the source's batches into the sink, which is handed back: starts a machine over ids and an order of its own, and
/// runs it by the schedule. The steps that are done are put into the list.
#[tactic(auto, using(crate::proofs::WriteSteps::write_rules))]
pub(crate) fn write_tasks<B: BatchSource, S: SegmentSink, C: CompressorPlugin>(
    alloc: Global,
    strategy: &Strategy,
    ctx: &mut LayoutWriterContext,
    source: &mut B,
    sink: S,
    schedule: &[u64],
    compressor: &mut C,
    steps: &mut Vec<Step>,
) -> (Result<Layout, WriteError>, S)
    requires { steps.old.items ≡ [] }
    ensures wrote { IfOk result.0 (λ l. Planned (setting_of ctx.old (C.image (C.kind compressor.old))) (strategy_data strategy.now) (B.kind source.old)
        (is_marked ctx.old) (B.to_come source.old)
        (Wrote (B.kind source.old) (S.next sink) (S.next result.1) (S.segments sink) (S.segments result.1) (layout_data l))) }
    ensures readable { IfOk result.0 (λ l. Planned (setting_of ctx.old (C.image (C.kind compressor.old))) (strategy_data strategy.now) (B.kind source.old)
        (is_marked ctx.old) (B.to_come source.old)
        (λ xs p. IsReadable (setting_of ctx.old (C.image (C.kind compressor.old))) (B.kind source.old) (S.next sink) (segments p) (layout_data l))) }
    ensures ended { OnOk result.0 (NoneTold (B.to_come source.new)) }
    ensures trace { OnOk result.0 (Traced (setting_of ctx.old (C.image (C.kind compressor.old))) (strategy_data strategy.now) (B.kind source.old)
        (is_marked ctx.old) (B.to_come source.old) schedule.now steps.new.items) }
    ensures halted { IfErr result.0 (Halted (setting_of ctx.old (C.image (C.kind compressor.old))) (strategy_data strategy.now) (B.kind source.old)
        (is_marked ctx.old) (counted ctx.old) (S.next sink) (S.next result.1) (B.to_come source.old) (B.to_come source.new) (S.segments sink) (S.segments result.1)
        schedule.now steps.new.items) }
    ensures appended { S.next result.1 ≡ S.next sink + appends_in steps.new.items }
    ensures last { S.next result.1 ≤ max (S.next sink) (2 ^ 32) }
    ensures source { FaultsTold (B.faults source.old) (B.faults source.new) (B.may_fail source.old) (B.must_fail source.old)
        (asked_by result.0 steps.new.items) (errs is_source_fault result.0) }
    ensures sink { FaultsTold (S.faults sink) (S.faults result.1) (S.may_fail sink) (S.must_fail sink)
        (appends_in steps.new.items) (errs is_sink_fault result.0) }
    ensures compressor { FaultsTold (C.faults compressor.old) (C.faults compressor.new) (C.may_fail compressor.old) (C.must_fail compressor.old)
        (calls_in steps.new.items) (errs is_compress_fault result.0) }
    ensures complete { (xs : List ChunkData) → B.to_come source.old ≡ Some xs
        → Valid (setting_of ctx.old (C.image (C.kind compressor.old))) (strategy_data strategy.now) (B.kind source.old) (is_marked ctx.old)
        (S.next sink) (counted ctx.old) xs
        → IsCalm (B.faults source.old) (B.faults source.new) → IsCalm (S.faults sink) (S.faults result.1)
        → IsCalm (C.faults compressor.old) (C.faults compressor.new) → IfErr result.0 (λ e. e ≡ OutOfMemory) }
    ensures borrow { S.borrow result.1 ≡ S.borrow sink }
    ensures same { SameContext ctx.old ctx.new × (B.kind source.new ≡ B.kind source.old) × (C.kind compressor.new ≡ C.kind compressor.old) }
{
    crate::laws::answers();
    vx_setting::real_settings_keep();
    vx_prune_laws::pruning_keeps_rows();
    vx_parse_back_laws::written_is_parsed();
    // No encoding is listed twice.
    ctx.array_ctx().ids();
    let Ok((universe, eof)) = SequenceId::root(alloc) else {
        return (Err(WriteError::OutOfMemory), sink);
    };
    let mut order = LocalOrder::new(sink, universe);
    let written = write_in(
        alloc, strategy, ctx, source, &mut order, eof, schedule, compressor, steps,
    );
    let sink = order.into_sink();
    match written {
        Ok(Some(layout)) => (Ok(layout), sink),
        // Something is ready until the machine has finished.
        Ok(None) => unreachable!(),
        Err(error) => (Err(error), sink),
    }
}

/// The same in an order, from a pointer that is given up by the end.
#[tactic(auto, using(crate::proofs::WriteSteps::write_rules))]
fn write_in<B: BatchSource, O: Order, C: CompressorPlugin>(
    alloc: Global,
    strategy: &Strategy,
    ctx: &mut LayoutWriterContext,
    source: &mut B,
    order: &mut O,
    mut eof: SequencePointer,
    schedule: &[u64],
    compressor: &mut C,
    steps: &mut Vec<Step>,
) -> Result<Option<Layout>, WriteError>
    requires owned { Owned (O.active order.old) (end_stock eof) }
    requires first { eof.last ≡ 0 }
    requires allowed { (o : O) (p b : List ℕ) → O.may_write o p b }
    requires empty { steps.old.items ≡ [] }
    ensures source { FaultsTold (B.faults source.old) (B.faults source.new) (B.may_fail source.old) (B.must_fail source.old)
        (reads_in steps.new.items) (errs is_source_fault result) }
    ensures sink { FaultsTold (O.Sink.faults (O.sink order.old)) (O.Sink.faults (O.sink order.new)) (O.Sink.may_fail (O.sink order.old)) (O.Sink.must_fail (O.sink order.old))
        (appends_in steps.new.items) (errs is_sink_fault result) }
    ensures compressor { FaultsTold (C.faults compressor.old) (C.faults compressor.new) (C.may_fail compressor.old) (C.must_fail compressor.old)
        (calls_in steps.new.items) (errs is_compress_fault result) }
    ensures ran { eof ≡ root → Exact (O.active order.old) (end_stock eof)
        → AnsweredTold ctx.old (C.image (C.kind compressor.old)) (strategy_data strategy.now) (B.kind source.old) schedule.now (B.to_come source.old) (O.outlet order.old) steps.new.items (B.to_come source.new)
        (O.outlet order.new) (B.must_fail source.old) result }
    ensures same { SameContext ctx.old ctx.new × (B.kind source.new ≡ B.kind source.old) × (C.kind compressor.new ≡ C.kind compressor.old) }
{
    let stream = match take_below(order, &mut eof) {
        Ok(stream) => stream,
        Err(error) => {
            give_up_pointer(order, eof);
            return Err(WriteError::from(error));
        }
    };
    let machine = Machine::start(alloc, strategy, source.dtype(), ctx, order, stream, eof)?;
    run(machine, ctx, source, order, compressor, schedule, steps)
}
