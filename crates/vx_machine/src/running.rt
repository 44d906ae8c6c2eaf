//! A machine from its start to its end.

ghost use Rattle.std.specs.Prelude.{◌≡◌, List, ℕ, [], slice_index, IfErr, MatchResult};
ghost use Rattle.vx_fault.specs.Faults.{FaultsTold};
ghost use Rattle.vx_machine_ids.specs.Stock.{none, both};
ghost use Rattle.vx_machine_ids.specs.Balance.{Owned, Moved, Exact};
ghost use Rattle.vx_write_answer.specs.Causes.{errs, is_source_fault, is_sink_fault, is_compress_fault};
ghost use Rattle.vx_machine.specs.Calls.{reads_in, appends_in, calls_in};
ghost use Rattle.vx_machine.specs.Names.{HasNames};
ghost use Rattle.vx_machine.specs.Run.{at, RunDone, RunTold};
ghost use Rattle.vx_machine.specs.View.{phase_of, machine_of};
ghost use Rattle.vx_sink.specs.ContextView.{counted};
ghost use Rattle.vx_machine_node.specs.Ledger.{told_by};
ghost use Rattle.vx_machine.specs.Whole.{machine_stock, machine_reserved, StepMay};

use crate::machine::Machine;
use crate::stepping::count_ready;
use vx_layout_tree::Layout;
use vx_order::Order;
use vx_sink::{BatchSource, CompressorPlugin, LayoutWriterContext};
use vx_write_answer::{Step, WriteError};

/// The pick of this place; past the schedule's end the first task.
fn pick_at(schedule: &[u64], place: usize) -> u64
    ensures { result ≡ slice_index schedule.now place }
{
    match schedule.get(place) {
        Some(pick) => *pick,
        None => 0,
    }
}

/// Steps by the schedule until the machine has finished or a step is refused. The steps that are done are put behind the
/// trace, which was empty; a step's place in it is the place of its pick.
///
/// Where all that is active is held by the machine, the steps of the trace lead from its start to its end, one after the
/// other, each as the machine in plain data says. `None` comes where no task is ready, which the laws of tasks rule out for a
/// machine that was started and stepped.
pub fn run<B: BatchSource, O: Order, C: CompressorPlugin>(
    mut machine: Machine,
    ctx: &mut LayoutWriterContext,
    source: &mut B,
    order: &mut O,
    compressor: &mut C,
    schedule: &[u64],
    trace: &mut Vec<Step>,
) -> Result<Option<Layout>, WriteError>
    requires owned { Owned (O.active order.old) (machine_stock machine) }
    requires unreserved { machine_reserved machine ≡ 0 }
    requires allowed { (o : O) (p b : List ℕ) → O.may_write o p b }
    requires enough { HasNames (phase_of machine.phase) (B.left source.old) }
    ensures moved { Moved (O.active order.old) (O.active order.new) (machine_stock machine) none }
    ensures kind { B.kind source.new ≡ B.kind source.old }
    ensures source { trace.old.items ≡ [] → FaultsTold (B.faults source.old) (B.faults source.new) (B.may_fail source.old) (B.must_fail source.old)
        (reads_in trace.new.items) (errs is_source_fault result) }
    ensures sink { trace.old.items ≡ [] → FaultsTold (O.Sink.faults (O.sink order.old)) (O.Sink.faults (O.sink order.new)) (O.Sink.may_fail (O.sink order.old)) (O.Sink.must_fail (O.sink order.old))
        (appends_in trace.new.items) (errs is_sink_fault result) }
    ensures pressed { trace.old.items ≡ [] → FaultsTold (C.faults compressor.old) (C.faults compressor.new) (C.may_fail compressor.old) (C.must_fail compressor.old)
        (calls_in trace.new.items) (errs is_compress_fault result) }
    ensures cause { IfErr result StepMay }
    ensures ran { trace.old.items ≡ [] → Exact (O.active order.old) (machine_stock machine)
        → MatchResult result
        (RunDone ctx.old (C.image (C.kind compressor.old)) (B.kind source.old) schedule.now (at (machine_of machine) (B.to_come source.old) (O.outlet order.old)) trace.new.items (B.to_come source.new) (O.outlet order.new))
        (RunTold ctx.old (C.image (C.kind compressor.old)) (B.kind source.old) schedule.now (at (machine_of machine) (B.to_come source.old) (O.outlet order.old)) trace.new.items (B.to_come source.new) (O.outlet order.new)
        (B.must_fail source.old)) }
    // Behind it the tracker counts what it did.
    ensures tracked { counted ctx.new ≡ counted ctx.old }
    ensures context { told_by ctx.new ≡ told_by ctx.old }
    ensures compressor { C.kind compressor.new ≡ C.kind compressor.old }
{
    'steps: loop {
        if machine.finished() {
            return Ok(Some(machine.finish()));
        }
        let lent = &mut machine;
        let Ok(ready) = count_ready(lent.alloc, &lent.phase, &lent.root, order, &mut lent.counts)
        else {
            machine.refuse(ctx, order);
            return Err(WriteError::OutOfMemory);
        };
        if ready == 0 {
            machine.refuse(ctx, order);
            return Ok(None);
        }
        if let Err(_) = trace.reserve(1) {
            machine.refuse(ctx, order);
            return Err(WriteError::OutOfMemory);
        }
        let pick = pick_at(schedule, trace.len());
        match machine.step_counted(ready, pick, ctx, source, order, compressor) {
            Ok(step) => trace.push_reserved(step),
            Err(error) => {
                machine.refuse(ctx, order);
                return Err(error);
            }
        }
    }
}
