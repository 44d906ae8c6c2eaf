//! A machine's start, its steps and its end.

ghost use Rattle.std.specs.Prelude.{◌≡◌, ◌+◌, ◌<◌, ◌≤◌, ◌%◌, [], ◌∷◌, IsTrue, IfOk, IfErr, OnOk, OnErr};
ghost use Rattle.std.specs.FinMap as fin;
ghost use Rattle.std.specs.Arc.{arc_value};
ghost use Rattle.vx_model.specs.TyView.{ty};
ghost use Rattle.vx_named_tasks.specs.Names.{onward, handed};
ghost use Rattle.vx_kept.specs.Kept.{Fresh, Knows};
ghost use Rattle.vx_layout_tree.specs.LayoutView.{layout_data};
ghost use Rattle.vx_machine_ids.specs.Stock.{none, both, end_stock, ids_stock, ok_stock, one as one_if};
ghost use Rattle.vx_machine_ids.specs.Balance.{Owned, Moved, Exact, IsNone};
ghost use Rattle.vx_machine_state.specs.State.{no_tasks};
ghost use Rattle.vx_machine_state.specs.Start.{first_indices};
ghost use Rattle.vx_machine_state.specs.Acts.{layouts_in};
ghost use Rattle.vx_machine_view.specs.Machine.{is_finished as has_finished};
ghost use Rattle.vx_machine_view.specs.Places.{whole_ready};
ghost use Rattle.vx_strategy.specs.StrategyView.{strategy_data};
ghost use Rattle.vx_sink.specs.ContextView.{is_marked, counted as counted_bytes, allowed_in};
ghost use Rattle.vx_machine_node.specs.Ledger.{Paid, told_by};
ghost use Rattle.vx_machine_nodes.specs.Calls.{SinkTold, PressTold};
ghost use Rattle.vx_machine.specs.Calls.{SourceTold, LeavesFewer, reads_at};
ghost use Rattle.vx_machine_node.specs.Causes.{StartMay};
ghost use Rattle.vx_machine_node.specs.Context.{setting_of};
ghost use Rattle.vx_machine_node.specs.Outcome.{Kept};
ghost use Rattle.vx_machine_tasks.specs.Pairs.{task_pairs, AllMay};
ghost use Rattle.vx_machine_task.specs.Ready.{is_done as is_done_task, counted, ready_in};
ghost use Rattle.vx_machine.specs.Names.{names_stock, names_of, HasNames};
ghost use Rattle.vx_machine.specs.Source.{SourceMay, phase_stock};
ghost use Rattle.vx_machine.specs.SourceActs.{SourceActed, SourceRefused};
ghost use Rattle.vx_machine_tasks.specs.Starting.{IsAllowed, Counted, Started, FormRefused};
ghost use Rattle.vx_machine.specs.Starting.{machine_at};
ghost use Rattle.vx_machine.specs.Progress.{Begins, NeverStuck, IsFront, StepsOn};
ghost use Rattle.vx_machine.specs.Steps.{StepDone, StepFails};
ghost use Rattle.vx_machine_task.specs.Stocks.{task_stock};
ghost use Rattle.vx_machine_node.specs.View.{form_of};
ghost use Rattle.vx_machine_task.specs.View.{task_row, row};
ghost use Rattle.vx_machine.specs.View.{phase_of, machine_of};
ghost use Rattle.vx_machine_task.specs.declared.task.Task.{out-Task};
ghost use Rattle.vx_machine.specs.Whole.{machine_stock, machine_reserved, machine_ready, may_source as may_act, has_closed as is_closed, is_finished, StepMay};

use crate::machine::Machine;
use crate::names::{Names, give_up_names};
use crate::source::{Phase, act_source, give_up_phase};
use std::alloc::{AllocError, Global};
use std::collections::VecDeque;
use std::mem;
use std::sync::Arc;
use vx_kept::Counts;
use vx_layout_tree::Layout;
use vx_machine_ids::give_up_pointer;
use vx_machine_task::{Task, one};
use vx_machine_tasks::{start_task, step};
use vx_model::DType;
use vx_order::Order;
use vx_path::owned::Path;
use vx_sequence::{SequenceId, SequencePointer};
use vx_sink::{BatchSource, CompressorPlugin, LayoutWriterContext};
use vx_strategy::Strategy;
use vx_write_answer::{ActionKind, Step, WriteError};

/// What the root starts with.
fn root_parts(alloc: Global, dtype: &DType) -> Result<(Path, Arc<DType>), WriteError>
    ensures parts { IfOk result (λ r. (r.0 ≡ 1 ∷ []) × (ty (arc_value r.1) ≡ ty dtype.now)) }
    ensures memory { IfErr result (λ e. e ≡ WriteError.OutOfMemory) }
{
    let name = Path::child(alloc, &[], 1)?;
    let dtype = Arc::new(alloc, dtype.clone()?)?;
    Ok((name, dtype))
}

/// The root's task.
fn start_root<O: Order>(
    alloc: Global,
    strategy: &Strategy,
    dtype: &DType,
    ctx: &LayoutWriterContext,
    order: &mut O,
    eof: SequencePointer,
) -> Result<Task, WriteError>
    requires { Owned (O.active order.old) (end_stock eof) }
    ensures moved { Moved (O.active order.old) (O.active order.new) (end_stock eof) (ok_stock task_stock result) }
    ensures outlet { O.outlet order.new ≡ O.outlet order.old }
    ensures sink { O.sink order.new ≡ O.sink order.old }
    ensures cause { IfErr result StartMay }
    ensures shows { IfOk result (Started (allowed_in ctx.now) (form_of strategy.now dtype.now) (is_marked ctx.now) (1 ∷ []) eof) }
    ensures refused { IfErr result (FormRefused (allowed_in ctx.now) (form_of strategy.now dtype.now) (is_marked ctx.now) eof) }
{
    match root_parts(alloc, dtype) {
        Ok((name, dtype)) => {
            let marked = ctx.has_nullable_ancestor();
            start_task(alloc, ctx, order, strategy, dtype, marked, name, eof)
        }
        Err(error) => {
            give_up_pointer(order, eof);
            Err(error)
        }
    }
}

fn has_closed(phase: &Phase) -> bool
    ensures { result ≡ is_closed phase.now }
{
    match phase {
        Phase::Finished => true,
        Phase::Reading(_) | Phase::Giving(_, _) | Phase::Closing => false,
    }
}

fn source_may(phase: &Phase, root: &Task) -> bool
    ensures { result ≡ may_act phase.now root.now }
{
    match phase {
        Phase::Reading(_) | Phase::Closing => true,
        Phase::Giving(_, _) => root.head.inbox.len() < root.head.places,
        Phase::Finished => false,
    }
}

/// How many tasks are ready, where counts are kept of the root's children. It counts anew what they ask for. Where 2^64 - 1
/// or more are below the source, no memory holds them, and it runs out here.
pub(crate) fn count_ready<O: Order>(
    alloc: Global,
    phase: &Phase,
    root: &Task,
    order: &O,
    counts: &mut Counts,
) -> Result<u64, AllocError>
    requires owned { Owned (O.active order.now) (both (phase_stock phase.now) (task_stock root.now)) }
    requires known { Knows counts.old (row (out-Task root.now).kids.items) }
    ensures told { IfOk result (λ n. n ≡ one_if (may_act phase.now root.now) + ready_in (O.active order.now) root.now) }
    ensures fresh { OnOk result (Fresh (fin.keys (O.active order.now)) counts.new (row (out-Task root.now).kids.items)) }
    ensures known { Knows counts.new (row (out-Task root.now).kids.items) }
{
    let below = match root.count_ready(alloc, order, counts) {
        Ok(below) => below,
        Err(error) => {
            *counts = Counts::new(alloc);
            return Err(error);
        }
    };
    if below == u64::MAX {
        return Err(AllocError);
    }
    Ok(one(source_may(phase, root)) + below)
}

fn set_phase(phase: &mut Phase, new: Phase)
    requires { phase.old ≡ Phase.Finished }
    ensures { phase.new ≡ new }
{
    match mem::replace(phase, new) {
        Phase::Finished => {}
        _ => unreachable!(),
    }
}

impl Machine {
    fn start_from<O: Order>(
        alloc: Global,
        strategy: &Strategy,
        dtype: &DType,
        ctx: &LayoutWriterContext,
        order: &mut O,
        names: Names,
        eof: SequencePointer,
    ) -> Result<Machine, WriteError>
        requires { Owned (O.active order.old) (both (names_stock names) (end_stock eof)) }
        ensures moved { Moved (O.active order.old) (O.active order.new) (both (names_stock names) (end_stock eof)) (ok_stock machine_stock result) }
        ensures unreserved { IfOk result (λ m. machine_reserved m ≡ 0) }
        ensures outlet { O.outlet order.new ≡ O.outlet order.old }
        ensures sink { O.sink order.new ≡ O.sink order.old }
        ensures cause { IfErr result StartMay }
        ensures allowed { OnOk result (IsAllowed (allowed_in ctx.now) (form_of strategy.now dtype.now) (is_marked ctx.now)) }
        ensures counted { OnOk result (Counted eof (first_indices (form_of strategy.now dtype.now) (is_marked ctx.now) eof)) }
        ensures shows { IfOk result (λ m. machine_of m ≡ machine_at (names_of names) (form_of strategy.now dtype.now) (is_marked ctx.now) eof) }
        ensures begins { IfOk result (λ m. Begins (allowed_in ctx.now) (strategy_data strategy.now) (ty dtype.now) (is_marked ctx.now) (names_of names) eof (machine_of m)) }
        ensures refused { IfErr result (FormRefused (allowed_in ctx.now) (form_of strategy.now dtype.now) (is_marked ctx.now) eof) }
    {
        match start_root(alloc, strategy, dtype, ctx, order, eof) {
            Ok(root) => Ok(Machine {
                alloc,
                phase: Phase::Reading(names),
                root,
                counts: Counts::new(alloc),
            }),
            Err(error) => {
                give_up_names(order, names);
                Err(error)
            }
        }
    }

    /// The machine before its first step. The batches get paths from `stream` on; what is written behind all of them goes on
    /// from `eof`.
    ///
    /// `NotStruct`, `DuplicateField` and `ForbiddenAggregate` come of the nodes that start with the root, `TooLarge(2^64)` where
    /// a path index has no next one. Refused, both pointers are given up.
    pub fn start<O: Order>(
        alloc: Global,
        strategy: &Strategy,
        dtype: &DType,
        ctx: &LayoutWriterContext,
        order: &mut O,
        stream: SequencePointer,
        eof: SequencePointer,
    ) -> Result<Machine, WriteError>
        requires { Owned (O.active order.old) (both (end_stock stream) (end_stock eof)) }
        ensures moved { Moved (O.active order.old) (O.active order.new) (both (end_stock stream) (end_stock eof)) (ok_stock machine_stock result) }
        ensures unreserved { IfOk result (λ m. machine_reserved m ≡ 0) }
        ensures outlet { O.outlet order.new ≡ O.outlet order.old }
        ensures sink { O.sink order.new ≡ O.sink order.old }
        ensures cause { IfErr result StartMay }
        ensures allowed { OnOk result (IsAllowed (allowed_in ctx.now) (form_of strategy.now dtype.now) (is_marked ctx.now)) }
        ensures counted { OnOk result (Counted eof (first_indices (form_of strategy.now dtype.now) (is_marked ctx.now) eof)) }
        ensures shows { IfOk result (λ m. machine_of m ≡ machine_at (onward stream) (form_of strategy.now dtype.now) (is_marked ctx.now) eof) }
        ensures begins { IfOk result (λ m. Begins (allowed_in ctx.now) (strategy_data strategy.now) (ty dtype.now) (is_marked ctx.now) (onward stream) eof (machine_of m)) }
        ensures refused { IfErr result (FormRefused (allowed_in ctx.now) (form_of strategy.now dtype.now) (is_marked ctx.now) eof) }
    {
        Machine::start_from(
            alloc,
            strategy,
            dtype,
            ctx,
            order,
            Names::Onward(stream),
            eof,
        )
    }

    /// As `start`, of a stream whose batches get these ids, in order: as each step asks, there is one for each batch that the
    /// source has left. What is left of them at its end is given up.
    ///
    /// It refuses as `start` does; then the ids and the pointer are given up.
    pub fn start_at<O: Order>(
        alloc: Global,
        strategy: &Strategy,
        dtype: &DType,
        ctx: &LayoutWriterContext,
        order: &mut O,
        ids: Vec<SequenceId>,
        eof: SequencePointer,
    ) -> Result<Machine, WriteError>
        requires { Owned (O.active order.old) (both (ids_stock ids.items) (end_stock eof)) }
        ensures moved { Moved (O.active order.old) (O.active order.new) (both (ids_stock ids.items) (end_stock eof)) (ok_stock machine_stock result) }
        ensures unreserved { IfOk result (λ m. machine_reserved m ≡ 0) }
        ensures outlet { O.outlet order.new ≡ O.outlet order.old }
        ensures sink { O.sink order.new ≡ O.sink order.old }
        ensures cause { IfErr result StartMay }
        ensures allowed { OnOk result (IsAllowed (allowed_in ctx.now) (form_of strategy.now dtype.now) (is_marked ctx.now)) }
        ensures counted { OnOk result (Counted eof (first_indices (form_of strategy.now dtype.now) (is_marked ctx.now) eof)) }
        ensures shows { IfOk result (λ m. machine_of m ≡ machine_at (handed ids.items) (form_of strategy.now dtype.now) (is_marked ctx.now) eof) }
        ensures begins { IfOk result (λ m. Begins (allowed_in ctx.now) (strategy_data strategy.now) (ty dtype.now) (is_marked ctx.now) (handed ids.items) eof (machine_of m)) }
        ensures refused { IfErr result (FormRefused (allowed_in ctx.now) (form_of strategy.now dtype.now) (is_marked ctx.now) eof) }
    {
        let ids = VecDeque::from(ids);
        Machine::start_from(alloc, strategy, dtype, ctx, order, Names::Handed(ids), eof)
    }

    /// How many tasks are ready, as far as 64 bits tell. It counts them anew.
    pub fn ready<O: Order>(&self, order: &O) -> u64
        requires { Owned (O.active order.now) (machine_stock self.now) }
        ensures told { result ≡ counted (machine_ready (O.active order.now) self.now) }
        ensures view { result ≡ counted (whole_ready (fin.keys (O.active order.now)) (machine_of self.now)) }
        // Wherever a write has come, over whatever order, there is one until the machine has finished, whatever is picked.
        ensures never_stuck { Exact (O.active order.now) (machine_stock self.now) → NeverStuck (machine_of self.now) result }
        // What was appended by then are the first pairs of the plan, and no other pair's path is below the least held one.
        ensures front { IsFront (machine_of self.now) }
    {
        vx_machine_runs::courses();
        let own = one(source_may(&self.phase, &self.root));
        own.saturating_add(self.root.ready(order))
    }

    /// The source's next act.
    fn step_source<O: Order, B: BatchSource>(
        &mut self,
        source: &mut B,
        order: &mut O,
    ) -> Result<ActionKind, WriteError>
        requires owned { Owned (O.active order.old) (machine_stock self.old) }
        requires enough { HasNames (phase_of self.old.phase) (B.left source.old) }
        ensures moved { Moved (O.active order.old) (O.active order.new) (machine_stock self.old) (machine_stock self.new) }
        ensures reserved { machine_reserved self.new ≡ machine_reserved self.old }
        ensures outlet { O.outlet order.new ≡ O.outlet order.old }
        ensures sink { O.sink order.new ≡ O.sink order.old }
        ensures kind { B.kind source.new ≡ B.kind source.old }
        ensures left { IfOk result (LeavesFewer (B.left source.old) (B.left source.new)) }
        ensures told { SourceTold (B.faults source.old) (B.faults source.new) (B.may_fail source.old) (B.may_fail source.new)
            (B.must_fail source.old) (B.must_fail source.new) (reads_at (phase_of self.old.phase) 0) result (λ a. a) }
        ensures cause { IfErr result (SourceMay (B.kind source.old)) }
        ensures done { IfOk result (SourceActed (B.kind source.old) (B.to_come source.old) (B.to_come source.new) (phase_of self.old.phase) (phase_of self.new.phase)
            (task_row self.old.root no_tasks) (task_row self.new.root no_tasks)) }
        ensures refused { IfErr result (SourceRefused (B.kind source.old) (B.to_come source.old) (B.to_come source.new) (phase_of self.old.phase) (task_row self.old.root no_tasks)) }
        ensures enough { OnOk result (HasNames (phase_of self.new.phase) (B.left source.new)) }
    {
        let phase = mem::replace(&mut self.phase, Phase::Finished);
        let (phase, result) = act_source(order, source, phase, &mut self.root);
        set_phase(&mut self.phase, phase);
        if let Err(_) = result {
            self.counts = Counts::new(self.alloc);
        }
        result
    }

    /// A step where so many are ready, by counts that were just counted anew.
    pub(crate) fn step_counted<B: BatchSource, O: Order, C: CompressorPlugin>(
        &mut self,
        ready: u64,
        pick: u64,
        ctx: &mut LayoutWriterContext,
        source: &mut B,
        order: &mut O,
        compressor: &mut C,
    ) -> Result<Step, WriteError>
        requires owned { Owned (O.active order.old) (machine_stock self.old) }
        requires reserved { machine_reserved self.old ≤ counted_bytes ctx.old }
        requires ready { 0 < machine_ready (O.active order.old) self.old }
        requires count { ready ≡ machine_ready (O.active order.old) self.old }
        requires fresh { Fresh (fin.keys (O.active order.old)) self.old.counts (row (out-Task self.old.root).kids.items) }
        requires allowed { AllMay (O.may_write order.old) (task_pairs self.old.root) }
        requires enough { HasNames (phase_of self.old.phase) (B.left source.old) }
        ensures moved { Moved (O.active order.old) (O.active order.new) (machine_stock self.old) (machine_stock self.new) }
        ensures tracked { Paid ctx.old ctx.new (machine_reserved self.old) (machine_reserved self.new) }
        ensures told { IfOk result (λ s. (s.ready ≡ machine_ready (O.active order.old) self.old) × (s.picked ≡ pick % s.ready)) }
        ensures kind { B.kind source.new ≡ B.kind source.old }
        ensures left { IfOk result (λ s. LeavesFewer (B.left source.old) (B.left source.new) s.action) }
        ensures enough { OnOk result (HasNames (phase_of self.new.phase) (B.left source.new)) }
        ensures source_told { SourceTold (B.faults source.old) (B.faults source.new) (B.may_fail source.old) (B.may_fail source.new)
            (B.must_fail source.old) (B.must_fail source.new)
            (reads_at (phase_of self.old.phase) (pick % machine_ready (O.active order.old) self.old)) result (λ s. s.action) }
        ensures sink_told { SinkTold (O.Sink.faults (O.sink order.old)) (O.Sink.faults (O.sink order.new)) (O.Sink.may_fail (O.sink order.old)) (O.Sink.may_fail (O.sink order.new))
            (O.Sink.must_fail (O.sink order.old)) (O.Sink.must_fail (O.sink order.new)) result (λ s. s.action) }
        ensures pressed { PressTold (C.faults compressor.old) (C.faults compressor.new) (C.may_fail compressor.old) (C.may_fail compressor.new)
            (C.must_fail compressor.old) (C.must_fail compressor.new) result (λ s. s.action) }
        ensures cause { IfErr result StepMay }
        ensures done { IfOk result (λ s. StepDone ctx.old (C.image (C.kind compressor.old)) (fin.keys (O.active order.old)) s.picked (B.kind source.old) (B.to_come source.old) (B.to_come source.new)
            (O.outlet order.old) (O.outlet order.new) (machine_of self.old) (machine_of self.new) s.task s.action) }
        // Wherever a write has come, over whatever order, it leads the write on, and one act less is left.
        ensures leads { IfOk result (λ s. Exact (O.active order.old) (machine_stock self.old)
            → StepsOn (setting_of ctx.old (C.image (C.kind compressor.old))) (B.kind source.old) pick (B.to_come source.old) (B.to_come source.new) (O.outlet order.old) (O.outlet order.new) (machine_of self.old) (machine_of self.new) s) }
        ensures refused { IfErr result (StepFails ctx.old (C.image (C.kind compressor.old)) (counted_bytes ctx.old) (fin.keys (O.active order.old)) (pick % machine_ready (O.active order.old) self.old) (B.kind source.old) (B.to_come source.old) (B.to_come source.new)
            (O.outlet order.old) (machine_of self.old)) }
        ensures kept { OnErr result (Kept (O.outlet order.old) (O.outlet order.new)) }
        ensures context { told_by ctx.new ≡ told_by ctx.old }
        ensures compressor { C.kind compressor.new ≡ C.kind compressor.old }
    {
        vx_machine_runs::courses();
        let picked = pick % ready;
        let own = one(source_may(&self.phase, &self.root));
        if picked < own {
            let task = Path::child(self.alloc, &[], 0)?;
            return match self.step_source(source, order) {
                Ok(action) => Ok(Step {
                    ready,
                    picked,
                    task,
                    action,
                }),
                Err(error) => Err(error),
            };
        }
        let place = picked - own;
        match step(
            &mut self.root,
            self.alloc,
            ctx,
            order,
            compressor,
            place,
            &mut self.counts,
        ) {
            Ok(did) => Ok(Step {
                ready,
                picked,
                task: did.task,
                action: did.action,
            }),
            Err(error) => {
                self.counts = Counts::new(self.alloc);
                Err(error)
            }
        }
    }

    /// The ready task at the place `pick` modulo their number does its next act; tasks are in the order of their names.
    ///
    /// Where 2^64 - 1 tasks or more are ready below the source, no memory holds them, and it runs out before the step. After an
    /// error `refuse` alone is left to call. `SourceFault`, `SinkFault` and `CompressFault` come where that object's
    /// count of faults says so. The source is called where it reads, the sink where a segment is appended, and the compressor
    /// at a call.
    pub fn step<B: BatchSource, O: Order, C: CompressorPlugin>(
        &mut self,
        pick: u64,
        ctx: &mut LayoutWriterContext,
        source: &mut B,
        order: &mut O,
        compressor: &mut C,
    ) -> Result<Step, WriteError>
        requires owned { Owned (O.active order.old) (machine_stock self.old) }
        requires reserved { machine_reserved self.old ≤ counted_bytes ctx.old }
        requires ready { 0 < machine_ready (O.active order.old) self.old }
        requires allowed { AllMay (O.may_write order.old) (task_pairs self.old.root) }
        requires enough { HasNames (phase_of self.old.phase) (B.left source.old) }
        ensures moved { Moved (O.active order.old) (O.active order.new) (machine_stock self.old) (machine_stock self.new) }
        ensures tracked { Paid ctx.old ctx.new (machine_reserved self.old) (machine_reserved self.new) }
        ensures told { IfOk result (λ s. (s.ready ≡ machine_ready (O.active order.old) self.old) × (s.picked ≡ pick % s.ready)) }
        ensures kind { B.kind source.new ≡ B.kind source.old }
        ensures left { IfOk result (λ s. LeavesFewer (B.left source.old) (B.left source.new) s.action) }
        ensures enough { OnOk result (HasNames (phase_of self.new.phase) (B.left source.new)) }
        ensures source_told { SourceTold (B.faults source.old) (B.faults source.new) (B.may_fail source.old) (B.may_fail source.new)
            (B.must_fail source.old) (B.must_fail source.new)
            (reads_at (phase_of self.old.phase) (pick % machine_ready (O.active order.old) self.old)) result (λ s. s.action) }
        ensures sink_told { SinkTold (O.Sink.faults (O.sink order.old)) (O.Sink.faults (O.sink order.new)) (O.Sink.may_fail (O.sink order.old)) (O.Sink.may_fail (O.sink order.new))
            (O.Sink.must_fail (O.sink order.old)) (O.Sink.must_fail (O.sink order.new)) result (λ s. s.action) }
        ensures pressed { PressTold (C.faults compressor.old) (C.faults compressor.new) (C.may_fail compressor.old) (C.may_fail compressor.new)
            (C.must_fail compressor.old) (C.must_fail compressor.new) result (λ s. s.action) }
        ensures cause { IfErr result StepMay }
        ensures done { IfOk result (λ s. StepDone ctx.old (C.image (C.kind compressor.old)) (fin.keys (O.active order.old)) s.picked (B.kind source.old) (B.to_come source.old) (B.to_come source.new)
            (O.outlet order.old) (O.outlet order.new) (machine_of self.old) (machine_of self.new) s.task s.action) }
        // Wherever a write has come, over whatever order, it leads the write on, and one act less is left.
        ensures leads { IfOk result (λ s. Exact (O.active order.old) (machine_stock self.old)
            → StepsOn (setting_of ctx.old (C.image (C.kind compressor.old))) (B.kind source.old) pick (B.to_come source.old) (B.to_come source.new) (O.outlet order.old) (O.outlet order.new) (machine_of self.old) (machine_of self.new) s) }
        ensures refused { IfErr result (StepFails ctx.old (C.image (C.kind compressor.old)) (counted_bytes ctx.old) (fin.keys (O.active order.old)) (pick % machine_ready (O.active order.old) self.old) (B.kind source.old) (B.to_come source.old) (B.to_come source.new)
            (O.outlet order.old) (machine_of self.old)) }
        ensures kept { OnErr result (Kept (O.outlet order.old) (O.outlet order.new)) }
        ensures context { told_by ctx.new ≡ told_by ctx.old }
        ensures compressor { C.kind compressor.new ≡ C.kind compressor.old }
    {
        let Ok(ready) = count_ready(self.alloc, &self.phase, &self.root, order, &mut self.counts)
        else {
            return Err(WriteError::OutOfMemory);
        };
        self.step_counted(ready, pick, ctx, source, order, compressor)
    }

    /// Whether the root's layout is there, and nothing is left to do.
    pub fn finished(&self) -> bool
        ensures told { result ≡ is_finished self.now }
        ensures view { result ≡ has_finished (machine_of self.now) }
    {
        let closed = has_closed(&self.phase);
        closed && self.root.is_done()
    }

    /// The root's layout. No id is held by then.
    pub fn finish(self) -> Layout
        requires { IsTrue (is_finished self) }
        ensures free { machine_stock self ≡ none }
        ensures unreserved { machine_reserved self ≡ 0 }
        ensures layout { layouts_in (machine_of self).root ≡ layout_data result ∷ [] }
    {
        let Machine {
            alloc: _,
            phase,
            root,
            counts,
        } = self;
        drop(counts);
        let layout = root.into_layout();
        match phase {
            Phase::Finished => layout,
            _ => unreachable!(),
        }
    }

    /// Gives up all ids and pointers, and releases all reservations, after an error as well. What is active then is what was,
    /// less what the machine held, and so it is with what the tracker counts.
    pub fn refuse<O: Order>(self, ctx: &mut LayoutWriterContext, order: &mut O)
        requires owned { Owned (O.active order.old) (machine_stock self) }
        requires reserved { machine_reserved self ≤ counted_bytes ctx.old }
        ensures moved { Moved (O.active order.old) (O.active order.new) (machine_stock self) none }
        ensures empty { Exact (O.active order.old) (machine_stock self) → IsNone (O.active order.new) }
        ensures outlet { O.outlet order.new ≡ O.outlet order.old }
        ensures sink { O.sink order.new ≡ O.sink order.old }
        ensures tracked { Paid ctx.old ctx.new (machine_reserved self) 0 }
        ensures context { told_by ctx.new ≡ told_by ctx.old }
    {
        let Machine {
            alloc: _,
            phase,
            root,
            counts,
        } = self;
        drop(counts);
        give_up_phase(order, phase);
        root.refuse(ctx, order);
    }
}
