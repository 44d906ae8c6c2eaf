//! Writes that are stepped by hand: each step is a call of its own.

ghost use Rattle.std.specs.Prelude.{◌≡◌, ◌≤◌, List, ℕ};
ghost use Rattle.vx_machine_ids.specs.Balance.{Owned};
ghost use Rattle.vx_machine_ids.specs.Stock.{end_stock};
ghost use Rattle.vx_machine.specs.Names.{HasNames};
ghost use Rattle.vx_machine.specs.View.{phase_of};
ghost use Rattle.vx_machine.specs.Whole.{machine_stock, machine_reserved};

use crate::jobs::{INTEGERS, Parts, job_of};
use std::alloc::Global;
use vx_case_lines::{Answer, halves};
use vx_encodings::all_encodings;
use vx_job::Job;
use vx_layout_tree::Layout;
use vx_machine::{Machine, give_up_pointer, take_below};
use vx_machine_ids::{take_children, take_id};
use vx_order::{LocalOrder, Order};
use vx_sequence::{SequenceId, SequencePointer};
use vx_sink::{
    BatchSource, CompressorPlugin, LayoutWriterContext, ListSource, MemorySink, SegmentSink,
};
use vx_strategy::Strategy;
use vx_table_compressor::TableCompressor;

/// Where the batches' ids come from.
#[derive(Copy, Clone)]
pub(crate) enum Ids {
    /// A pointer.
    Onward,
    /// They are made before the start, with one more than there are batches.
    Handed,
}

/// Of the words `stepped` and `handed`.
pub(crate) fn tell(alloc: Global, answer: &mut Answer, given: &str, ids: Ids) {
    let (by, batches) = halves(given);
    match job_of(alloc, Parts::new(INTEGERS, by, batches)) {
        Ok(job) => tell_job(alloc, answer, job, ids),
        Err(error) => answer.push(error),
    }
}

fn tell_job(alloc: Global, answer: &mut Answer, job: Job, ids: Ids) {
    match all_encodings(alloc) {
        Ok(encodings) => {
            let mut ctx = LayoutWriterContext::new(encodings);
            let count = job.batches.len();
            let mut source = ListSource::new(job.schema, job.batches, Vec::new(alloc));
            tell_write(
                alloc,
                answer,
                &job.strategy,
                &mut ctx,
                &mut source,
                ids,
                count,
            );
        }
        Err(error) => answer.push(error),
    }
}

/// How many steps it took, and how many rows and segments are written.
#[tactic(auto, using(crate::proofs::Starts::start_owned))]
fn tell_write(
    alloc: Global,
    answer: &mut Answer,
    by: &Strategy,
    ctx: &mut LayoutWriterContext,
    source: &mut ListSource,
    ids: Ids,
    count: usize,
)
    requires { ⟦<ListSource as BatchSource>⟧.left source.old ≤ count }
{
    match SequenceId::root(alloc) {
        Ok((universe, eof)) => {
            let sink = MemorySink::new(0, Vec::new(alloc));
            let mut order = LocalOrder::new(sink, universe);
            let ran = match ids {
                Ids::Onward => written(alloc, by, ctx, source, &mut order, eof),
                Ids::Handed => handed(alloc, by, ctx, source, &mut order, eof, count),
            };
            let sink = order.into_sink();
            push_ran(answer, ran, sink.segments().len());
            drop(sink);
        }
        Err(error) => answer.push(error),
    }
}

/// What a write by steps comes to: its layout, and how many steps it took.
#[derive(Drop)]
struct Ran {
    layout: Layout,
    steps: u64,
}

fn push_ran(answer: &mut Answer, ran: Option<Ran>, segments: usize) {
    match ran {
        Some(ran) => {
            let rows = ran.layout.row_count();
            write!(
                answer,
                "{} steps, {rows} rows, {segments} segments",
                ran.steps
            );
            drop(ran);
        }
        None => answer.push_str("no layout"),
    }
}

/// A write of the source from the pointer.
fn written<B: BatchSource, O: Order>(
    alloc: Global,
    by: &Strategy,
    ctx: &mut LayoutWriterContext,
    source: &mut B,
    order: &mut O,
    mut eof: SequencePointer,
) -> Option<Ran>
    requires owned { Owned (O.active order.old) (end_stock eof) }
    requires allowed { (o : O) (p b : List ℕ) → O.may_write o p b }
{
    let stream = match take_below(order, &mut eof) {
        Ok(stream) => stream,
        Err(_) => {
            give_up_pointer(order, eof);
            return None;
        }
    };
    let mut compressor = TableCompressor::new(Vec::new(alloc));
    match Machine::start(alloc, by, source.dtype(), ctx, order, stream, eof) {
        Ok(machine) => stepped(machine, ctx, source, order, &mut compressor, 1000),
        Err(_) => None,
    }
}

/// The same, where the batches get ids below the pointer's path, which are made before the start.
fn handed<B: BatchSource, O: Order>(
    alloc: Global,
    by: &Strategy,
    ctx: &mut LayoutWriterContext,
    source: &mut B,
    order: &mut O,
    mut eof: SequencePointer,
    count: usize,
) -> Option<Ran>
    requires owned { Owned (O.active order.old) (end_stock eof) }
    requires allowed { (o : O) (p b : List ℕ) → O.may_write o p b }
    requires enough { B.left source.old ≤ count }
{
    let id = match take_id(order, &mut eof) {
        Ok(id) => id,
        Err(_) => {
            give_up_pointer(order, eof);
            return None;
        }
    };
    let ids = match take_children(alloc, order, id, count.saturating_add(1)) {
        Ok(ids) => ids,
        Err(_) => {
            give_up_pointer(order, eof);
            return None;
        }
    };
    let mut compressor = TableCompressor::new(Vec::new(alloc));
    match Machine::start_at(alloc, by, source.dtype(), ctx, order, ids, eof) {
        Ok(machine) => stepped(machine, ctx, source, order, &mut compressor, 1000),
        Err(_) => None,
    }
}

/// Each step picks the last ready task. It ends where the machine has finished, and gives nothing where a step is refused,
/// where `ready` and `step` count differently, or behind so many steps.
fn stepped<B: BatchSource, O: Order, C: CompressorPlugin>(
    mut machine: Machine,
    ctx: &mut LayoutWriterContext,
    source: &mut B,
    order: &mut O,
    compressor: &mut C,
    within: u64,
) -> Option<Ran>
    requires owned { Owned (O.active order.old) (machine_stock machine) }
    requires unreserved { machine_reserved machine ≡ 0 }
    requires allowed { (o : O) (p b : List ℕ) → O.may_write o p b }
    requires enough { HasNames (phase_of machine.phase) (B.left source.old) }
{
    'steps: for done in 0..within {
        if machine.finished() {
            let layout = machine.finish();
            return Some(Ran {
                layout,
                steps: done,
            });
        }
        let ready = machine.ready(order);
        if ready == 0 {
            machine.refuse(ctx, order);
            return None;
        }
        match machine.step(ready - 1, ctx, source, order, compressor) {
            Ok(step) if step.ready == ready => {}
            _ => {
                machine.refuse(ctx, order);
                return None;
            }
        }
    }
    machine.refuse(ctx, order);
    None
}
