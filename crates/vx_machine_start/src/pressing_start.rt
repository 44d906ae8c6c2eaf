//! How a compressing node starts, with its outlet.

ghost use Rattle.std.specs.Prelude.{◌≡◌, ◌<◌, ◌≤◌, [], IsTrue, vec_capacity, IfOk, IfErr, OnOk};
ghost use Rattle.std.specs.Arc.{arc_value};
ghost use Rattle.std.specs.Int.NonZero.{non_zero_u64_get};
ghost use Rattle.vx_path.specs.Path.{under};
ghost use Rattle.vx_model.specs.TyView.{ty};
ghost use Rattle.vx_strategy.specs.NodeViews.{compressed_way};
ghost use Rattle.vx_machine_ids.specs.Stock.{none, end_stock, ok_stock};
ghost use Rattle.vx_machine_ids.specs.Balance.{Owned, Moved};
ghost use Rattle.vx_machine_state.specs.Start.{waiting};
ghost use Rattle.vx_machine_node.specs.Causes.{StartMay};
ghost use Rattle.vx_machine_task.specs.Ledger.{tasks_reserved};
ghost use Rattle.vx_machine_start.specs.Starting.{OutletStarted, Started, FormRefused};
ghost use Rattle.vx_machine_task.specs.Stocks.{task_stock, tasks_stock};
ghost use Rattle.vx_machine_node.specs.View.{form_at};
ghost use Rattle.vx_sink.specs.ContextView.{allowed_in};

use crate::start::{next_name, start_task, waiting};
use std::alloc::{AllocError, Global};
use std::sync::Arc;
use vx_machine_ids::give_up_pointer;
use vx_machine_node::Local;
use vx_machine_task::{Task, refuse_started};
use vx_model::DType;
use vx_order::Order;
use vx_path::owned::Path;
use vx_sequence::SequencePointer;
use vx_sink::LayoutWriterContext;
use vx_strategy::CompressingStrategy;
use vx_write_answer::WriteError;

/// A compressing node's task, with its outlet.
#[cycle(start)]
pub(crate) fn start_pressing<O: Order>(
    alloc: Global,
    ctx: &LayoutWriterContext,
    order: &mut O,
    by: &CompressingStrategy,
    dtype: Arc<DType>,
    marked: bool,
    name: Path,
    eof: SequencePointer,
) -> Result<Task, WriteError>
    requires owned { Owned (O.active order.old) (end_stock eof) }
    ensures moved { Moved (O.active order.old) (O.active order.new) (end_stock eof) (ok_stock task_stock result) }
    ensures outlet { O.outlet order.new ≡ O.outlet order.old }
    ensures sink { O.sink order.new ≡ O.sink order.old }
    ensures cause { IfErr result StartMay }
    ensures shows { IfOk result (Started (allowed_in ctx.now) (form_at (compressed_way by.now) (ty (arc_value dtype))) marked name eof) }
    ensures refused { IfErr result (FormRefused (allowed_in ctx.now) (form_at by.now.child.item (ty (arc_value dtype))) marked eof) }
{
    let mut kids = Vec::new(alloc);
    match start_outlet(alloc, ctx, order, by, dtype, marked, &name, eof, &mut kids) {
        Ok(()) => Ok(waiting(alloc, name, Local::Pressing(by.which()), kids)),
        Err(error) => {
            refuse_started(alloc, kids, order);
            Err(error)
        }
    }
}

/// Starts the outlet, with the node's child below it, which gets the pointer itself and the name beside the outlet's.
#[cycle(start)]
fn start_outlet<O: Order>(
    alloc: Global,
    ctx: &LayoutWriterContext,
    order: &mut O,
    by: &CompressingStrategy,
    dtype: Arc<DType>,
    marked: bool,
    name: &Path,
    eof: SequencePointer,
    kids: &mut Vec<Task>,
) -> Result<(), WriteError>
    requires owned { Owned (O.active order.old) (end_stock eof) }
    requires none { kids.old.items ≡ [] }
    ensures moved { Moved (O.active order.old) (O.active order.new) (end_stock eof) (tasks_stock kids.new.items) }
    ensures reserved { tasks_reserved kids.new.items ≡ 0 }
    ensures outlet { O.outlet order.new ≡ O.outlet order.old }
    ensures sink { O.sink order.new ≡ O.sink order.old }
    ensures cause { IfErr result StartMay }
    ensures shows { OnOk result (OutletStarted (allowed_in ctx.now) (non_zero_u64_get by.now.concurrency) (form_at by.now.child.item (ty (arc_value dtype))) marked name.now eof kids.new.items) }
    ensures refused { IfErr result (FormRefused (allowed_in ctx.now) (form_at by.now.child.item (ty (arc_value dtype))) marked eof) }
{
    match outlet_parts(alloc, name, kids) {
        Ok((first, second, mut below)) => {
            let child = by.child().strategy();
            match start_task(alloc, ctx, order, child, dtype, marked, second, eof) {
                Ok(kid) => {
                    below.push_reserved(kid);
                    let mut outlet = waiting(alloc, first, Local::AsIs, below);
                    outlet.head.places = by.concurrency().get() as usize;
                    kids.push_reserved(outlet);
                    Ok(())
                }
                Err(error) => {
                    below.destroy_empty();
                    drop(first);
                    Err(error)
                }
            }
        }
        Err(_) => {
            drop(dtype);
            give_up_pointer(order, eof);
            Err(WriteError::OutOfMemory)
        }
    }
}

/// Room for the outlet and for the one task below it, and their names.
fn outlet_parts(
    alloc: Global,
    name: &Path,
    kids: &mut Vec<Task>,
) -> Result<(Path, Path, Vec<Task>), AllocError>
    requires { kids.old.items ≡ [] }
    ensures first { IfOk result (λ r. r.0 ≡ under name.now 0) }
    ensures second { IfOk result (λ r. r.1 ≡ under name.now 1) }
    ensures kids { kids.new.items ≡ [] }
    ensures room { OnOk result (1 ≤ vec_capacity kids.new) }
    ensures below { IfOk result (λ r. (r.2.items ≡ []) × (1 ≤ vec_capacity r.2)) }
{
    let first = next_name(alloc, name, kids)?;
    let second = Path::child(alloc, name.as_slice(), 1)?;
    let mut below = Vec::new(alloc);
    match below.reserve(1) {
        Ok(()) => Ok((first, second, below)),
        Err(error) => {
            below.destroy_empty();
            Err(error)
        }
    }
}
