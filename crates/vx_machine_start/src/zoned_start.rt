//! How a zoned node starts, with its data child.

ghost use Rattle.std.specs.Prelude.{◌≡◌, ◌<◌, false, [], IsTrue, IfOk, IfErr, OnOk};
ghost use Rattle.std.specs.Arc.{arc_value};
ghost use Rattle.vx_path.specs.Path.{next};
ghost use Rattle.vx_model.specs.TyView.{ty};
ghost use Rattle.vx_sink.specs.ContextView.{allowed_in};
ghost use Rattle.vx_strategy_options.specs.RuleViews.{zone_rule};
ghost use Rattle.vx_strategy.specs.NodeViews.{zoned_way};
ghost use Rattle.vx_machine_ids.specs.Stock.{none, both, end_stock, ok_stock};
ghost use Rattle.vx_machine_ids.specs.Balance.{Owned, Moved};
ghost use Rattle.vx_machine_state.specs.Start.{waiting};
ghost use Rattle.vx_machine_node.specs.Causes.{StartMay};
ghost use Rattle.vx_machine_task.specs.Ledger.{tasks_reserved};
ghost use Rattle.vx_machine_fresh.specs.Fresh.{BeginsZones};
ghost use Rattle.vx_machine_start.specs.Starting.{Started, FormRefused, OneRefused, DataStarted};
ghost use Rattle.vx_machine_node.specs.Stocks.{zoned_stock};
ghost use Rattle.vx_machine_task.specs.Stocks.{task_stock, tasks_stock};
ghost use Rattle.vx_machine_node.specs.View.{form_at, zoner_in, zones_in};

use crate::grouped_start::child_parts;
use crate::start::{start_task, start_under, waiting};
use std::alloc::Global;
use std::sync::Arc;
use vx_machine_fresh::zones_node;
use vx_machine_ids::give_up_pointer;
use vx_machine_node::{Local, ZonedNode, give_up_zoned};
use vx_machine_task::{Task, refuse_started};
use vx_model::DType;
use vx_order::Order;
use vx_path::owned::Path;
use vx_sequence::SequencePointer;
use vx_sink::LayoutWriterContext;
use vx_strategy::ZonedStrategy;
use vx_write_answer::WriteError;

/// A zoned node's task with its data child, whose pointer is split off. Below a mark it is its child's.
#[cycle(start)]
pub(crate) fn start_zoned<O: Order>(
    alloc: Global,
    ctx: &LayoutWriterContext,
    order: &mut O,
    zoned: &ZonedStrategy,
    dtype: Arc<DType>,
    marked: bool,
    name: Path,
    eof: SequencePointer,
) -> Result<Task, WriteError>
    requires owned { Owned (O.active order.old) (end_stock eof) }
    ensures moved { Moved (O.active order.old) (O.active order.new) (end_stock eof) (ok_stock task_stock result) }
    ensures outlet { O.outlet order.new ≡ O.outlet order.old }
    ensures sink { O.sink order.new ≡ O.sink order.old }
    ensures cause { IfErr result StartMay }
    ensures shows { IfOk result (Started (allowed_in ctx.now) (form_at (zoned_way zoned.now) (ty (arc_value dtype))) marked name eof) }
    ensures refused { IfErr result (FormRefused (allowed_in ctx.now) (form_at (zoned_way zoned.now) (ty (arc_value dtype))) marked eof) }
{
    if marked {
        let child = zoned.child().strategy();
        return start_task(alloc, ctx, order, child, dtype, marked, name, eof);
    }
    match zones_node(alloc, ctx, zoned, dtype, eof) {
        Ok(node) => start_data(alloc, ctx, order, zoned, node, name),
        Err((error, eof)) => {
            give_up_pointer(order, eof);
            Err(error)
        }
    }
}

/// The same of a node that has recorded nothing.
#[cycle(start)]
fn start_data<O: Order>(
    alloc: Global,
    ctx: &LayoutWriterContext,
    order: &mut O,
    zoned: &ZonedStrategy,
    mut node: ZonedNode,
    name: Path,
) -> Result<Task, WriteError>
    requires owned { Owned (O.active order.old) (zoned_stock node) }
    requires fresh { BeginsZones (allowed_in ctx.now) zoned.now node }
    ensures moved { Moved (O.active order.old) (O.active order.new) (zoned_stock node) (ok_stock task_stock result) }
    ensures outlet { O.outlet order.new ≡ O.outlet order.old }
    ensures sink { O.sink order.new ≡ O.sink order.old }
    ensures cause { IfErr result StartMay }
    ensures shows { IfOk result (Started (allowed_in ctx.now) (form_at (zoned_way zoned.now) (ty (arc_value node.dtype))) false name node.eof) }
    ensures refused { IfErr result (FormRefused (allowed_in ctx.now) (form_at (zoned_way zoned.now) (ty (arc_value node.dtype))) false node.eof) }
{
    let mut kids = Vec::new(alloc);
    match data_kid(alloc, ctx, order, zoned, &mut node, &name, &mut kids) {
        Ok(()) => Ok(waiting(alloc, name, Local::Zoned(node), kids)),
        Err(error) => {
            give_up_zoned(order, node);
            refuse_started(alloc, kids, order);
            Err(error)
        }
    }
}

/// Starts the data child, behind which as many chunks may wait as the strategy says.
#[cycle(start)]
fn data_kid<O: Order>(
    alloc: Global,
    ctx: &LayoutWriterContext,
    order: &mut O,
    zoned: &ZonedStrategy,
    node: &mut ZonedNode,
    name: &Path,
    kids: &mut Vec<Task>,
) -> Result<(), WriteError>
    requires owned { Owned (O.active order.old) (zoned_stock node.old) }
    requires none { kids.old.items ≡ [] }
    ensures moved { Moved (O.active order.old) (O.active order.new) (zoned_stock node.old) (both (zoned_stock node.new) (tasks_stock kids.new.items)) }
    ensures reserved { tasks_reserved kids.new.items ≡ 0 }
    ensures node { OnOk result ((zoner_in node.new ≡ zoner_in node.old) × (zones_in node.new ≡ zones_in node.old)) }
    ensures pointer { OnOk result (node.new.eof ≡ next node.old.eof) }
    ensures outlet { O.outlet order.new ≡ O.outlet order.old }
    ensures sink { O.sink order.new ≡ O.sink order.old }
    ensures cause { IfErr result StartMay }
    ensures shows { OnOk result (DataStarted (allowed_in ctx.now) (zone_rule zoned.now.rule).concurrency (form_at zoned.now.child.item (ty (arc_value node.old.dtype))) name.now node.old.eof kids.new.items) }
    ensures refused { IfErr result (OneRefused (allowed_in ctx.now) (form_at zoned.now.child.item (ty (arc_value node.old.dtype))) false node.old.eof) }
{
    let (name, dtype) = child_parts(alloc, name, &node.dtype, kids)?;
    let child = zoned.child();
    let mut kid = start_under(alloc, ctx, order, child, dtype, false, name, &mut node.eof)?;
    kid.head.places = zoned.concurrency().get() as usize;
    kids.push_reserved(kid);
    Ok(())
}
