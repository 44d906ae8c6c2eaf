//! How tasks start.

ghost use Rattle.std.specs.Prelude.{◌≡◌, ◌+◌, ◌<◌, ◌≤◌, ◌^◌, false, [], IsTrue, IsFalse, vec_len, vec_capacity, IfOk, IfErr, OnOk};
ghost use Rattle.std.specs.Arc.{arc_value};
ghost use Rattle.vx_path.specs.Path.{under, inside, next};
ghost use Rattle.vx_model.specs.ChunkData.{is_dict_type};
ghost use Rattle.vx_model.specs.TyView.{ty};
ghost use Rattle.vx_strategy_spec.specs.StrategyData.{Grouping};
ghost use Rattle.vx_machine_turns.specs.Forms.{grouped_form};
ghost use Rattle.vx_table_dispatch.specs.Settled.{passes_on as has_next};
ghost use Rattle.vx_sink.specs.ContextView.{allowed_in};
ghost use Rattle.vx_strategy.specs.NodeViews.{chunked_way, dict_way};
ghost use Rattle.vx_strategy.specs.StrategyView.{strategy_data};
ghost use Rattle.vx_machine_ids.specs.Stock.{none, both, end_stock, ok_stock};
ghost use Rattle.vx_machine_ids.specs.Balance.{Owned, Moved};
ghost use Rattle.vx_machine_state.specs.State.{Tasks, task_then};
ghost use Rattle.vx_machine_state.specs.Start.{waiting};
ghost use Rattle.vx_machine_node.specs.Context.{Allowed};
ghost use Rattle.vx_machine_node.specs.Causes.{StartMay};
ghost use Rattle.vx_machine_task.specs.Ledger.{tasks_reserved};
ghost use Rattle.vx_machine_fresh.specs.Fresh.{IsFresh, Begins};
ghost use Rattle.vx_machine_start.specs.Starting.{OnlyStarted, Started, FormRefused, OneRefused, PointerRefused};
ghost use Rattle.vx_machine_node.specs.Stocks.{local_stock};
ghost use Rattle.vx_machine_task.specs.Stocks.{task_stock, tasks_stock};
ghost use Rattle.vx_machine_node.specs.View.{form_at, form_of, mind_of};
ghost use Rattle.vx_machine_task.specs.View.{task_row, row};

use crate::columns_start::{start_columns, start_lists};
use crate::grouped_start::child_parts;
use crate::pressing_start::start_pressing;
use crate::zoned_start::start_zoned;
use std::alloc::{AllocError, Global};
use std::collections::VecDeque;
use std::sync::Arc;
use vx_machine_fresh::{
    blocks_node, buffer_node, chunked_node, collect_node, columns_node, drop_fresh, lists_node,
    runs_node,
};
use vx_machine_ids::{give_up_pointer, take_below};
use vx_machine_node::{FlatNode, GroupedNode, Local};
use vx_machine_task::{Head, Task, refuse_started};
use vx_model::DType;
use vx_order::Order;
use vx_path::owned::Path;
use vx_sequence::SequencePointer;
use vx_sink::LayoutWriterContext;
use vx_strategy::{ChildStrategy, ChunkedLayoutStrategy, DictStrategy, Strategy};
use vx_table_dispatch::{passes_on, settled};
use vx_write_answer::WriteError;

/// A task that waits for its first chunk, with the children that are started with it.
pub(crate) fn waiting(alloc: Global, name: Path, local: Local, kids: Vec<Task>) -> Task
    ensures held { task_stock result ≡ both (local_stock local) (tasks_stock kids.items) }
    ensures shows { (r : Tasks) → task_row result r ≡ task_then (waiting name (mind_of local) [] false) (row kids.items) r }
{
    Task {
        head: Head {
            name,
            local,
            todo: VecDeque::new(alloc),
            inbox: VecDeque::new(alloc),
            places: 1,
            closed: false,
        },
        kids,
    }
}

/// Room for one more child, and its name.
pub fn next_name(alloc: Global, name: &Path, kids: &mut Vec<Task>) -> Result<Path, AllocError>
    ensures name { IfOk result (λ p. p ≡ under name.now (vec_len kids.old)) }
    ensures kids { kids.new.items ≡ kids.old.items }
    ensures room { OnOk result (vec_len kids.new + 1 ≤ vec_capacity kids.new) }
{
    kids.reserve(1)?;
    let name = Path::child(alloc, name.as_slice(), kids.len() as u64)?;
    Ok(name)
}

/// The task of a strategy at a type. Refused, it gives up the pointer and all that was made of it.
///
/// It refuses a struct node of another type, repeated names of fields, and aggregates that may not be recorded, of all nodes that start with it. A table, a
/// list node of another type, and a dictionary node of a type that it can't hold, give way to what stands for them.
#[cycle(start)]
pub fn start_task<O: Order>(
    alloc: Global,
    ctx: &LayoutWriterContext,
    order: &mut O,
    strategy: &Strategy,
    dtype: Arc<DType>,
    marked: bool,
    name: Path,
    eof: SequencePointer,
) -> Result<Task, WriteError>
    requires owned { Owned (O.active order.old) (end_stock eof) }
    ensures moved { Moved (O.active order.old) (O.active order.new) (end_stock eof) (ok_stock task_stock result) }
    ensures outlet { O.outlet order.new ≡ O.outlet order.old }
    ensures sink { O.sink order.new ≡ O.sink order.old }
    ensures cause { IfErr result StartMay }
    ensures shows { IfOk result (Started (allowed_in ctx.now) (form_of strategy.now (arc_value dtype)) marked name eof) }
    ensures refused { IfErr result (FormRefused (allowed_in ctx.now) (form_of strategy.now (arc_value dtype)) marked eof) }
{
    if !passes_on(strategy, &dtype) {
        return start_settled(alloc, ctx, order, strategy, dtype, marked, name, eof);
    }
    let Ok(found) = settled(strategy, &dtype) else {
        drop((dtype, name));
        give_up_pointer(order, eof);
        return Err(WriteError::OutOfMemory);
    };
    let task = start_settled(alloc, ctx, order, &found, dtype, marked, name, eof);
    drop(found);
    task
}

/// As `start_task`, of a strategy for which no other stands.
#[cycle(start)]
fn start_settled<O: Order>(
    alloc: Global,
    ctx: &LayoutWriterContext,
    order: &mut O,
    strategy: &Strategy,
    dtype: Arc<DType>,
    marked: bool,
    name: Path,
    eof: SequencePointer,
) -> Result<Task, WriteError>
    requires owned { Owned (O.active order.old) (end_stock eof) }
    requires settled { IsFalse (has_next (strategy_data strategy.now) (ty (arc_value dtype))) }
    ensures moved { Moved (O.active order.old) (O.active order.new) (end_stock eof) (ok_stock task_stock result) }
    ensures outlet { O.outlet order.new ≡ O.outlet order.old }
    ensures sink { O.sink order.new ≡ O.sink order.old }
    ensures cause { IfErr result StartMay }
    ensures shows { IfOk result (Started (allowed_in ctx.now) (form_of strategy.now (arc_value dtype)) marked name eof) }
    ensures refused { IfErr result (FormRefused (allowed_in ctx.now) (form_of strategy.now (arc_value dtype)) marked eof) }
{
    match strategy {
        Strategy::Flat(options) => {
            let node = FlatNode {
                options: *options,
                dtype,
            };
            give_up_pointer(order, eof);
            Ok(waiting(alloc, name, Local::Empty(node), Vec::new(alloc)))
        }
        Strategy::Chunked(chunked) => {
            start_chunked(alloc, order, chunked, dtype, marked, name, eof)
        }
        Strategy::Struct(fields) => match columns_node(alloc, dtype) {
            Ok(node) => start_columns(alloc, ctx, order, fields, node, marked, name, eof),
            Err(error) => {
                give_up_pointer(order, eof);
                Err(error)
            }
        },
        Strategy::List(lists) => match lists_node(dtype) {
            Ok(node) => start_lists(alloc, ctx, order, lists, node, marked, name, eof),
            Err(error) => {
                give_up_pointer(order, eof);
                Err(error)
            }
        },
        Strategy::Dict(by) => start_dict(alloc, order, by, dtype, marked, name, eof),
        Strategy::Zoned(zoned) => start_zoned(alloc, ctx, order, zoned, dtype, marked, name, eof),
        Strategy::Repartition(by) => match blocks_node(alloc, by, dtype) {
            Ok(node) => start_grouped(alloc, ctx, order, by.child(), node, marked, name, eof),
            Err(error) => {
                give_up_pointer(order, eof);
                Err(error)
            }
        },
        Strategy::Buffered(by) => {
            let node = buffer_node(alloc, by, dtype);
            start_grouped(alloc, ctx, order, by.child(), node, marked, name, eof)
        }
        Strategy::Collect(into) => match collect_node(alloc, dtype) {
            Ok(node) => start_grouped(alloc, ctx, order, into.child(), node, marked, name, eof),
            Err(error) => {
                give_up_pointer(order, eof);
                Err(error)
            }
        },
        Strategy::Compressing(by) => {
            start_pressing(alloc, ctx, order, by, dtype, marked, name, eof)
        }
        Strategy::Table(_) => unreachable!(),
    }
}

/// A chunked node's task, which keeps the pointer.
fn start_chunked<O: Order>(
    alloc: Global,
    order: &mut O,
    chunked: &ChunkedLayoutStrategy,
    dtype: Arc<DType>,
    marked: bool,
    name: Path,
    eof: SequencePointer,
) -> Result<Task, WriteError>
    requires owned { Owned (O.active order.old) (end_stock eof) }
    ensures moved { Moved (O.active order.old) (O.active order.new) (end_stock eof) (ok_stock task_stock result) }
    ensures outlet { O.outlet order.new ≡ O.outlet order.old }
    ensures sink { O.sink order.new ≡ O.sink order.old }
    ensures cause { IfErr result StartMay }
    ensures shows { (allowed : Allowed) → IfOk result (Started allowed (form_at (chunked_way chunked.now) (ty (arc_value dtype))) marked name eof) }
    ensures memory { IfErr result (λ e. e ≡ WriteError.OutOfMemory) }
{
    match chunked_node(chunked, dtype, marked) {
        Ok(node) => {
            let local = Local::Chunked(node, eof, 0);
            Ok(waiting(alloc, name, local, Vec::new(alloc)))
        }
        Err(error) => {
            give_up_pointer(order, eof);
            Err(error)
        }
    }
}

/// A dictionary node's task, which keeps the pointer.
fn start_dict<O: Order>(
    alloc: Global,
    order: &mut O,
    by: &DictStrategy,
    dtype: Arc<DType>,
    marked: bool,
    name: Path,
    eof: SequencePointer,
) -> Result<Task, WriteError>
    requires owned { Owned (O.active order.old) (end_stock eof) }
    requires dict { IsTrue (is_dict_type (ty (arc_value dtype))) }
    ensures moved { Moved (O.active order.old) (O.active order.new) (end_stock eof) (ok_stock task_stock result) }
    ensures outlet { O.outlet order.new ≡ O.outlet order.old }
    ensures sink { O.sink order.new ≡ O.sink order.old }
    ensures cause { IfErr result StartMay }
    ensures shows { (allowed : Allowed) → IfOk result (Started allowed (form_at (dict_way by.now) (ty (arc_value dtype))) marked name eof) }
    ensures memory { IfErr result (λ e. e ≡ WriteError.OutOfMemory) }
{
    match runs_node(alloc, by, dtype, marked) {
        Ok(node) => {
            let local = Local::Probe(node, eof);
            Ok(waiting(alloc, name, local, Vec::new(alloc)))
        }
        Err(error) => {
            give_up_pointer(order, eof);
            Err(error)
        }
    }
}

/// The task of a node that regroups, with its only child, which gets the pointer.
#[cycle(start)]
fn start_grouped<O: Order>(
    alloc: Global,
    ctx: &LayoutWriterContext,
    order: &mut O,
    child: &ChildStrategy,
    node: GroupedNode,
    marked: bool,
    name: Path,
    eof: SequencePointer,
) -> Result<Task, WriteError>
    requires owned { Owned (O.active order.old) (end_stock eof) }
    requires fresh { IsFresh node }
    ensures moved { Moved (O.active order.old) (O.active order.new) (end_stock eof) (ok_stock task_stock result) }
    ensures outlet { O.outlet order.new ≡ O.outlet order.old }
    ensures sink { O.sink order.new ≡ O.sink order.old }
    ensures cause { IfErr result StartMay }
    ensures shows { (g : Grouping) → Begins g (ty (arc_value node.dtype)) node
        → IfOk result (Started (allowed_in ctx.now) (grouped_form g (ty (arc_value node.dtype)) (form_at child.now.item (ty (arc_value node.dtype)))) marked name eof) }
    ensures refused { IfErr result (FormRefused (allowed_in ctx.now) (form_at child.now.item (ty (arc_value node.dtype))) marked eof) }
{
    let mut kids = Vec::new(alloc);
    match start_only(
        alloc,
        ctx,
        order,
        child,
        &node.dtype,
        marked,
        &name,
        eof,
        &mut kids,
    ) {
        Ok(()) => Ok(waiting(alloc, name, Local::Grouped(node), kids)),
        Err(error) => {
            drop_fresh(node);
            refuse_started(alloc, kids, order);
            Err(error)
        }
    }
}

/// Starts the only child, with the pointer itself.
#[cycle(start)]
fn start_only<O: Order>(
    alloc: Global,
    ctx: &LayoutWriterContext,
    order: &mut O,
    child: &ChildStrategy,
    dtype: &Arc<DType>,
    marked: bool,
    name: &Path,
    eof: SequencePointer,
    kids: &mut Vec<Task>,
) -> Result<(), WriteError>
    requires owned { Owned (O.active order.old) (end_stock eof) }
    requires none { kids.old.items ≡ [] }
    ensures moved { Moved (O.active order.old) (O.active order.new) (end_stock eof) (tasks_stock kids.new.items) }
    ensures reserved { tasks_reserved kids.new.items ≡ 0 }
    ensures outlet { O.outlet order.new ≡ O.outlet order.old }
    ensures sink { O.sink order.new ≡ O.sink order.old }
    ensures cause { IfErr result StartMay }
    ensures shows { OnOk result (OnlyStarted (allowed_in ctx.now) (form_at child.now.item (ty (arc_value dtype.now))) marked name.now eof kids.new.items) }
    ensures refused { IfErr result (FormRefused (allowed_in ctx.now) (form_at child.now.item (ty (arc_value dtype.now))) marked eof) }
{
    match child_parts(alloc, name, dtype, kids) {
        Ok((name, dtype)) => {
            let kid = start_task(
                alloc,
                ctx,
                order,
                child.strategy(),
                dtype,
                marked,
                name,
                eof,
            )?;
            kids.push_reserved(kid);
            Ok(())
        }
        Err(_) => {
            give_up_pointer(order, eof);
            Err(WriteError::OutOfMemory)
        }
    }
}

/// A task whose pointer is split off.
#[cycle(start)]
pub fn start_under<O: Order>(
    alloc: Global,
    ctx: &LayoutWriterContext,
    order: &mut O,
    writer: &ChildStrategy,
    dtype: Arc<DType>,
    marked: bool,
    name: Path,
    eof: &mut SequencePointer,
) -> Result<Task, WriteError>
    requires owned { Owned (O.active order.old) (end_stock eof.old) }
    ensures moved { Moved (O.active order.old) (O.active order.new) (end_stock eof.old) (both (end_stock eof.new) (ok_stock task_stock result)) }
    ensures outlet { O.outlet order.new ≡ O.outlet order.old }
    ensures sink { O.sink order.new ≡ O.sink order.old }
    ensures cause { IfErr result StartMay }
    ensures shows { IfOk result (Started (allowed_in ctx.now) (form_at writer.now.item (ty (arc_value dtype))) marked name (inside eof.old)) }
    ensures next { OnOk result (eof.new ≡ next eof.old) }
    ensures fits { OnOk result (eof.old.last + 1 < 2 ^ 64) }
    ensures refused { IfErr result (OneRefused (allowed_in ctx.now) (form_at writer.now.item (ty (arc_value dtype))) marked eof.old) }
{
    match split_below(order, eof) {
        Ok(below) => start_task(
            alloc,
            ctx,
            order,
            writer.strategy(),
            dtype,
            marked,
            name,
            below,
        ),
        Err(error) => {
            drop((dtype, name));
            Err(error)
        }
    }
}

/// As `take_below`, with the error of a start.
fn split_below<O: Order>(
    order: &mut O,
    eof: &mut SequencePointer,
) -> Result<SequencePointer, WriteError>
    requires { Owned (O.active order.old) (end_stock eof.old) }
    ensures moved { Moved (O.active order.old) (O.active order.new) (end_stock eof.old) (both (end_stock eof.new) (ok_stock end_stock result)) }
    ensures outlet { O.outlet order.new ≡ O.outlet order.old }
    ensures sink { O.sink order.new ≡ O.sink order.old }
    ensures cause { IfErr result StartMay }
    ensures below { IfOk result (λ below. below ≡ inside eof.old) }
    ensures next { OnOk result (eof.new ≡ next eof.old) }
    ensures fits { OnOk result (eof.old.last + 1 < 2 ^ 64) }
    ensures refused { IfErr result (PointerRefused eof.old.last) }
{
    match take_below(order, eof) {
        Ok(below) => Ok(below),
        Err(full) => Err(full.into()),
    }
}
