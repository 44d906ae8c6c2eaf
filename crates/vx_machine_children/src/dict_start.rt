//! What a dictionary node starts once its first chunk is probed: the fallback, or codes and values of each run.

ghost use Rattle.std.specs.Prelude.{◌≡◌, ◌+◌, ◌<◌, ◌≤◌, ◌^◌, [], ◌∷◌, false, length, vec_len, vec_capacity, IsTrue, IfOk, IfErr, OnOk};
ghost use Rattle.std.specs.Arc.{arc_value};
ghost use Rattle.vx_path.specs.Path.{Eof, under};
ghost use Rattle.vx_model.specs.TyView.{ty};
ghost use Rattle.vx_rules.specs.Runs.{code_type};
ghost use Rattle.vx_machine_ids.specs.Stock.{none, both, id_stock, end_stock, ok_stock};
ghost use Rattle.vx_machine_ids.specs.Balance.{Owned, Moved};
ghost use Rattle.vx_sink.specs.ContextView.{allowed_in, counted};
ghost use Rattle.vx_machine_state.specs.State.{Tasks, no_tasks, task_then};
ghost use Rattle.vx_machine_state.specs.Start.{first_mind, first_kids, first_indices, waiting, started_task};
ghost use Rattle.vx_machine_state.specs.Acts.{add, with_item};
ghost use Rattle.vx_machine_node.specs.Causes.{MayCome, StartMay};
ghost use Rattle.vx_machine_node.specs.Ledger.{Paid, told_by, ok_bytes};
ghost use Rattle.vx_machine_node.specs.Outcome.{AllFit};
ghost use Rattle.vx_machine_node.specs.Stocks.{item_stock};
ghost use Rattle.vx_machine_node.specs.View.{form_at, options_in, coder_in, item_of};
ghost use Rattle.vx_machine_task.specs.Ledger.{task_reserved, tasks_reserved};
ghost use Rattle.vx_machine_start.specs.Starting.{IsAllowed, Started, KidStarted, FormRefused};
ghost use Rattle.vx_machine_task.specs.Stocks.{task_stock, tasks_stock};
ghost use Rattle.vx_machine_task.specs.View.{desk_of, task_row, row};
ghost use Rattle.vx_machine_task.specs.declared.task.Task.{out-Task};

use std::alloc::{AllocError, Global};
use std::sync::Arc;
use vx_machine_ids::{give_up_id, give_up_pointer, index_fits, take_inside};
use vx_machine_node::{DictNode, Item, give_up_item};
use vx_machine_start::{child_parts, start_task};
use vx_machine_task::Task;
use vx_model::{DType, Nullability};
use vx_order::Order;
use vx_path::owned::Path;
use vx_runs::code_ptype;
use vx_sequence::{SequenceId, SequencePointer};
use vx_sink::LayoutWriterContext;
use vx_strategy::ChildStrategy;
use vx_write_answer::WriteError;

/// Starts the fallback behind the children that are there, with the node's pointer.
pub fn start_fallback<O: Order>(
    alloc: Global,
    ctx: &LayoutWriterContext,
    order: &mut O,
    node: &DictNode,
    name: &Path,
    kids: &mut Vec<Task>,
    pointer: SequencePointer,
) -> Result<(), WriteError>
    requires { Owned (O.active order.old) (both (tasks_stock kids.old.items) (end_stock pointer)) }
    ensures moved { Moved (O.active order.old) (O.active order.new) (both (tasks_stock kids.old.items) (end_stock pointer)) (tasks_stock kids.new.items) }
    ensures reserved { tasks_reserved kids.new.items ≡ tasks_reserved kids.old.items }
    ensures allowed { OnOk result (IsAllowed (allowed_in ctx.now) (coder_in node.now).fallback node.now.marked) }
    ensures counted { OnOk result (AllFit (first_indices (coder_in node.now).fallback node.now.marked pointer)) }
    ensures kids { OnOk result (row kids.new.items ≡ add (row kids.old.items) (started_task (coder_in node.now).fallback node.now.marked (under name.now (length kids.old.items)) pointer [] false)) }
    ensures refused { IfErr result (FormRefused (allowed_in ctx.now) (coder_in node.now).fallback node.now.marked pointer) }
    ensures outlet { O.outlet order.new ≡ O.outlet order.old }
    ensures sink { O.sink order.new ≡ O.sink order.old }
    ensures cause { IfErr result StartMay }
{
    index_fits(&pointer);
    match child_parts(alloc, name, &node.dtype, kids) {
        Ok((name, dtype)) => {
            let child = node.fallback.strategy();
            let marked = node.marked;
            let kid = start_task(alloc, ctx, order, child, dtype, marked, name, pointer)?;
            kids.push_reserved(kid);
            Ok(())
        }
        Err(_) => {
            give_up_pointer(order, pointer);
            Err(WriteError::OutOfMemory)
        }
    }
}

/// The task of this number, with a pointer below the id's path.
fn start_inside<O: Order>(
    alloc: Global,
    ctx: &LayoutWriterContext,
    order: &mut O,
    writer: &ChildStrategy,
    dtype: Arc<DType>,
    marked: bool,
    name: Path,
    id: SequenceId,
) -> Result<Task, WriteError>
    requires owned { Owned (O.active order.old) (id_stock id) }
    ensures moved { Moved (O.active order.old) (O.active order.new) (id_stock id) (ok_stock task_stock result) }
    ensures shows { (e : Eof) → e.stem ≡ id → e.last ≡ 0 → IfOk result (Started (allowed_in ctx.now) (form_at writer.now.item (ty (arc_value dtype))) marked name e) }
    ensures refused { (e : Eof) → e.stem ≡ id → e.last ≡ 0 → IfErr result (FormRefused (allowed_in ctx.now) (form_at writer.now.item (ty (arc_value dtype))) marked e) }
    ensures outlet { O.outlet order.new ≡ O.outlet order.old }
    ensures sink { O.sink order.new ≡ O.sink order.old }
    ensures cause { IfErr result StartMay }
{
    match take_inside(order, id) {
        Ok(below) => {
            let strategy = writer.strategy();
            start_task(alloc, ctx, order, strategy, dtype, marked, name, below)
        }
        Err(error) => {
            drop((dtype, name));
            Err(error.into())
        }
    }
}

/// The task with the item on its queue.
fn given<O: Order>(
    ctx: &mut LayoutWriterContext,
    order: &mut O,
    mut kid: Task,
    item: Item,
) -> Result<Task, WriteError>
    requires owned { Owned (O.active order.old) (both (task_stock kid) (item_stock item)) }
    requires reserved { task_reserved kid ≤ counted ctx.old }
    ensures moved { Moved (O.active order.old) (O.active order.new) (both (task_stock kid) (item_stock item)) (ok_stock task_stock result) }
    ensures tracked { Paid ctx.old ctx.new (task_reserved kid) (ok_bytes task_reserved result) }
    ensures context { told_by ctx.new ≡ told_by ctx.old }
    ensures given { IfOk result (λ t. (r : Tasks) → task_row t r ≡ task_then (with_item (desk_of (out-Task kid).head) (item_of item)) (row (out-Task kid).kids.items) r) }
    ensures outlet { O.outlet order.new ≡ O.outlet order.old }
    ensures sink { O.sink order.new ≡ O.sink order.old }
    ensures memory { IfErr result (λ e. e ≡ WriteError.OutOfMemory) }
{
    match kid.give(item) {
        Ok(()) => Ok(kid),
        Err(item) => {
            give_up_item(order, item);
            kid.refuse(ctx, order);
            Err(WriteError::OutOfMemory)
        }
    }
}

/// Room for one more child, its name by its number, and the type of codes.
fn codes_parts(
    alloc: Global,
    node: &DictNode,
    name: &Path,
    child: usize,
    kids: &mut Vec<Task>,
) -> Result<(Path, Arc<DType>), AllocError>
    ensures name { IfOk result (λ r. r.0 ≡ under name.now child) }
    ensures dtype { IfOk result (λ r. ty (arc_value r.1) ≡ code_type (options_in node.now)) }
    ensures kids { kids.new.items ≡ kids.old.items }
    ensures room { OnOk result (vec_len kids.new + 1 ≤ vec_capacity kids.new) }
{
    kids.reserve(1)?;
    let name = Path::child(alloc, name.as_slice(), child as u64)?;
    let dtype = DType::Primitive(code_ptype(node.constraints), Nullability::NonNullable);
    let dtype = Arc::new(alloc, dtype)?;
    Ok((name, dtype))
}

/// The same of values.
fn values_parts(
    alloc: Global,
    node: &DictNode,
    name: &Path,
    child: usize,
    kids: &mut Vec<Task>,
) -> Result<(Path, Arc<DType>), AllocError>
    ensures name { IfOk result (λ r. r.0 ≡ under name.now child) }
    ensures dtype { IfOk result (λ r. ty (arc_value r.1) ≡ ty (arc_value node.now.dtype)) }
    ensures kids { kids.new.items ≡ kids.old.items }
    ensures room { OnOk result (vec_len kids.new + 1 ≤ vec_capacity kids.new) }
{
    kids.reserve(1)?;
    let name = Path::child(alloc, name.as_slice(), child as u64)?;
    let dtype = Arc::try_clone(&node.dtype)?;
    Ok((name, dtype))
}

/// Starts the codes of a run, which get the item.
pub fn start_codes<O: Order>(
    alloc: Global,
    ctx: &mut LayoutWriterContext,
    order: &mut O,
    node: &DictNode,
    name: &Path,
    kids: &mut Vec<Task>,
    child: usize,
    id: SequenceId,
    item: Item,
) -> Result<(), WriteError>
    requires owned { Owned (O.active order.old) (both (tasks_stock kids.old.items) (both (id_stock id) (item_stock item))) }
    requires reserved { tasks_reserved kids.old.items ≤ counted ctx.old }
    ensures moved { Moved (O.active order.old) (O.active order.new) (both (tasks_stock kids.old.items) (both (id_stock id) (item_stock item))) (tasks_stock kids.new.items) }
    ensures tracked { Paid ctx.old ctx.new (tasks_reserved kids.old.items) (tasks_reserved kids.new.items) }
    ensures context { told_by ctx.new ≡ told_by ctx.old }
    ensures started { (e : Eof) → e.stem ≡ id → e.last ≡ 0 → OnOk result (KidStarted (allowed_in ctx.old) (coder_in node.now).codes node.now.marked (under name.now child) e (item_of item ∷ []) kids.old.items kids.new.items) }
    ensures refused { (e : Eof) → e.stem ≡ id → e.last ≡ 0 → IfErr result (FormRefused (allowed_in ctx.old) (coder_in node.now).codes node.now.marked e) }
    ensures outlet { O.outlet order.new ≡ O.outlet order.old }
    ensures sink { O.sink order.new ≡ O.sink order.old }
    ensures cause { IfErr result StartMay }
{
    match codes_parts(alloc, node, name, child, kids) {
        Ok((name, dtype)) => {
            match start_inside(alloc, ctx, order, &node.codes, dtype, node.marked, name, id) {
                Ok(kid) => {
                    let kid = given(ctx, order, kid, item)?;
                    kids.push_reserved(kid);
                    Ok(())
                }
                Err(error) => {
                    give_up_item(order, item);
                    Err(error)
                }
            }
        }
        Err(_) => {
            give_up_id(order, id);
            give_up_item(order, item);
            Err(WriteError::OutOfMemory)
        }
    }
}

/// Starts the values of a run.
pub fn start_values<O: Order>(
    alloc: Global,
    ctx: &LayoutWriterContext,
    order: &mut O,
    node: &DictNode,
    name: &Path,
    kids: &mut Vec<Task>,
    child: usize,
    id: SequenceId,
) -> Result<(), WriteError>
    requires { Owned (O.active order.old) (both (tasks_stock kids.old.items) (id_stock id)) }
    ensures moved { Moved (O.active order.old) (O.active order.new) (both (tasks_stock kids.old.items) (id_stock id)) (tasks_stock kids.new.items) }
    ensures reserved { tasks_reserved kids.new.items ≡ tasks_reserved kids.old.items }
    ensures started { (e : Eof) → e.stem ≡ id → e.last ≡ 0 → OnOk result (KidStarted (allowed_in ctx.now) (coder_in node.now).values node.now.marked (under name.now child) e [] kids.old.items kids.new.items) }
    ensures refused { (e : Eof) → e.stem ≡ id → e.last ≡ 0 → IfErr result (FormRefused (allowed_in ctx.now) (coder_in node.now).values node.now.marked e) }
    ensures outlet { O.outlet order.new ≡ O.outlet order.old }
    ensures sink { O.sink order.new ≡ O.sink order.old }
    ensures cause { IfErr result StartMay }
{
    match values_parts(alloc, node, name, child, kids) {
        Ok((name, dtype)) => {
            let kid = start_inside(
                alloc,
                ctx,
                order,
                &node.values,
                dtype,
                node.marked,
                name,
                id,
            )?;
            kids.push_reserved(kid);
            Ok(())
        }
        Err(_) => {
            give_up_id(order, id);
            Err(WriteError::OutOfMemory)
        }
    }
}
