//! What a task does at the end of its stream.

ghost use Rattle.std.specs.Prelude.{◌≡◌, ◌≤◌, ◌+◌, ◌&&◌, ◌==◌, [], IsFalse, IfOk, IfErr, OnOk};
ghost use Rattle.std.specs.Arc.{arc_value};
ghost use Rattle.std.specs.VecDeque.{deque_len, deque_capacity};
ghost use Rattle.vx_model.specs.TyView.{ty};
ghost use Rattle.vx_layout_spec.specs.LayoutTree.{gathered};
ghost use Rattle.vx_machine_ids.specs.Stock.{none, both, ok_stock};
ghost use Rattle.vx_machine_ids.specs.Balance.{Owned, Moved};
ghost use Rattle.vx_sink.specs.ContextView.{counted};
ghost use Rattle.vx_machine_state.specs.State.{made as has_layout};
ghost use Rattle.vx_machine_state.specs.Acts.{column_count};
ghost use Rattle.vx_machine_nodes.specs.Acting.{is_probe, EndTaken, EndRefused};
ghost use Rattle.vx_machine_node.specs.Causes.{MayCome};
ghost use Rattle.vx_machine_node.specs.Ledger.{Paid, told_by, ok_bytes, dues_reserved, local_reserved};
ghost use Rattle.vx_machine_node.specs.Stocks.{dues_stock, local_stock};
ghost use Rattle.vx_machine_node.specs.View.{todo_of, mind_of};

use crate::join::{gather, join_columns};
use std::alloc::Global;
use std::collections::VecDeque;
use std::mem;
use vx_machine_ids::give_up_pointer;
use vx_machine_node::{ChunkedNode, ColumnsNode, Due, FlatNode, Local, Shape, set_local};
use vx_machine_nodes::{end_grouped, end_lists, end_runs, end_zoned};
use vx_machine_task::columns_fit;
use vx_order::Order;
use vx_sink::LayoutWriterContext;
use vx_write_answer::WriteError;

/// What a flat node's task has in mind at the end of a stream without chunks: its layout.
fn end_empty(alloc: Global, node: &FlatNode) -> Result<Local, WriteError>
    ensures local { IfOk result (λ l. local_stock l ≡ none) }
    ensures unreserved { IfOk result (λ l. local_reserved l ≡ 0) }
    ensures layout { IfOk result (λ l. mind_of l ≡ has_layout (gathered (ty (arc_value node.now.dtype)) 0 [])) }
    ensures memory { IfErr result (λ e. e ≡ WriteError.OutOfMemory) }
    ensures cause { IfErr result MayCome }
{
    let layout = gather(&node.dtype, Vec::new(alloc))?;
    Ok(Local::Made(layout))
}

/// Whether there are no children, and the type has no columns.
fn has_no_columns(node: &ColumnsNode, kids: usize) -> bool
    ensures { result ≡ ((kids == 0) && (0 == column_count (ty (arc_value node.now.dtype)))) }
{
    let fits = columns_fit(node, 0);
    kids == 0 && fits
}

/// What a struct's task has in mind at the end of its stream: without columns its layout at once.
fn end_columns(
    kids: usize,
    todo: &mut VecDeque<Due>,
    node: ColumnsNode,
    rows: u64,
) -> Result<Local, WriteError>
    requires { deque_len todo.old + 2 ≤ deque_capacity todo.old }
    ensures todo { dues_stock todo.new.items ≡ dues_stock todo.old.items }
    ensures reserved { dues_reserved todo.new.items ≡ dues_reserved todo.old.items }
    ensures local { IfOk result (λ l. local_stock l ≡ none) }
    ensures unreserved { IfOk result (λ l. local_reserved l ≡ 0) }
    ensures done { IfOk result (λ l. EndTaken (Local.Columns node rows) kids l (todo_of todo.new.items) (todo_of todo.old.items)) }
    ensures memory { IfErr result (λ e. e ≡ WriteError.OutOfMemory) }
    ensures cause { IfErr result MayCome }
{
    if has_no_columns(&node, kids) {
        let layout = join_columns(&node, rows, Vec::new(*todo.allocator()));
        drop(node);
        return match layout {
            Ok(layout) => Ok(Local::Made(layout)),
            Err(error) => Err(error),
        };
    }
    todo.push_back_reserved(Due::Close);
    todo.push_back_reserved(Due::Join(Shape::Columns(node, rows)));
    Ok(Local::Over)
}

/// What is in mind behind the end, and what is still to be done.
fn ended<O: Order>(
    alloc: Global,
    ctx: &mut LayoutWriterContext,
    order: &mut O,
    kids: usize,
    todo: &mut VecDeque<Due>,
    local: Local,
) -> Result<Local, WriteError>
    requires owned { Owned (O.active order.old) (both (local_stock local) (dues_stock todo.old.items)) }
    requires reserved { local_reserved local + dues_reserved todo.old.items ≤ counted ctx.old }
    requires room { deque_len todo.old + 3 ≤ deque_capacity todo.old }
    requires other { IsFalse (is_probe local) }
    ensures moved { Moved (O.active order.old) (O.active order.new) (both (local_stock local) (dues_stock todo.old.items)) (both (ok_stock local_stock result) (dues_stock todo.new.items)) }
    ensures tracked { Paid ctx.old ctx.new (local_reserved local + dues_reserved todo.old.items) (ok_bytes local_reserved result + dues_reserved todo.new.items) }
    ensures context { told_by ctx.new ≡ told_by ctx.old }
    ensures done { todo.old.items ≡ [] → IfOk result (λ l. EndTaken local kids l (todo_of todo.new.items) (todo_of todo.old.items)) }
    ensures refused { IfErr result (EndRefused local kids) }
    ensures outlet { O.outlet order.new ≡ O.outlet order.old }
    ensures sink { O.sink order.new ≡ O.sink order.old }
    ensures cause { IfErr result MayCome }
{
    match local {
        Local::Empty(node) => {
            let after = end_empty(alloc, &node);
            drop(node);
            after
        }
        Local::Full(stored) => {
            todo.push_back_reserved(Due::Append(stored));
            Ok(Local::Over)
        }
        Local::Chunked(node, eof, _) => {
            let ChunkedNode { dtype, child, .. } = node;
            drop(child);
            give_up_pointer(order, eof);
            todo.push_back_reserved(Due::Join(Shape::Chunks(dtype)));
            Ok(Local::Over)
        }
        Local::Columns(node, rows) => end_columns(kids, todo, node, rows),
        Local::Lists(node, rows) => end_lists(kids, todo, node, rows),
        Local::Grouped(node) => end_grouped(alloc, ctx, order, todo, node),
        Local::Zoned(node) => end_zoned(alloc, order, todo, node),
        Local::Pressing(_) | Local::AsIs => {
            todo.push_back_reserved(Due::Close);
            Ok(Local::Passing)
        }
        Local::Probe(..) => unreachable!(),
        Local::Asking => Ok(Local::Asking),
        Local::Runs(runs) => end_runs(alloc, order, todo, runs),
        Local::Over => Ok(Local::Over),
        Local::Passing => Ok(Local::Passing),
        Local::Made(layout) => Ok(Local::Made(layout)),
    }
}

/// Takes the end of the stream.
pub fn end<O: Order>(
    alloc: Global,
    ctx: &mut LayoutWriterContext,
    order: &mut O,
    kids: usize,
    local: &mut Local,
    todo: &mut VecDeque<Due>,
) -> Result<(), WriteError>
    requires owned { Owned (O.active order.old) (both (local_stock local.old) (dues_stock todo.old.items)) }
    requires reserved { local_reserved local.old + dues_reserved todo.old.items ≤ counted ctx.old }
    requires other { IsFalse (is_probe local.old) }
    ensures moved { Moved (O.active order.old) (O.active order.new) (both (local_stock local.old) (dues_stock todo.old.items)) (both (local_stock local.new) (dues_stock todo.new.items)) }
    ensures tracked { Paid ctx.old ctx.new (local_reserved local.old + dues_reserved todo.old.items) (local_reserved local.new + dues_reserved todo.new.items) }
    ensures context { told_by ctx.new ≡ told_by ctx.old }
    ensures done { todo.old.items ≡ [] → OnOk result (EndTaken local.old kids local.new (todo_of todo.new.items) (todo_of todo.old.items)) }
    ensures refused { IfErr result (EndRefused local.old kids) }
    ensures outlet { O.outlet order.new ≡ O.outlet order.old }
    ensures sink { O.sink order.new ≡ O.sink order.old }
    ensures cause { IfErr result MayCome }
{
    todo.reserve(3)?;
    let before = mem::replace(local, Local::Over);
    match ended(alloc, ctx, order, kids, todo, before) {
        Ok(after) => {
            set_local(ctx, order, local, after);
            Ok(())
        }
        Err(error) => Err(error),
    }
}
