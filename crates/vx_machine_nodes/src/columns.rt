//! A struct node hands its columns the parts of each chunk.

ghost use Rattle.std.specs.Prelude.{◌≡◌, ◌↔◌, ◌+◌, ◌++◌, ◌<◌, ◌≤◌, ◌^◌, ℕ, List, ◌∷◌, false, not, length, vec_len, IsTrue, IfOk, IfErr, OnOk};
ghost use Rattle.std.specs.Arc.{arc_value};
ghost use Rattle.std.specs.VecDeque.{deque_len, deque_capacity};
ghost use Rattle.vx_path.specs.Path.{under};
ghost use Rattle.vx_model.specs.Ty.{ty_eq};
ghost use Rattle.vx_model.specs.ChunkData.{piece_type, cells};
ghost use Rattle.vx_model.specs.TyView.{ty};
ghost use Rattle.vx_order.specs.Ids.{children};
ghost use Rattle.vx_machine_ids.specs.Stock.{none, both, id_stock, all_ids};
ghost use Rattle.vx_machine_ids.specs.Balance.{Owned, Moved};
ghost use Rattle.vx_plan.specs.PlanData.{Setting};
ghost use Rattle.vx_machine_state.specs.State.{Tasks, by_column, put};
ghost use Rattle.vx_machine_state.specs.Acts.{columns_in, column_count, puts};
ghost use Rattle.vx_machine_nodes.specs.Acting.{SplitRefused, taken, Took, TakeRefused};
ghost use Rattle.vx_machine_node.specs.Causes.{MayCome};
ghost use Rattle.vx_machine_node.specs.Ledger.{dues_reserved};
ghost use Rattle.vx_machine_node.specs.Stocks.{item_stock, dues_stock};
ghost use Rattle.vx_machine_node.specs.View.{item_of, todo_of};

use std::alloc::Global;
use std::collections::VecDeque;
use vx_chunk::Chunk;
use vx_machine_ids::{give_up_id, take_children};
use vx_machine_node::{ColumnsNode, Due, Item};
use vx_model::DType;
use vx_order::Order;
use vx_sequence::SequenceId;
use vx_write_answer::WriteError;

/// The rows of one more chunk to those before it.
pub fn add_rows(rows: u64, more: u64) -> Result<u64, WriteError>
    ensures ok { IfOk result (λ n. n ≡ rows + more) }
    ensures fits { OnOk result (rows + more < 2 ^ 64) }
    ensures refused { IfErr result (SplitRefused false (rows + more)) }
    ensures cause { IfErr result MayCome }
{
    let total = u128::from(rows) + u128::from(more);
    if total > u128::from(u64::MAX) {
        return Err(WriteError::TooLarge(total));
    }
    Ok(total as u64)
}

/// Whether the chunk is of the type.
pub fn has_type(chunk: &Chunk, dtype: &DType) -> bool
    ensures { IsTrue result ↔ (piece_type chunk.now ≡ ty dtype.now) }
{
    chunk.dtype() == dtype
}

/// The chunk's columns, with room for what is to be done with them, and the rows with it.
fn split_chunk(
    alloc: Global,
    node: &ColumnsNode,
    rows: u64,
    todo: &mut VecDeque<Due>,
    chunk: Chunk,
) -> Result<(Vec<Chunk>, u64), WriteError>
    ensures todo { todo.new.items ≡ todo.old.items }
    ensures room { IfOk result (λ r. deque_len todo.new + vec_len r.0 ≤ deque_capacity todo.new) }
    ensures typed { OnOk result (IsTrue (ty_eq (piece_type chunk) (ty (arc_value node.now.dtype)))) }
    ensures columns { IfOk result (λ r. r.0.items ≡ columns_in (ty (arc_value node.now.dtype)) chunk) }
    ensures count { OnOk result (column_count (ty (arc_value node.now.dtype)) < 2 ^ 64) }
    ensures rows { IfOk result (λ r. r.1 ≡ rows + length (cells chunk)) }
    ensures fits { OnOk result (rows + length (cells chunk) < 2 ^ 64) }
    ensures refused { IfErr result (SplitRefused (not (ty_eq (piece_type chunk) (ty (arc_value node.now.dtype)))) (rows + length (cells chunk))) }
    ensures cause { IfErr result MayCome }
{
    if !has_type(&chunk, &node.dtype) {
        return Err(WriteError::BatchType(chunk));
    }
    let rows = match add_rows(rows, chunk.len()) {
        Ok(rows) => rows,
        Err(error) => {
            drop(chunk);
            return Err(error);
        }
    };
    let columns = node.split.react(alloc, chunk)?;
    match todo.reserve(columns.len()) {
        Ok(()) => Ok((columns, rows)),
        Err(_) => {
            drop(columns);
            Err(WriteError::OutOfMemory)
        }
    }
}

/// The chunk is to be put on the queue of the child whose number is that of the ids before the last one, which it takes.
fn add_put(todo: &mut VecDeque<Due>, ids: &mut Vec<SequenceId>, chunk: Chunk)
    requires some { 0 < vec_len ids.old }
    requires room { deque_len todo.old < deque_capacity todo.old }
    ensures stock { both (all_ids ids.new) (dues_stock todo.new.items) ≡ both (all_ids ids.old) (dues_stock todo.old.items) }
    ensures reserved { dues_reserved todo.new.items ≡ dues_reserved todo.old.items }
    ensures next { (p : List ℕ) → ids.old.items ≡ children p (vec_len ids.old) → (ids.new.items ≡ children p (vec_len ids.new))
        × (todo_of todo.new.items ≡ put (vec_len ids.new) (under p (vec_len ids.new), chunk) ∷ todo_of todo.old.items) }
    ensures ids { vec_len ids.new + 1 ≡ vec_len ids.old }
    ensures todo { deque_len todo.new ≡ deque_len todo.old + 1 }
    ensures capacity { deque_capacity todo.new ≡ deque_capacity todo.old }
{
    match ids.pop() {
        Some(id) => todo.push_front_reserved(Due::Put {
            child: ids.len(),
            item: Item { id, chunk },
        }),
        None => unreachable!(),
    }
}

/// A column each is to be put next on the queue of its child.
pub(crate) fn add_puts(todo: &mut VecDeque<Due>, mut ids: Vec<SequenceId>, mut columns: Vec<Chunk>)
    requires same { vec_len ids ≡ vec_len columns }
    requires room { deque_len todo.old + vec_len columns ≤ deque_capacity todo.old }
    ensures stock { dues_stock todo.new.items ≡ both (all_ids ids) (dues_stock todo.old.items) }
    ensures reserved { dues_reserved todo.new.items ≡ dues_reserved todo.old.items }
    ensures all { (p : List ℕ) → ids.items ≡ children p (vec_len ids) → todo_of todo.new.items ≡ puts 0 p columns.items ++ todo_of todo.old.items }
{
    'puts: while let Some(chunk) = columns.pop() {
        add_put(todo, &mut ids, chunk);
    }
    ids.destroy_empty();
    drop(columns);
}

/// Takes a chunk: each of its columns is to be put on the queue of a child, under a child of the chunk's id.
pub fn take_columns<O: Order>(
    alloc: Global,
    order: &mut O,
    node: &ColumnsNode,
    rows: &mut u64,
    todo: &mut VecDeque<Due>,
    item: Item,
) -> Result<(), WriteError>
    requires { Owned (O.active order.old) (both (dues_stock todo.old.items) (item_stock item)) }
    ensures moved { Moved (O.active order.old) (O.active order.new) (both (dues_stock todo.old.items) (item_stock item)) (dues_stock todo.new.items) }
    ensures reserved { dues_reserved todo.new.items ≡ dues_reserved todo.old.items }
    ensures done { OnOk result ((s : Setting) (name : List ℕ) (ks : Tasks)
        → Took (taken s name ks (item_of item) (by_column (ty (arc_value node.now.dtype)) rows.old)) (by_column (ty (arc_value node.now.dtype)) rows.new)
        (todo_of todo.new.items) (todo_of todo.old.items) ks) }
    ensures refused { IfErr result (λ e. (s : Setting) (name : List ℕ) (ks : Tasks)
        → TakeRefused (taken s name ks (item_of item) (by_column (ty (arc_value node.now.dtype)) rows.old)) e) }
    ensures outlet { O.outlet order.new ≡ O.outlet order.old }
    ensures sink { O.sink order.new ≡ O.sink order.old }
    ensures cause { IfErr result MayCome }
{
    let Item { id, chunk } = item;
    match split_chunk(alloc, node, *rows, todo, chunk) {
        Ok((columns, total)) => match take_children(alloc, order, id, columns.len()) {
            Ok(ids) => {
                add_puts(todo, ids, columns);
                *rows = total;
                Ok(())
            }
            Err(error) => {
                drop(columns);
                Err(error.into())
            }
        },
        Err(error) => {
            give_up_id(order, id);
            Err(error)
        }
    }
}
