//! A list node hands its columns the parts of each chunk.

ghost use Rattle.std.specs.Prelude.{◌≡◌, ◌+◌, ◌<◌, ◌≤◌, ◌^◌, ℕ, suc, List, [], ◌∷◌, false, not, length, vec_len, IfOk, IfErr, OnOk};
ghost use Rattle.std.specs.Arc.{arc_value};
ghost use Rattle.std.specs.VecDeque.{deque_len, deque_capacity};
ghost use Rattle.vx_model.specs.Ty.{nullable, ty_eq};
ghost use Rattle.vx_model.specs.ChunkData.{piece_type, cells};
ghost use Rattle.vx_model.specs.TyView.{ty};
ghost use Rattle.vx_chunk_cells.specs.Parts.{element_type};
ghost use Rattle.vx_rules.specs.Columns.{list_columns};
ghost use Rattle.vx_split.specs.Causes.{IsPast};
ghost use Rattle.vx_split.specs.ListState.{behind, elements_to};
ghost use Rattle.vx_machine_ids.specs.Stock.{none, both};
ghost use Rattle.vx_machine_ids.specs.Balance.{Owned, Moved};
ghost use Rattle.vx_plan.specs.PlanData.{Setting};
ghost use Rattle.vx_machine_state.specs.State.{Tasks};
ghost use Rattle.vx_machine_nodes.specs.Acting.{ListRefused, taken, Took, TakeRefused, EndTaken, EndRefused};
ghost use Rattle.vx_machine_node.specs.Causes.{MayCome};
ghost use Rattle.vx_machine_node.specs.Ledger.{dues_reserved, local_reserved};
ghost use Rattle.vx_machine_node.specs.Stocks.{item_stock, dues_stock, local_stock};
ghost use Rattle.vx_machine_node.specs.View.{item_of, todo_of, mind_of};

use crate::columns::{add_puts, add_rows, has_type};
use std::alloc::Global;
use std::collections::VecDeque;
use vx_chunk::Chunk;
use vx_machine_ids::{give_up_id, take_children};
use vx_machine_node::{Due, Item, ListsNode, Local, Shape};
use vx_order::Order;
use vx_split::SplitError;
use vx_write_answer::WriteError;

/// The rows with the chunk's, which are one less than the offsets that the columns then have.
fn count_rows(rows: u64, more: u64) -> Result<u64, WriteError>
    ensures ok { IfOk result (λ n. n ≡ rows + more) }
    ensures fits { OnOk result (rows + more + 1 < 2 ^ 64) }
    ensures refused { IfErr result (ListRefused false ((rows + more) ∷ suc (rows + more) ∷ [])) }
    ensures cause { IfErr result MayCome }
{
    let total = add_rows(rows, more)?;
    add_rows(total, 1)?;
    Ok(total)
}

/// The chunk's columns, with room for what is to be done with them, and the rows with it.
fn split_lists(
    alloc: Global,
    node: &mut ListsNode,
    rows: u64,
    todo: &mut VecDeque<Due>,
    chunk: Chunk,
) -> Result<(Vec<Chunk>, u64), WriteError>
    ensures todo { todo.new.items ≡ todo.old.items }
    ensures room { IfOk result (λ r. deque_len todo.new + vec_len r.0 ≤ deque_capacity todo.new) }
    ensures same { node.new.dtype ≡ node.old.dtype }
    ensures typed { OnOk result (piece_type chunk ≡ ty (arc_value node.old.dtype)) }
    ensures columns { IfOk result (λ r. r.0.items ≡ list_columns (element_type (ty (arc_value node.old.dtype))) (nullable (ty (arc_value node.old.dtype))) node.old.split.first node.old.split.base chunk) }
    ensures next { OnOk result (node.new.split ≡ behind node.old.split chunk) }
    ensures rows { IfOk result (λ r. r.1 ≡ rows + length (cells chunk)) }
    ensures fits { OnOk result (rows + length (cells chunk) + 1 < 2 ^ 64) }
    ensures elements { OnOk result (elements_to node.old.split chunk < 2 ^ 64) }
    ensures refused { IfErr result (ListRefused (not (ty_eq (piece_type chunk) (ty (arc_value node.old.dtype))))
        ((rows + length (cells chunk)) ∷ suc (rows + length (cells chunk)) ∷ elements_to node.old.split chunk ∷ [])) }
    ensures cause { IfErr result MayCome }
{
    if !has_type(&chunk, &node.dtype) {
        return Err(WriteError::BatchType(chunk));
    }
    let rows = match count_rows(rows, chunk.len()) {
        Ok(rows) => rows,
        Err(error) => {
            drop(chunk);
            return Err(error);
        }
    };
    match node.split.react(alloc, chunk) {
        Ok(columns) => match todo.reserve(columns.len()) {
            Ok(()) => Ok((columns, rows)),
            Err(_) => {
                drop(columns);
                Err(WriteError::OutOfMemory)
            }
        },
        Err(error) => Err(split_refusal(error)),
    }
}

/// Why a chunk isn't split. The greatest u128 may stand for more elements, and no memory holds so many.
fn split_refusal(error: SplitError) -> WriteError
    ensures refused { (n : ℕ) → IsPast n error → ListRefused false (n ∷ []) result }
    ensures cause { (n : ℕ) → IsPast n error → MayCome result }
{
    match error {
        SplitError::TooLarge(n) => {
            if n == u128::MAX {
                return WriteError::OutOfMemory;
            }
            WriteError::TooLarge(n)
        }
        error => error.into(),
    }
}

/// Takes a chunk: each of its columns is to be put on the queue of a child, under a child of the chunk's id.
pub fn take_lists<O: Order>(
    alloc: Global,
    order: &mut O,
    node: &mut ListsNode,
    rows: &mut u64,
    todo: &mut VecDeque<Due>,
    item: Item,
) -> Result<(), WriteError>
    requires { Owned (O.active order.old) (both (dues_stock todo.old.items) (item_stock item)) }
    ensures moved { Moved (O.active order.old) (O.active order.new) (both (dues_stock todo.old.items) (item_stock item)) (dues_stock todo.new.items) }
    ensures reserved { dues_reserved todo.new.items ≡ dues_reserved todo.old.items }
    ensures done { OnOk result ((s : Setting) (name : List ℕ) (ks : Tasks)
        → Took (taken s name ks (item_of item) (mind_of (Local.Lists node.old rows.old))) (mind_of (Local.Lists node.new rows.new))
        (todo_of todo.new.items) (todo_of todo.old.items) ks) }
    ensures refused { IfErr result (λ e. (s : Setting) (name : List ℕ) (ks : Tasks)
        → TakeRefused (taken s name ks (item_of item) (mind_of (Local.Lists node.old rows.old))) e) }
    ensures outlet { O.outlet order.new ≡ O.outlet order.old }
    ensures sink { O.sink order.new ≡ O.sink order.old }
    ensures cause { IfErr result MayCome }
{
    let Item { id, chunk } = item;
    match split_lists(alloc, node, *rows, todo, chunk) {
        Ok((columns, total)) => match take_children(alloc, order, id, columns.len()) {
            Ok(ids) => {
                add_puts(todo, ids, columns);
                *rows = total;
                Ok(())
            }
            Err(error) => {
                drop(columns);
                Err(error.into())
            }
        },
        Err(error) => {
            give_up_id(order, id);
            Err(error)
        }
    }
}

/// What a list's task has in mind at the end of its stream, which it refuses where no chunk came.
pub fn end_lists(
    kids: usize,
    todo: &mut VecDeque<Due>,
    node: ListsNode,
    rows: u64,
) -> Result<Local, WriteError>
    requires { deque_len todo.old + 2 ≤ deque_capacity todo.old }
    ensures todo { dues_stock todo.new.items ≡ dues_stock todo.old.items }
    ensures local { IfOk result (λ l. local_stock l ≡ none) }
    ensures reserved { dues_reserved todo.new.items ≡ dues_reserved todo.old.items }
    ensures unreserved { IfOk result (λ l. local_reserved l ≡ 0) }
    ensures done { IfOk result (λ l. EndTaken (Local.Lists node rows) kids l (todo_of todo.new.items) (todo_of todo.old.items)) }
    ensures refused { IfErr result (EndRefused (Local.Lists node rows) kids) }
    ensures cause { IfErr result MayCome }
{
    if node.split.is_first() {
        drop(node);
        return Err(WriteError::EmptyList);
    }
    todo.push_back_reserved(Due::Close);
    todo.push_back_reserved(Due::Join(Shape::Lists(node, rows)));
    Ok(Local::Over)
}
