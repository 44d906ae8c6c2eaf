//! A zoned node records each chunk beside handing it on. At the end the records make a table.

ghost use Rattle.std.specs.Prelude.{◌≡◌, ◌+◌, ◌<◌, ◌≤◌, ◌^◌, false, ℕ, List, None, length, IsTrue, IfOk, IfErr, OnOk, OnErr};
ghost use Rattle.std.specs.Arc.{arc_value};
ghost use Rattle.std.specs.VecDeque.{deque_len, deque_capacity};
ghost use Rattle.vx_hash.specs.XxHash3.{xxhash3_64};
ghost use Rattle.vx_model.specs.ChunkData.{ChunkData, piece_type, cells};
ghost use Rattle.vx_model.specs.TyView.{ty};
ghost use Rattle.vx_zone_record_spec.specs.Held.{record_fits};
ghost use Rattle.vx_turn_laws.specs.Guard.{Guard, refused_at, record_at, behind};
ghost use Rattle.vx_zone_guard.specs.GuardView.{values_of};
ghost use Rattle.vx_zone_guard.specs.Causes.{Refuses};
ghost use Rattle.vx_machine_ids.specs.Stock.{both, ok_stock};
ghost use Rattle.vx_machine_ids.specs.Balance.{Owned, Moved};
ghost use Rattle.vx_plan.specs.PlanData.{Setting};
ghost use Rattle.vx_machine_state.specs.State.{Tasks};
ghost use Rattle.vx_machine_state.specs.Zoned.{one_zone};
ghost use Rattle.vx_machine_nodes.specs.Acting.{ZoneRefused, taken, Took, TakeRefused, EndTaken};
ghost use Rattle.vx_machine_node.specs.Causes.{MayCome};
ghost use Rattle.vx_machine_node.specs.Ledger.{dues_reserved, local_reserved};
ghost use Rattle.vx_machine_node.specs.Stocks.{item_stock, dues_stock, local_stock, zoned_stock};
ghost use Rattle.vx_machine_node.specs.View.{item_of, todo_of, mind_of, zoner_in, zones_in};
ghost use Rattle.vx_machine_node.specs.declared.item.Due.TheVariants.{Table};
ghost use Rattle.vx_machine_node.specs.declared.node.Local.TheVariants.{Zoned};

use crate::columns::{add_rows, has_type};
use std::alloc::Global;
use std::collections::VecDeque;
use vx_chunk::Chunk;
use vx_machine_ids::{give_up_id, give_up_pointer};
use vx_machine_node::{Due, Item, Local, Shape, TableStart, ZonedNode, Zones, give_up_item};
use vx_model::Value;
use vx_order::Order;
use vx_write_answer::WriteError;
use vx_zone_guard::{GuardError, ZoneGuard};

// ---- a chunk

fn guard_refusal(error: GuardError) -> WriteError
    ensures refused { (g : Guard) → (p : ChunkData) → (rows : ℕ) → Refuses g p error → ZoneRefused (refused_at g p) false rows result }
    ensures cause { MayCome result }
{
    match error {
        GuardError::ZoneCut(rows) => WriteError::ZoneCut(rows),
        GuardError::OutOfMemory => WriteError::OutOfMemory,
    }
}

/// The chunk's record, which is empty where nothing is recorded.
fn record_of(alloc: Global, guard: &mut ZoneGuard, chunk: &Chunk) -> Result<Vec<Value>, WriteError>
    requires { piece_type chunk.now ≡ guard.old.typed }
    ensures values { IfOk result (λ v. values_of v ≡ record_at xxhash3_64 guard.old chunk.now) }
    ensures fits { IfOk result (λ v. IsTrue (record_fits guard.old.columns (values_of v))) }
    ensures next { OnOk result (guard.new ≡ behind guard.old chunk.now) }
    ensures makes_zones { OnOk result (refused_at guard.old chunk.now ≡ None) }
    ensures kept { OnErr result (guard.new ≡ guard.old) }
    ensures refused { (rows : ℕ) → IfErr result (ZoneRefused (refused_at guard.old chunk.now) false rows) }
    ensures cause { IfErr result MayCome }
{
    match guard.react(alloc, chunk) {
        Ok(Some(zone)) => Ok(zone),
        Ok(None) => Ok(Vec::new(alloc)),
        Err(error) => Err(guard_refusal(error)),
    }
}

/// Records the chunk, and counts its rows.
fn record_chunk(alloc: Global, node: &mut ZonedNode, chunk: &Chunk) -> Result<(), WriteError>
    requires typed { piece_type chunk.now ≡ ty (arc_value node.old.dtype) }
    ensures held { node.new.eof ≡ node.old.eof }
    ensures zoner { zoner_in node.new ≡ zoner_in node.old }
    ensures zones { OnOk result ((s : Setting) → s.hash ≡ xxhash3_64 → zones_in node.new ≡ one_zone s (zoner_in node.old) (zones_in node.old) chunk.now) }
    ensures makes_zones { OnOk result (refused_at node.old.guard chunk.now ≡ None) }
    ensures fits { OnOk result (node.old.rows + length (cells chunk.now) < 2 ^ 64) }
    ensures refused { IfErr result (ZoneRefused (refused_at node.old.guard chunk.now) false (node.old.rows + length (cells chunk.now))) }
    ensures cause { IfErr result MayCome }
{
    let rows = add_rows(node.rows, chunk.len())?;
    let zone = record_of(alloc, &mut node.guard, chunk)?;
    node.records.push(zone)?;
    node.rows = rows;
    Ok(())
}

/// Takes a chunk, which is to be put on the queue of the data child.
pub fn take_zoned<O: Order>(
    alloc: Global,
    order: &mut O,
    node: &mut ZonedNode,
    todo: &mut VecDeque<Due>,
    item: Item,
) -> Result<(), WriteError>
    requires { Owned (O.active order.old) (both (both (zoned_stock node.old) (dues_stock todo.old.items)) (item_stock item)) }
    ensures moved { Moved (O.active order.old) (O.active order.new) (both (both (zoned_stock node.old) (dues_stock todo.old.items)) (item_stock item)) (both (zoned_stock node.new) (dues_stock todo.new.items)) }
    ensures reserved { dues_reserved todo.new.items ≡ dues_reserved todo.old.items }
    ensures done { OnOk result ((s : Setting) (name : List ℕ) (ks : Tasks) → s.hash ≡ xxhash3_64
        → Took (taken s name ks (item_of item) (mind_of (Zoned node.old))) (mind_of (Zoned node.new)) (todo_of todo.new.items) (todo_of todo.old.items) ks) }
    ensures refused { IfErr result (λ e. (s : Setting) (name : List ℕ) (ks : Tasks) → TakeRefused (taken s name ks (item_of item) (mind_of (Zoned node.old))) e) }
    ensures outlet { O.outlet order.new ≡ O.outlet order.old }
    ensures sink { O.sink order.new ≡ O.sink order.old }
    ensures cause { IfErr result MayCome }
{
    if !has_type(&item.chunk, &node.dtype) {
        let Item { id, chunk } = item;
        give_up_id(order, id);
        return Err(WriteError::BatchType(chunk));
    }
    if let Err(_) = todo.reserve(1) {
        give_up_item(order, item);
        return Err(WriteError::OutOfMemory);
    }
    match record_chunk(alloc, node, &item.chunk) {
        Ok(()) => {
            todo.push_front_reserved(Due::Put { child: 0, item });
            Ok(())
        }
        Err(error) => {
            give_up_item(order, item);
            Err(error)
        }
    }
}

// ---- the end

/// What a zoned node's task has in mind at the end of its stream. Without a table its layout is its only child's.
pub fn end_zoned<O: Order>(
    alloc: Global,
    order: &mut O,
    todo: &mut VecDeque<Due>,
    node: ZonedNode,
) -> Result<Local, WriteError>
    requires owned { Owned (O.active order.old) (both (zoned_stock node) (dues_stock todo.old.items)) }
    requires room { deque_len todo.old + 3 ≤ deque_capacity todo.old }
    ensures moved { Moved (O.active order.old) (O.active order.new) (both (zoned_stock node) (dues_stock todo.old.items)) (both (ok_stock local_stock result) (dues_stock todo.new.items)) }
    ensures reserved { dues_reserved todo.new.items ≡ dues_reserved todo.old.items }
    ensures unreserved { IfOk result (λ l. local_reserved l ≡ 0) }
    ensures done { (kids : ℕ) → IfOk result (λ l. EndTaken (Zoned node) kids l (todo_of todo.new.items) (todo_of todo.old.items)) }
    ensures memory { IfErr result (λ e. e ≡ WriteError.OutOfMemory) }
    ensures outlet { O.outlet order.new ≡ O.outlet order.old }
    ensures sink { O.sink order.new ≡ O.sink order.old }
    ensures cause { IfErr result MayCome }
{
    let ZonedNode {
        dtype,
        zone_len,
        guard,
        records,
        stats,
        eof,
        rows,
    } = node;
    drop(guard);
    match records.finish(alloc) {
        Ok(Some((chunk, aggregates))) => {
            todo.push_back_reserved(Due::Close);
            todo.push_back_reserved(Due::Table(TableStart { stats, chunk, eof }));
            todo.push_back_reserved(Due::Join(Shape::Zones(Zones {
                dtype,
                rows,
                zone_len,
                aggregates,
            })));
            Ok(Local::Over)
        }
        Ok(None) => {
            drop((dtype, stats));
            todo.push_back_reserved(Due::Close);
            todo.push_back_reserved(Due::Leave(eof));
            Ok(Local::Passing)
        }
        Err(_) => {
            drop((dtype, stats));
            give_up_pointer(order, eof);
            Err(WriteError::OutOfMemory)
        }
    }
}
