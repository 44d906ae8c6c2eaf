//! A zone table's child, which writes the table once the data is written.

ghost use Rattle.std.specs.Prelude.{◌≡◌, ◌+◌, ◌<◌, ◌≤◌, ◌^◌, ℕ, List, true, false, [], ◌∷◌, IsTrue, vec_len, vec_capacity, IfOk, IfErr, OnOk};
ghost use Rattle.std.specs.Arc.{arc_value};
ghost use Rattle.vx_path.specs.Path.{under, eof_path, next};
ghost use Rattle.vx_model.specs.ChunkData.{piece_type};
ghost use Rattle.vx_model.specs.TyView.{ty};
ghost use Rattle.vx_machine_ids.specs.Stock.{both, id_stock, end_stock, ok_stock};
ghost use Rattle.vx_machine_ids.specs.Balance.{Owned, Moved};
ghost use Rattle.vx_sink.specs.ContextView.{allowed_in, counted};
ghost use Rattle.vx_plan.specs.PlanData.{Setting};
ghost use Rattle.vx_machine_state.specs.State.{Next, Mind};
ghost use Rattle.vx_machine_state.specs.Start.{first_indices, started_task};
ghost use Rattle.vx_machine_state.specs.Acts.{add};
ghost use Rattle.vx_machine_nodes.specs.Acting.{acted, ActDone, ActRefused};
ghost use Rattle.vx_machine_node.specs.Causes.{MayCome};
ghost use Rattle.vx_machine_node.specs.Ledger.{Paid, told_by};
ghost use Rattle.vx_machine_task.specs.Ledger.{tasks_reserved};
ghost use Rattle.vx_machine_start.specs.Starting.{IsAllowed, Counted, FormRefused, PointerRefused};
ghost use Rattle.vx_machine_node.specs.Stocks.{item_stock, table_stock};
ghost use Rattle.vx_machine_task.specs.Stocks.{tasks_stock};
ghost use Rattle.vx_machine_node.specs.View.{form_at, item_of, next_of};
ghost use Rattle.vx_machine_task.specs.View.{row};
ghost use Rattle.vx_machine_node.specs.declared.item.Due.TheVariants.{Table};

use crate::chunked::fed;
use std::alloc::Global;
use std::sync::Arc;
use vx_chunk::Chunk;
use vx_machine_ids::{give_up_pointer, take_below, take_id};
use vx_machine_node::{Item, TableStart, give_up_item};
use vx_machine_start::start_task;
use vx_machine_task::Task;
use vx_model::DType;
use vx_order::Order;
use vx_path::owned::Path;
use vx_sequence::{SequenceId, SequencePointer};
use vx_sink::LayoutWriterContext;
use vx_strategy::ChildStrategy;
use vx_write_answer::{ActionKind, WriteError};

/// The id of the first path below the pointer's, which goes on.
fn take_first<O: Order>(order: &mut O, eof: &mut SequencePointer) -> Result<SequenceId, WriteError>
    requires { Owned (O.active order.old) (end_stock eof.old) }
    ensures moved { Moved (O.active order.old) (O.active order.new) (end_stock eof.old) (both (end_stock eof.new) (ok_stock id_stock result)) }
    ensures id { IfOk result (λ id. id ≡ under (eof_path eof.old) 0) }
    ensures next { OnOk result (eof.new ≡ next eof.old) }
    ensures fits { OnOk result (eof.old.last + 1 < 2 ^ 64) }
    ensures refused { IfErr result (PointerRefused eof.old.last) }
    ensures outlet { O.outlet order.new ≡ O.outlet order.old }
    ensures sink { O.sink order.new ≡ O.sink order.old }
    ensures cause { IfErr result MayCome }
{
    let mut below = take_below(order, eof)?;
    let id = take_id(order, &mut below);
    give_up_pointer(order, below);
    let id = id?;
    Ok(id)
}

/// Starts the table's child, which gets the table alone: the table stands below the pointer's path, and the child writes from
/// the next one on.
pub fn start_table<O: Order>(
    alloc: Global,
    ctx: &mut LayoutWriterContext,
    order: &mut O,
    name: &Path,
    kids: &mut Vec<Task>,
    table: TableStart,
) -> Result<ActionKind, WriteError>
    requires owned { Owned (O.active order.old) (both (tasks_stock kids.old.items) (table_stock table)) }
    requires reserved { tasks_reserved kids.old.items ≤ counted ctx.old }
    ensures moved { Moved (O.active order.old) (O.active order.new) (both (tasks_stock kids.old.items) (table_stock table)) (tasks_stock kids.new.items) }
    ensures tracked { Paid ctx.old ctx.new (tasks_reserved kids.old.items) (tasks_reserved kids.new.items) }
    ensures context { told_by ctx.new ≡ told_by ctx.old }
    ensures done { IfOk result (λ a. (s : Setting) (n : ℕ) (mind : Mind) (left : List Next) → s.allowed ≡ allowed_in ctx.old
        → ActDone (acted s name.now n mind (row kids.old.items) (next_of (Table table))) (O.outlet order.old) n (O.outlet order.new) mind left left (row kids.new.items) a) }
    ensures refused { IfErr result (λ e. (s : Setting) (n : ℕ) (mind : Mind) → s.allowed ≡ allowed_in ctx.old
        → ActRefused (acted s name.now n mind (row kids.old.items) (next_of (Table table))) (O.outlet order.old) e) }
    ensures outlet { O.outlet order.new ≡ O.outlet order.old }
    ensures sink { O.sink order.new ≡ O.sink order.old }
    ensures cause { IfErr result MayCome }
{
    let TableStart {
        stats,
        chunk,
        mut eof,
    } = table;
    match take_first(order, &mut eof) {
        Ok(id) => {
            let item = Item { id, chunk };
            start_fed(alloc, ctx, order, name, kids, &stats, item, eof)?;
            drop(stats);
            Ok(ActionKind::Join)
        }
        Err(error) => {
            drop((stats, chunk));
            give_up_pointer(order, eof);
            Err(error)
        }
    }
}

/// Starts the second child, which gets the item alone.
fn start_fed<O: Order>(
    alloc: Global,
    ctx: &mut LayoutWriterContext,
    order: &mut O,
    name: &Path,
    kids: &mut Vec<Task>,
    stats: &ChildStrategy,
    item: Item,
    eof: SequencePointer,
) -> Result<(), WriteError>
    requires owned { Owned (O.active order.old) (both (both (tasks_stock kids.old.items) (item_stock item)) (end_stock eof)) }
    requires reserved { tasks_reserved kids.old.items ≤ counted ctx.old }
    ensures moved { Moved (O.active order.old) (O.active order.new) (both (both (tasks_stock kids.old.items) (item_stock item)) (end_stock eof)) (tasks_stock kids.new.items) }
    ensures tracked { Paid ctx.old ctx.new (tasks_reserved kids.old.items) (tasks_reserved kids.new.items) }
    ensures context { told_by ctx.new ≡ told_by ctx.old }
    ensures allowed { OnOk result (IsAllowed (allowed_in ctx.old) (form_at stats.now.item (piece_type item.chunk)) false) }
    ensures kids { OnOk result (row kids.new.items ≡ add (row kids.old.items) (started_task (form_at stats.now.item (piece_type item.chunk)) false (under name.now 1) eof (item_of item ∷ []) true)) }
    ensures fit { OnOk result (Counted eof (first_indices (form_at stats.now.item (piece_type item.chunk)) false eof)) }
    ensures refused { IfErr result (FormRefused (allowed_in ctx.old) (form_at stats.now.item (piece_type item.chunk)) false eof) }
    ensures outlet { O.outlet order.new ≡ O.outlet order.old }
    ensures sink { O.sink order.new ≡ O.sink order.old }
    ensures cause { IfErr result MayCome }
{
    match table_parts(alloc, name, kids, &item.chunk) {
        Ok((name, dtype)) => {
            match start_task(alloc, ctx, order, stats.strategy(), dtype, false, name, eof) {
                Ok(kid) => {
                    let kid = fed(ctx, order, kid, item)?;
                    kids.push_reserved(kid);
                    Ok(())
                }
                Err(error) => {
                    give_up_item(order, item);
                    Err(error)
                }
            }
        }
        Err(error) => {
            give_up_item(order, item);
            give_up_pointer(order, eof);
            Err(error)
        }
    }
}

/// Room for the table's child, its name, which is the second, and its type.
fn table_parts(
    alloc: Global,
    name: &Path,
    kids: &mut Vec<Task>,
    chunk: &Chunk,
) -> Result<(Path, Arc<DType>), WriteError>
    ensures name { IfOk result (λ r. r.0 ≡ under name.now 1) }
    ensures dtype { IfOk result (λ r. ty (arc_value r.1) ≡ piece_type chunk.now) }
    ensures kids { kids.new.items ≡ kids.old.items }
    ensures room { OnOk result (vec_len kids.new + 1 ≤ vec_capacity kids.new) }
    ensures memory { IfErr result (λ e. e ≡ WriteError.OutOfMemory) }
{
    kids.reserve(1)?;
    let name = Path::child(alloc, name.as_slice(), 1)?;
    let dtype = Arc::new(alloc, chunk.dtype().clone()?)?;
    Ok((name, dtype))
}
