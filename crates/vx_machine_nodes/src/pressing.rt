//! A compressing node hands on each chunk's image. Between it and its child stands an outlet, whose queue has the room.

ghost use Rattle.std.specs.Prelude.{◌≡◌, ℕ, List, IfErr, IfOk, OnOk};
ghost use Rattle.vx_machine_ids.specs.Stock.{both};
ghost use Rattle.vx_machine_ids.specs.Balance.{Owned, Moved};
ghost use Rattle.vx_plan.specs.PlanData.{Setting};
ghost use Rattle.vx_machine_state.specs.State.{Tasks, by_image, as_is};
ghost use Rattle.vx_machine_nodes.specs.Acting.{taken, Took, Pressed};
ghost use Rattle.vx_machine_nodes.specs.Calls.{PressTold};
ghost use Rattle.vx_machine_node.specs.Causes.{PressMay};
ghost use Rattle.vx_machine_node.specs.Ledger.{dues_reserved};
ghost use Rattle.vx_machine_node.specs.Stocks.{item_stock, dues_stock};
ghost use Rattle.vx_machine_node.specs.View.{item_of, todo_of};

use std::collections::VecDeque;
use vx_machine_ids::give_up_id;
use vx_machine_node::{Due, Item, give_up_item};
use vx_order::Order;
use vx_sink::{CompressError, CompressorPlugin};
use vx_write_answer::{ActionKind, WriteError};

/// Takes a chunk, for which the compressor is called next.
pub fn take_pressing<O: Order>(
    order: &mut O,
    which: u32,
    todo: &mut VecDeque<Due>,
    item: Item,
) -> Result<(), WriteError>
    requires { Owned (O.active order.old) (both (dues_stock todo.old.items) (item_stock item)) }
    ensures moved { Moved (O.active order.old) (O.active order.new) (both (dues_stock todo.old.items) (item_stock item)) (dues_stock todo.new.items) }
    ensures reserved { dues_reserved todo.new.items ≡ dues_reserved todo.old.items }
    ensures done { OnOk result ((s : Setting) (name : List ℕ) (ks : Tasks) → Took (taken s name ks (item_of item) (by_image which)) (by_image which) (todo_of todo.new.items) (todo_of todo.old.items) ks) }
    ensures outlet { O.outlet order.new ≡ O.outlet order.old }
    ensures sink { O.sink order.new ≡ O.sink order.old }
    ensures memory { IfErr result (λ e. e ≡ WriteError.OutOfMemory) }
{
    match todo.reserve(1) {
        Ok(()) => {
            todo.push_front_reserved(Due::Press { which, item });
            Ok(())
        }
        Err(_) => {
            give_up_item(order, item);
            Err(WriteError::OutOfMemory)
        }
    }
}

/// Takes a chunk, which is handed on next.
pub fn take_as_is<O: Order>(
    order: &mut O,
    todo: &mut VecDeque<Due>,
    item: Item,
) -> Result<(), WriteError>
    requires { Owned (O.active order.old) (both (dues_stock todo.old.items) (item_stock item)) }
    ensures moved { Moved (O.active order.old) (O.active order.new) (both (dues_stock todo.old.items) (item_stock item)) (dues_stock todo.new.items) }
    ensures reserved { dues_reserved todo.new.items ≡ dues_reserved todo.old.items }
    ensures done { OnOk result ((s : Setting) (name : List ℕ) (ks : Tasks) → Took (taken s name ks (item_of item) as_is) as_is (todo_of todo.new.items) (todo_of todo.old.items) ks) }
    ensures outlet { O.outlet order.new ≡ O.outlet order.old }
    ensures sink { O.sink order.new ≡ O.sink order.old }
    ensures memory { IfErr result (λ e. e ≡ WriteError.OutOfMemory) }
{
    match todo.reserve(1) {
        Ok(()) => {
            let reservation = None;
            todo.push_front_reserved(Due::HandOn { item, reservation });
            Ok(())
        }
        Err(_) => {
            give_up_item(order, item);
            Err(WriteError::OutOfMemory)
        }
    }
}

/// Calls the compressor for a chunk; its image is then to be handed on in its place.
///
/// `CompressFault` comes where the compressor's count of faults says so.
pub fn press<O: Order, C: CompressorPlugin>(
    order: &mut O,
    compressor: &mut C,
    todo: &mut VecDeque<Due>,
    which: u32,
    item: Item,
) -> Result<ActionKind, WriteError>
    requires { Owned (O.active order.old) (both (dues_stock todo.old.items) (item_stock item)) }
    ensures moved { Moved (O.active order.old) (O.active order.new) (both (dues_stock todo.old.items) (item_stock item)) (dues_stock todo.new.items) }
    ensures reserved { dues_reserved todo.new.items ≡ dues_reserved todo.old.items }
    ensures done { OnOk result (Pressed (C.image (C.kind compressor.old)) which (item_of item) (todo_of todo.new.items) (todo_of todo.old.items)) }
    ensures kind { IfOk result (λ a. a ≡ ActionKind.Call) }
    ensures pressed { PressTold (C.faults compressor.old) (C.faults compressor.new) (C.may_fail compressor.old) (C.may_fail compressor.new)
        (C.must_fail compressor.old) (C.must_fail compressor.new) result (λ a. a) }
    ensures compressor { C.kind compressor.new ≡ C.kind compressor.old }
    ensures outlet { O.outlet order.new ≡ O.outlet order.old }
    ensures sink { O.sink order.new ≡ O.sink order.old }
    ensures cause { IfErr result PressMay }
{
    if let Err(_) = todo.reserve(1) {
        give_up_item(order, item);
        return Err(WriteError::OutOfMemory);
    }
    let Item { id, chunk } = item;
    // Images of whole chunks alone are known.
    chunk.whole();
    let called = compressor.compress_chunk(which, &chunk);
    drop(chunk);
    match called {
        Ok(chunk) => {
            let item = Item { id, chunk };
            let reservation = None;
            todo.push_front_reserved(Due::HandOn { item, reservation });
            Ok(ActionKind::Call)
        }
        Err(CompressError::Failed) => {
            give_up_id(order, id);
            Err(WriteError::CompressFault)
        }
        Err(CompressError::OutOfMemory) => {
            give_up_id(order, id);
            Err(WriteError::OutOfMemory)
        }
    }
}
