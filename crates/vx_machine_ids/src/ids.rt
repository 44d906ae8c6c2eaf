//! Ids and pointers of an order, taken and given up in balance.

ghost use Rattle.std.specs.Prelude.{◌≡◌, ◌+◌, ◌<◌, ◌^◌, vec_len, IfOk, IfErr, OnOk, OnErr};
ghost use Rattle.vx_path.specs.Path.{eof_path, inside, next};
ghost use Rattle.vx_order.specs.Answers.{FullAt};
ghost use Rattle.vx_order.specs.Ids.{children};
ghost use Rattle.vx_machine_ids.specs.Stock.{none, both, id_stock, end_stock, all_ids, ok_stock};
ghost use Rattle.vx_machine_ids.specs.Balance.{Owned, Moved};

use std::alloc::Global;
use vx_order::{Order, OrderError, make_ids, split_off};
use vx_sequence::{SequenceId, SequencePointer};

/// Gives the id up.
pub fn give_up_id<O: Order>(order: &mut O, id: SequenceId)
    requires { Owned (O.active order.old) (id_stock id) }
    ensures moved { Moved (O.active order.old) (O.active order.new) (id_stock id) none }
    ensures outlet { O.outlet order.new ≡ O.outlet order.old }
    ensures sink { O.sink order.new ≡ O.sink order.old }
{
    order.release(id);
}

/// Gives the pointer up, and its path with it.
pub fn give_up_pointer<O: Order>(order: &mut O, pointer: SequencePointer)
    requires { Owned (O.active order.old) (end_stock pointer) }
    ensures moved { Moved (O.active order.old) (O.active order.new) (end_stock pointer) none }
    ensures outlet { O.outlet order.new ≡ O.outlet order.old }
    ensures sink { O.sink order.new ≡ O.sink order.old }
{
    order.release(pointer.downgrade());
}

/// The id of the pointer's path; the pointer goes on.
pub fn take_id<O: Order>(
    order: &mut O,
    pointer: &mut SequencePointer,
) -> Result<SequenceId, OrderError>
    requires { Owned (O.active order.old) (end_stock pointer.old) }
    ensures moved { Moved (O.active order.old) (O.active order.new) (end_stock pointer.old) (both (end_stock pointer.new) (ok_stock id_stock result)) }
    ensures id { IfOk result (λ id. id ≡ eof_path pointer.old) }
    ensures next { OnOk result (pointer.new ≡ next pointer.old) }
    ensures fits { OnOk result (pointer.old.last + 1 < 2 ^ 64) }
    ensures full { IfErr result (FullAt pointer.old.last) }
    ensures same { OnErr result (pointer.new ≡ pointer.old) }
    ensures outlet { O.outlet order.new ≡ O.outlet order.old }
    ensures sink { O.sink order.new ≡ O.sink order.old }
{
    match order.advance(pointer) {
        Ok(id) => Ok(id),
        Err(error) => Err(error),
    }
}

/// A pointer below the pointer's path; the other one goes on.
pub fn take_below<O: Order>(
    order: &mut O,
    pointer: &mut SequencePointer,
) -> Result<SequencePointer, OrderError>
    requires { Owned (O.active order.old) (end_stock pointer.old) }
    ensures moved { Moved (O.active order.old) (O.active order.new) (end_stock pointer.old) (both (end_stock pointer.new) (ok_stock end_stock result)) }
    ensures below { IfOk result (λ below. below ≡ inside pointer.old) }
    ensures next { OnOk result (pointer.new ≡ next pointer.old) }
    ensures fits { OnOk result (pointer.old.last + 1 < 2 ^ 64) }
    ensures full { IfErr result (FullAt pointer.old.last) }
    ensures outlet { O.outlet order.new ≡ O.outlet order.old }
    ensures sink { O.sink order.new ≡ O.sink order.old }
{
    match split_off(order, pointer) {
        Ok(below) => Ok(below),
        Err(error) => Err(error),
    }
}

/// The first `count` children of the id, which is given up.
pub fn take_children<O: Order>(
    alloc: Global,
    order: &mut O,
    id: SequenceId,
    count: usize,
) -> Result<Vec<SequenceId>, OrderError>
    requires { Owned (O.active order.old) (id_stock id) }
    ensures moved { Moved (O.active order.old) (O.active order.new) (id_stock id) (ok_stock all_ids result) }
    ensures count { IfOk result (λ ids. vec_len ids ≡ count) }
    ensures ids { IfOk result (λ ids. ids.items ≡ children id count) }
    ensures memory { IfErr result (λ e. e ≡ OrderError.OutOfMemory) }
    ensures outlet { O.outlet order.new ≡ O.outlet order.old }
    ensures sink { O.sink order.new ≡ O.sink order.old }
{
    match make_ids(alloc, order, id, count) {
        Ok(ids) => Ok(ids),
        Err(error) => Err(error),
    }
}

/// A pointer at the first child of the id's path. The id is given up, also where memory runs out.
pub fn take_inside<O: Order>(order: &mut O, id: SequenceId) -> Result<SequencePointer, OrderError>
    requires { Owned (O.active order.old) (id_stock id) }
    ensures moved { Moved (O.active order.old) (O.active order.new) (id_stock id) (ok_stock end_stock result) }
    ensures pointer { IfOk result (λ p. (p.stem ≡ id) × (p.last ≡ 0)) }
    ensures memory { IfErr result (λ e. e ≡ OrderError.OutOfMemory) }
    ensures outlet { O.outlet order.new ≡ O.outlet order.old }
    ensures sink { O.sink order.new ≡ O.sink order.old }
{
    match order.descend(id) {
        Ok(pointer) => Ok(pointer),
        Err((id, error)) => {
            order.release(id);
            Err(error)
        }
    }
}

/// Does nothing; tells a caller's proof that the pointer's last index fits 64 bits.
pub fn index_fits(pointer: &SequencePointer)
    ensures { pointer.now.last < 2 ^ 64 }
{
    let path = pointer.path();
    let _last = path[path.len() - 1];
}
