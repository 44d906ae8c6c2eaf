//! Ids and pointers of an order, several at once.
ghost use Rattle.std.specs.Prelude.{◌≡◌, ℕ, ◌<◌, ◌≤◌, true, List, [], reverse, vec_len, vec_capacity, IfOk, IfErr, OnOk, OnErr};
ghost use Rattle.std.specs.FinMap as map;
ghost use Rattle.vx_path.specs.Path.{eof_path, inside, next};
ghost use Rattle.vx_sequence.specs.Part.{CanPart, left_of};
ghost use Rattle.vx_sequence.specs.Universe.{Active, IsActive, IsOpen, IsUniverse, released, split_from};
ghost use Rattle.vx_order.specs.Answers.{FullAt};
ghost use Rattle.vx_order.specs.Ids.{children, with_children, SplitRefused};

use crate::ordered::Order;
use std::alloc::Global;
use vx_order_answer::OrderError;
use vx_sequence::{SequenceId, SequencePointer};

/// A pointer below the place of `p`, which then stands at the next sibling: `advance`, and then `descend` of the id.
///
/// `TooLarge(2^64)` comes where the last index is the greatest one. Where memory runs out behind `advance`, the id is
/// released.
pub fn split_off<O: Order>(
    order: &mut O,
    p: &mut SequencePointer,
) -> Result<SequencePointer, OrderError>
    requires { IsOpen (O.active order.old) (eof_path p.old) }
    ensures off { IfOk result (λ off. off ≡ inside p.old) }
    ensures pointer { OnOk result (p.new ≡ next p.old) }
    ensures active { OnOk result (O.active order.new ≡ split_from (O.active order.old) p.old) }

    ensures room { OnOk result (p.old.last < u64.MAX) }
    ensures full { IfErr result (FullAt p.old.last) }
    ensures refused { OnErr result (SplitRefused (O.active order.old) p.old (O.active order.new) p.new) }

    ensures outlet { O.outlet order.new ≡ O.outlet order.old }
    ensures sink { O.sink order.new ≡ O.sink order.old }
    ensures may_write { (p b : List ℕ) → O.may_write order.old p b → O.may_write order.new p b }
    ensures rules { IsUniverse (O.active order.old) }
    ensures borrow { O.borrow order.new ≡ O.borrow order.old }
{
    let id = order.advance(p)?;
    match order.descend(id) {
        Ok(off) => Ok(off),
        Err((id, error)) => {
            order.release(id);
            Err(error)
        }
    }
}

/// The first `count` children of the id, which is given up, as ids in order. All memory for them is taken first.
///
/// Refused, the id and all that was made of it is released.
pub fn make_ids<O: Order>(
    alloc: Global,
    order: &mut O,
    id: SequenceId,
    count: usize,
) -> Result<Vec<SequenceId>, OrderError>
    requires { IsActive (O.active order.old) id }
    ensures ids { IfOk result (λ ids. ids.items ≡ children id count) }
    ensures active { OnOk result (O.active order.new ≡ with_children (released (O.active order.old) id) id count) }
    ensures memory { IfErr result (λ e. e ≡ OrderError.OutOfMemory) }
    ensures refused { OnErr result (O.active order.new ≡ released (O.active order.old) id) }

    ensures outlet { O.outlet order.new ≡ O.outlet order.old }
    ensures sink { O.sink order.new ≡ O.sink order.old }
    ensures may_write { (p b : List ℕ) → O.may_write order.old p b → O.may_write order.new p b }
    ensures rules { IsUniverse (O.active order.old) }
    ensures borrow { O.borrow order.new ≡ O.borrow order.old }
{
    let Ok(mut ids) = Vec::with_capacity(alloc, count) else {
        order.release(id);
        return Err(OrderError::OutOfMemory);
    };
    match order.descend(id) {
        Ok(mut pointer) => {
            let made = advance_times(order, &mut pointer, &mut ids, count);
            order.release(pointer.downgrade());
            match made {
                Ok(()) => Ok(ids),
                Err(error) => {
                    release_all(order, ids);
                    Err(error)
                }
            }
        }
        Err((id, error)) => {
            order.release(id);
            ids.destroy_empty();
            Err(error)
        }
    }
}

/// Advances a new pointer so often, and gives the ids.
fn advance_times<O: Order>(
    order: &mut O,
    pointer: &mut SequencePointer,
    ids: &mut Vec<SequenceId>,
    count: usize,
) -> Result<(), OrderError>
    requires open { IsOpen (O.active order.old) (eof_path pointer.old) }
    requires first { pointer.old.last ≡ 0 }
    requires none { (ids.old.items ≡ []) × (vec_len ids.old ≡ 0) }
    requires room { count ≤ vec_capacity ids.old }
    ensures ids { ids.new.items ≡ children pointer.old.stem (vec_len ids.new) }
    ensures pointer { (pointer.new.stem ≡ pointer.old.stem) × (pointer.new.last ≡ vec_len ids.new) }
    ensures active { (u : Active) → O.active order.old ≡ map.insert u (eof_path pointer.old) true
        → O.active order.new ≡ map.insert (with_children u pointer.old.stem (vec_len ids.new)) (eof_path pointer.new) true }
    ensures all { OnOk result (vec_len ids.new ≡ count) }
    ensures memory { IfErr result (λ e. e ≡ OrderError.OutOfMemory) }

    ensures outlet { O.outlet order.new ≡ O.outlet order.old }
    ensures sink { O.sink order.new ≡ O.sink order.old }
    ensures may_write { (p b : List ℕ) → O.may_write order.old p b → O.may_write order.new p b }
    ensures borrow { O.borrow order.new ≡ O.borrow order.old }
{
    for _i in 0..count {
        let id = order.advance(pointer)?;
        ids.push_reserved(id);
    }
    Ok(())
}

/// Releases the ids, the last first.
fn release_all<O: Order>(order: &mut O, mut ids: Vec<SequenceId>)
    requires { CanPart (O.active order.old) (reverse ids.items) }
    ensures active { O.active order.new ≡ left_of (O.active order.old) (reverse ids.items) }
    ensures outlet { O.outlet order.new ≡ O.outlet order.old }
    ensures sink { O.sink order.new ≡ O.sink order.old }
    ensures may_write { (p b : List ℕ) → O.may_write order.old p b → O.may_write order.new p b }
    ensures borrow { O.borrow order.new ≡ O.borrow order.old }
{
    while let Some(id) = ids.pop() {
        order.release(id);
    }
    ids.destroy_empty();
}
