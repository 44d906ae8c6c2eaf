//! Ids and pointers of a universe, taken and given up in balance.

ghost use Rattle.std.specs.Prelude.{◌≡◌, ◌+◌, ◌<◌, ◌≤◌, ◌^◌, [], ◌∷◌, map, vec_len, vec_capacity, IfOk, IfErr, OnOk};
ghost use Rattle.vx_path.specs.Path.{eof_path, inside, next};
ghost use Rattle.vx_machine_ids.specs.Stock.{none, both, id_stock, end_stock, all_ids, ok_stock};
ghost use Rattle.vx_machine_ids.specs.Balance.{Owned, Moved};
ghost use Rattle.vx_column_ids.specs.Outsets.{batch_ends, StandBefore, ends_stock};

use std::alloc::Global;
use vx_sequence::{SequenceError, SequenceId, SequencePointer, Universe};

/// The id of the pointer's path; the pointer goes on.
pub(crate) fn take_id(
    universe: &mut Universe,
    pointer: &mut SequencePointer,
) -> Result<SequenceId, SequenceError>
    requires owned { Owned universe.old (end_stock pointer.old) }
    requires room { pointer.old.last + 1 < 2 ^ 64 }
    ensures moved { Moved universe.old universe.new (end_stock pointer.old) (both (end_stock pointer.new) (ok_stock id_stock result)) }
    ensures id { IfOk result (λ id. id ≡ eof_path pointer.old) }
    ensures next { OnOk result (pointer.new ≡ next pointer.old) }
    ensures memory { IfErr result (λ e. e ≡ SequenceError.OutOfMemory) }
{
    match pointer.advance(universe) {
        Ok(id) => Ok(id),
        Err(error) => Err(error),
    }
}

/// A pointer below the pointer's path; the other one goes on.
pub(crate) fn take_below(
    universe: &mut Universe,
    pointer: &mut SequencePointer,
) -> Result<SequencePointer, SequenceError>
    requires owned { Owned universe.old (end_stock pointer.old) }
    requires room { pointer.old.last + 1 < 2 ^ 64 }
    ensures moved { Moved universe.old universe.new (end_stock pointer.old) (both (end_stock pointer.new) (ok_stock end_stock result)) }
    ensures below { IfOk result (λ below. below ≡ inside pointer.old) }
    ensures next { OnOk result (pointer.new ≡ next pointer.old) }
    ensures memory { IfErr result (λ e. e ≡ SequenceError.OutOfMemory) }
{
    match pointer.split_off(universe) {
        Ok(below) => Ok(below),
        Err(error) => Err(error),
    }
}

pub(crate) fn give_up_id(universe: &mut Universe, id: SequenceId)
    requires { Owned universe.old (id_stock id) }
    ensures { Moved universe.old universe.new (id_stock id) none }
{
    id.release(universe);
}

pub(crate) fn give_up_pointer(universe: &mut Universe, pointer: SequencePointer)
    requires { Owned universe.old (end_stock pointer) }
    ensures { Moved universe.old universe.new (end_stock pointer) none }
{
    pointer.downgrade().release(universe);
}

pub(crate) fn give_up_ids(universe: &mut Universe, mut ids: Vec<SequenceId>)
    requires { Owned universe.old (all_ids ids) }
    ensures { Moved universe.old universe.new (all_ids ids) none }
{
    while let Some(id) = ids.pop() {
        give_up_id(universe, id);
    }
    ids.destroy_empty();
}

pub(crate) fn give_up_pointers(universe: &mut Universe, mut pointers: Vec<SequencePointer>)
    requires { Owned universe.old (ends_stock pointers.items) }
    ensures { Moved universe.old universe.new (ends_stock pointers.items) none }
{
    while let Some(pointer) = pointers.pop() {
        give_up_pointer(universe, pointer);
    }
    pointers.destroy_empty();
}

/// The next id of each pointer, in order.
pub(crate) fn next_ids(
    universe: &mut Universe,
    pointers: &mut Vec<SequencePointer>,
    ids: &mut Vec<SequenceId>,
) -> Result<(), SequenceError>
    requires owned { Owned universe.old (ends_stock pointers.old.items) }
    requires before { StandBefore pointers.old.items }
    requires none { ids.old.items ≡ [] }
    requires room { vec_len pointers.old ≤ vec_capacity ids.old }
    ensures moved { Moved universe.old universe.new (ends_stock pointers.old.items) (both (ends_stock pointers.new.items) (all_ids ids.new)) }
    ensures ids { OnOk result (ids.new.items ≡ map eof_path pointers.old.items) }
    ensures next { OnOk result (pointers.new.items ≡ map next pointers.old.items) }
    ensures memory { IfErr result (λ e. e ≡ SequenceError.OutOfMemory) }
{
    'ids: for i in 0..pointers.len() {
        let id = take_id(universe, &mut pointers[i])?;
        ids.push_reserved(id);
    }
    Ok(())
}

/// A pointer below the path of each batch. The stream's pointer is given up.
pub(crate) fn batch_pointers(
    alloc: Global,
    universe: &mut Universe,
    mut stream: SequencePointer,
    batches: usize,
) -> Result<Vec<SequencePointer>, SequenceError>
    requires owned { Owned universe.old (end_stock stream) }
    requires first { (stream.stem ≡ 0 ∷ []) × (stream.last ≡ 0) }
    ensures moved { Moved universe.old universe.new (end_stock stream) (ok_stock (λ v. ends_stock v.items) result) }
    ensures ends { IfOk result (λ v. v.items ≡ batch_ends 0 0 batches) }
    ensures memory { IfErr result (λ e. e ≡ SequenceError.OutOfMemory) }
{
    let Ok(mut pointers) = Vec::with_capacity(alloc, batches) else {
        give_up_pointer(universe, stream);
        return Err(SequenceError::OutOfMemory);
    };
    let made = split_times(universe, &mut stream, &mut pointers, batches);
    give_up_pointer(universe, stream);
    match made {
        Ok(()) => Ok(pointers),
        Err(error) => {
            give_up_pointers(universe, pointers);
            Err(error)
        }
    }
}

fn split_times(
    universe: &mut Universe,
    stream: &mut SequencePointer,
    pointers: &mut Vec<SequencePointer>,
    batches: usize,
) -> Result<(), SequenceError>
    requires owned { Owned universe.old (end_stock stream.old) }
    requires first { (stream.old.stem ≡ 0 ∷ []) × (stream.old.last ≡ 0) }
    requires none { pointers.old.items ≡ [] }
    requires room { batches ≤ vec_capacity pointers.old }
    ensures moved { Moved universe.old universe.new (end_stock stream.old) (both (end_stock stream.new) (ends_stock pointers.new.items)) }
    ensures ends { OnOk result (pointers.new.items ≡ batch_ends 0 0 batches) }
    ensures memory { IfErr result (λ e. e ≡ SequenceError.OutOfMemory) }
{
    'pointers: for _i in 0..batches {
        let pointer = take_below(universe, stream)?;
        pointers.push_reserved(pointer);
    }
    Ok(())
}
