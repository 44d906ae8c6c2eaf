//! Each column's ids in a universe of its own.

ghost use Rattle.std.specs.Prelude.{◌≡◌, ◌+◌, ◌<◌, ◌≤◌, ◌^◌, [], map, vec_len, vec_capacity, IfOk, IfErr, OnOk};
ghost use Rattle.vx_path.specs.Path.{eof_path, inside, next};
ghost use Rattle.vx_sequence.specs.Universe.{root};
ghost use Rattle.vx_machine_ids.specs.Stock.{none, both, end_stock, all_ids};
ghost use Rattle.vx_machine_ids.specs.Balance.{Owned, Moved};
ghost use Rattle.vx_part_laws.specs.Parts.{stock_of};
ghost use Rattle.vx_column_ids.specs.Outsets.{column_outsets, outset_of, batch_ends, StandBefore, ends_stock};

use crate::ids::{
    batch_pointers, give_up_ids, give_up_pointer, give_up_pointers, next_ids, take_below,
};
use crate::part::ColumnPart;
use std::alloc::Global;
use vx_sequence::{SequenceError, SequenceId, SequencePointer, Universe};

/// Gives up all that is active in these parts.
pub fn give_up_parts(mut parts: Vec<ColumnPart>) {
    while let Some(part) = parts.pop() {
        part.give_up();
    }
    parts.destroy_empty();
}

/// The ids of so many columns with so many batches each, as a struct's node makes them: batch i of column c is at `[0, i, c]`,
/// and the column goes on at `[1 + c, 0]`.
pub fn column_parts(
    alloc: Global,
    batches: usize,
    count: usize,
) -> Result<Vec<ColumnPart>, SequenceError>
    requires { count + 1 < 2 ^ 64 }
    ensures outsets { IfOk result (λ v. map outset_of v.items ≡ column_outsets count batches) }
    ensures count { IfOk result (λ v. vec_len v ≡ count) }
    ensures memory { IfErr result (λ e. e ≡ SequenceError.OutOfMemory) }
{
    let mut parts = Vec::with_capacity(alloc, count)?;
    match fill(alloc, batches, count, &mut parts) {
        Ok(()) => Ok(parts),
        Err(error) => {
            give_up_parts(parts);
            Err(error)
        }
    }
}

fn fill(
    alloc: Global,
    batches: usize,
    count: usize,
    parts: &mut Vec<ColumnPart>,
) -> Result<(), SequenceError>
    requires few { count + 1 < 2 ^ 64 }
    requires none { parts.old.items ≡ [] }
    requires room { count ≤ vec_capacity parts.old }
    ensures outsets { OnOk result (map outset_of parts.new.items ≡ column_outsets count batches) }
    ensures memory { IfErr result (λ e. e ≡ SequenceError.OutOfMemory) }
{
    let (mut universe, mut eof) = SequenceId::root(alloc)?;
    let made = fill_below(alloc, &mut universe, &mut eof, batches, count, parts);
    give_up_pointer(&mut universe, eof);
    made
}

fn fill_below(
    alloc: Global,
    universe: &mut Universe,
    eof: &mut SequencePointer,
    batches: usize,
    count: usize,
    parts: &mut Vec<ColumnPart>,
) -> Result<(), SequenceError>
    requires owned { Owned universe.old (end_stock eof.old) }
    requires first { eof.old ≡ root }
    requires few { count + 1 < 2 ^ 64 }
    requires none { parts.old.items ≡ [] }
    requires room { count ≤ vec_capacity parts.old }
    ensures owned { Owned universe.new (end_stock eof.new) }
    ensures outsets { OnOk result (map outset_of parts.new.items ≡ column_outsets count batches) }
    ensures memory { IfErr result (λ e. e ≡ SequenceError.OutOfMemory) }
{
    let stream = take_below(universe, eof)?;
    match batch_pointers(alloc, universe, stream, batches) {
        Ok(mut pointers) => {
            let made = part_times(alloc, universe, &mut pointers, eof, parts, count);
            give_up_pointers(universe, pointers);
            made
        }
        Err(error) => Err(error),
    }
}

fn part_times(
    alloc: Global,
    universe: &mut Universe,
    pointers: &mut Vec<SequencePointer>,
    eof: &mut SequencePointer,
    parts: &mut Vec<ColumnPart>,
    count: usize,
) -> Result<(), SequenceError>
    requires owned { Owned universe.old (both (ends_stock pointers.old.items) (end_stock eof.old)) }
    requires batches { pointers.old.items ≡ batch_ends 0 0 (vec_len pointers.old) }
    requires first { eof.old ≡ next root }
    requires few { count + 1 < 2 ^ 64 }
    requires none { parts.old.items ≡ [] }
    requires room { count ≤ vec_capacity parts.old }
    ensures owned { Owned universe.new (both (ends_stock pointers.new.items) (end_stock eof.new)) }
    ensures outsets { OnOk result (map outset_of parts.new.items ≡ column_outsets count (vec_len pointers.old)) }
    ensures memory { IfErr result (λ e. e ≡ SequenceError.OutOfMemory) }
{
    'parts: for _c in 0..count {
        let part = next_part(alloc, universe, pointers, eof)?;
        parts.push_reserved(part);
    }
    Ok(())
}

/// The next column's: an id of each batch's pointer, and what goes on below the eof pointer's path.
fn next_part(
    alloc: Global,
    universe: &mut Universe,
    pointers: &mut Vec<SequencePointer>,
    eof: &mut SequencePointer,
) -> Result<ColumnPart, SequenceError>
    requires owned { Owned universe.old (both (ends_stock pointers.old.items) (end_stock eof.old)) }
    requires before { StandBefore pointers.old.items }
    requires room { eof.old.last + 1 < 2 ^ 64 }
    ensures owned { Owned universe.new (both (ends_stock pointers.new.items) (end_stock eof.new)) }
    ensures part { IfOk result (λ p. (p.ids.items ≡ map eof_path pointers.old.items) × (p.eof ≡ inside eof.old)) }
    ensures next { OnOk result ((pointers.new.items ≡ map next pointers.old.items) × (eof.new ≡ next eof.old)) }
    ensures memory { IfErr result (λ e. e ≡ SequenceError.OutOfMemory) }
{
    let mut ids = Vec::with_capacity(alloc, pointers.len())?;
    match next_ids(universe, pointers, &mut ids) {
        Ok(()) => part_below(universe, ids, eof),
        Err(error) => {
            give_up_ids(universe, ids);
            Err(error)
        }
    }
}

/// The part of these ids and a pointer below the eof pointer's path. Refused, the ids are given up.
fn part_below(
    universe: &mut Universe,
    ids: Vec<SequenceId>,
    eof: &mut SequencePointer,
) -> Result<ColumnPart, SequenceError>
    requires owned { Owned universe.old (both (all_ids ids) (end_stock eof.old)) }
    requires room { eof.old.last + 1 < 2 ^ 64 }
    ensures moved { Moved universe.old universe.new (both (all_ids ids) (end_stock eof.old)) (end_stock eof.new) }
    ensures part { IfOk result (λ p. (p.ids.items ≡ ids.items) × (p.eof ≡ inside eof.old)) }
    ensures next { OnOk result (eof.new ≡ next eof.old) }
    ensures memory { IfErr result (λ e. e ≡ SequenceError.OutOfMemory) }
{
    match take_below(universe, eof) {
        Ok(below) => part_of(universe, ids, below),
        Err(error) => {
            give_up_ids(universe, ids);
            Err(error)
        }
    }
}

/// The part of these ids and this pointer. Refused, they are given up.
fn part_of(
    universe: &mut Universe,
    ids: Vec<SequenceId>,
    eof: SequencePointer,
) -> Result<ColumnPart, SequenceError>
    requires { Owned universe.old (stock_of ids.items eof) }
    ensures moved { Moved universe.old universe.new (stock_of ids.items eof) none }
    ensures part { IfOk result (λ p. (p.ids.items ≡ ids.items) × (p.eof ≡ eof)) }
    ensures memory { IfErr result (λ e. e ≡ SequenceError.OutOfMemory) }
{
    match universe.part(ids.as_slice(), &eof) {
        Ok(universe) => Ok(ColumnPart { universe, ids, eof }),
        Err(error) => {
            give_up_ids(universe, ids);
            give_up_pointer(universe, eof);
            Err(error)
        }
    }
}
