//! Slots over a list of cells. A slot has the place of a cell, plus 1, or 0 where it is empty. A walk for a cell goes
//! from the cell's first slot to an empty one, and never to the end: behind the last first slot there are more slots
//! than cells.

ghost use Rattle.std.specs.Prelude.{◌≡◌, ◌+◌, ◌<◌, length, map, vec_len, IfOk, OnOk};
ghost use Rattle.vx_model.specs.TreeView.{tree};
ghost use Rattle.vx_typed.specs.Lent.{lent_cell};
ghost use Rattle.vx_slots.specs.Slots.{AreWithin, Kept, IsFree, first_slot, looked, taken};

use crate::hash::first_slot;
use crate::same::same_cell;
use std::alloc::{AllocError, Global};
use vx_model::Cell;
use vx_typed::{Lent, lend_cell};

#[derive(Drop)]
pub(crate) struct Slots {
    /// The greatest first slot, one less than a power of two.
    pub(crate) mask: u64,
    pub(crate) slots: Vec<u64>,
}

/// The place that a walk finds in the slots from its first one on.
#[tactic(auto, using(crate::proofs::Walks::walk_rules))]
pub(crate) fn walk(slots: &[u64], cells: &[Cell], cell: Lent<'_>) -> Option<u64>
    requires { AreWithin (length cells.now) slots.now }
    ensures { result ≡ looked (map tree cells.now) (lent_cell cell.entry) slots.now }
{
    for slot in slots {
        if *slot == 0 {
            return None;
        }
        let place = *slot - 1;
        if same_cell(&cells[place as usize], cell) {
            return Some(place);
        }
    }
    None
}

/// Makes room for one more cell.
pub(crate) fn make_room(slots: &mut Slots, cells: &[Cell]) -> Result<(), AllocError>
    requires { Kept (map tree cells.now) slots.old.mask slots.old.slots.items }
    ensures kept { Kept (map tree cells.now) slots.new.mask slots.new.slots.items }
    ensures room { OnOk result (slots.new.mask + length cells.now < vec_len slots.new.slots) }
{
    let behind = slots.slots.len() - slots.mask as usize;
    if cells.len() < behind {
        return Ok(());
    }
    *slots = slots_of(*slots.slots.allocator(), cells)?;
    Ok(())
}

/// Slots of the cells, at most half full, with room for one more.
fn slots_of(alloc: Global, cells: &[Cell]) -> Result<Slots, AllocError>
    ensures kept { IfOk result (λ s. Kept (map tree cells.now) s.mask s.slots.items) }
    ensures room { IfOk result (λ s. s.mask + length cells.now < vec_len s.slots) }
{
    let firsts = (2 * (cells.len() + 1)).max(16).next_power_of_two();
    let mask = firsts as u64 - 1;
    let mut slots = vec![in alloc; 0; firsts + firsts / 2]?;
    for k in 0..cells.len() {
        let at = slot_for(&slots, mask, &cells[k]);
        slots[at] = k as u64 + 1;
    }
    Ok(Slots { mask, slots })
}

/// The slot for the place of a cell that comes behind the others: the first empty one of its walk.
pub(crate) fn slot_for(slots: &[u64], mask: u64, cell: &Cell) -> usize
    requires { mask + taken slots.now < length slots.now }
    ensures { IsFree (first_slot mask (tree cell.now)) slots.now result }
{
    empty_slot(slots, first_slot(lend_cell(cell), mask) as usize)
}

/// The first empty slot from `from` on.
fn empty_slot(slots: &[u64], from: usize) -> usize
    requires { from + taken slots.now < length slots.now }
    ensures { IsFree from slots.now result }
{
    for at in from..slots.len() {
        if slots[at] == 0 {
            return at;
        }
    }
    unreachable!()
}
