//! Cells with the places at which they are found.

ghost use Rattle.std.specs.Prelude.{◌≡◌, ◌++◌, ◌∷◌, [], length, map, is_some, IfSome, OnOk, OnErr};
ghost use Rattle.vx_model.specs.TreeView.{tree};
ghost use Rattle.vx_typed.specs.Lent.{lent_cell};
ghost use Rattle.vx_rules.specs.Runs.{has_cell, place_in};

use crate::hash::first_slot;
use crate::slots::{Slots, make_room, slot_for, walk};
use std::alloc::{AllocError, Global};
use std::marker::Model;
use vx_model::Cell;
use vx_typed::{Lent, lend_cell};

/// Cells in order, with the place of each in slots by its hash. Contracts see the list of the cells.
#[derive(Drop)]
pub struct CellTable {
    cells: Vec<Cell>,
    slots: Slots,
}

impl Model for CellTable {
    ghost use Rattle.std.specs.Prelude.{List, map};
    ghost use Rattle.vx_model.specs.CellData.{CellData};
    ghost use Rattle.vx_model.specs.TreeView.{tree};
    ghost use Rattle.vx_slots.specs.Slots.{listed_code, Kept};

    ghost Value = { List CellData };

    ghost coded = { listed_code };

    ghost view = { λ t. map tree t.cells.items };

    ghost invariant = { λ t. Kept (map tree t.cells.items) t.slots.mask t.slots.slots.items };
}

impl CellTable {
    /// A table of no cells; takes no memory.
    pub fn new(alloc: Global) -> CellTable
        ensures { result ≡ [] }
    {
        CellTable {
            cells: Vec::new(alloc),
            slots: Slots {
                mask: 0,
                slots: Vec::new(alloc),
            },
        }
    }

    /// How many cells it has.
    pub fn len(&self) -> u64
        ensures { result ≡ length self.now }
    {
        self.cells.len() as u64
    }

    /// The place of the first cell that is the same. As a rule few cells are looked at, however many there are.
    pub fn find(&self, cell: &Cell) -> Option<u64>
        ensures known { is_some result ≡ has_cell (tree cell.now) self.now }
        ensures place { IfSome result (λ k. k ≡ place_in (tree cell.now) self.now) }
    {
        self.find_lent(lend_cell(cell))
    }

    /// The same of a cell that is lent.
    pub fn find_lent(&self, cell: Lent<'_>) -> Option<u64>
        ensures known { is_some result ≡ has_cell (lent_cell cell.entry) self.now }
        ensures place { IfSome result (λ k. k ≡ place_in (lent_cell cell.entry) self.now) }
    {
        let first = first_slot(cell, self.slots.mask) as usize;
        let (_, slots) = self.slots.slots.split_at(first);
        walk(slots, &self.cells, cell)
    }

    /// Puts a cell behind the others. The slots double as they fill up, so many calls take time linear in their number.
    pub fn push(&mut self, cell: Cell) -> Result<(), AllocError>
        ensures ok { OnOk result (self.new ≡ self.old ++ tree cell ∷ []) }
        ensures err { OnErr result (self.new ≡ self.old) }
    {
        make_room(&mut self.slots, &self.cells)?;
        let at = slot_for(&self.slots.slots, self.slots.mask, &cell);
        let place = self.cells.len() as u64;
        self.cells.push(cell)?;
        self.slots.slots[at] = place + 1;
        Ok(())
    }

    /// The cells, in the order in which they were pushed.
    pub fn as_slice(&self) -> &[Cell]
        ensures { map tree result.now ≡ self.now }
    {
        self.cells.as_slice()
    }

    /// The cells themselves, none copied.
    pub fn into_cells(self) -> Vec<Cell>
        ensures { map tree result.items ≡ self }
    {
        let CellTable { cells, .. } = self;
        cells
    }
}
