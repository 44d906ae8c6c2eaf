//! Columns of numbers and of Bools.

ghost use Rattle.std.specs.Prelude.{◌≡◌, ◌≤◌, ◌<◌, ◌-◌, ◌++◌, true, false, [], length, take, drop, map, slice_index_or, IsTrue, IfOk, IfSome, IfNone, OnOk};
ghost use Rattle.vx_model.specs.Words.{joined_by, all_by};
ghost use Rattle.vx_model.specs.CellData.{spelling, fits, null_cell};
ghost use Rattle.vx_model.specs.TreeView.{tree};
ghost use Rattle.vx_typed.specs.Typed.{typed_cells, is_leaf};
ghost use Rattle.vx_typed.specs.Lent.{lent_cell};

use crate::flags::{Flags, needed};
use crate::leaf::Leaf;
use crate::lent::Lent;
use crate::read::{are_leaves, cell_at, lent_at, push_cells, values_in};
use crate::shared::Shared;
use crate::written::{push_masked, push_valid};
use std::alloc::{AllocError, Global};
use std::marker::Model;
use vx_model::Cell;

/// Values of one machine type, and which of them are valid.
pub struct Leaves<T: Leaf> {
    items: Shared<T>,
    valid: Flags,
}

impl<T: Leaf> Model for Leaves<T> {
    ghost use Rattle.std.specs.Prelude.{List};
    ghost use Rattle.vx_model.specs.CellData.{CellData};
    ghost use Rattle.vx_typed.specs.CellCode.{cell_code};
    ghost use Rattle.vx_typed.specs.Typed.{typed_cells};

    ghost Value = { List CellData };

    ghost coded = { cell_code };

    ghost view = { λ c. typed_cells T.as_cell c.items c.valid };
}

impl<T: Leaf> Leaves<T> {
    /// These values, all valid. The vector is moved.
    #[tactic(auto, using(crate::proofs::Steps::model_rules))]
    pub fn new(alloc: Global, items: Vec<T>) -> Result<Leaves<T>, AllocError>
        ensures { IfOk result (λ c. c ≡ typed_cells T.as_cell items.items []) }
    {
        let items = Shared::new(alloc, items)?;
        Ok(Leaves {
            items,
            valid: Flags::none(),
        })
    }

    /// These values, of which those are invalid whose flags are false. The values are moved, and the flags where one is
    /// false.
    #[tactic(auto, using(crate::proofs::Joins::made_rules))]
    pub fn with_flags(
        alloc: Global,
        items: Vec<T>,
        flags: Vec<bool>,
    ) -> Result<Leaves<T>, AllocError>
        ensures { IfOk result (λ c. c ≡ typed_cells T.as_cell items.items flags.items) }
    {
        let items = Shared::new(alloc, items)?;
        let valid = Flags::new(alloc, needed(flags))?;
        Ok(Leaves { items, valid })
    }

    /// The values that the cells are; `None` where one is neither null nor a value of the type.
    #[tactic(auto, using(crate::proofs::Steps::model_rules))]
    pub fn from_cells(alloc: Global, cells: &[Cell]) -> Result<Option<Leaves<T>>, AllocError>
        ensures cells { IfOk result (λ o. IfSome o (λ c. c ≡ map tree cells.now)) }
        ensures none { IfOk result (λ o. IfNone o (all_by (fits (T.kind true)) (map tree cells.now) ≡ false)) }
    {
        let Some((items, flags)) = values_in::<T>(alloc, cells)? else {
            return Ok(None);
        };
        Ok(Some(Leaves::with_flags(alloc, items, flags)?))
    }

    /// How many values there are, nulls among them.
    #[tactic(auto, using(crate::proofs::Steps::model_rules))]
    pub fn len(&self) -> usize
        ensures { result ≡ length self.now }
    {
        self.items.as_slice().len()
    }

    /// Does nothing; tells a caller's proof that each cell is null, a number or a Bool.
    pub fn are_leaves(&self)
        ensures { IsTrue (all_by is_leaf self.now) }
    {
        are_leaves(self.items.as_slice(), self.valid.as_slice())
    }

    /// The cell of a row.
    #[tactic(auto, using(crate::proofs::Steps::model_rules))]
    pub fn get(&self, row: usize) -> Cell
        requires { row < length self.now }
        ensures { tree result ≡ slice_index_or self.now row null_cell }
    {
        cell_at(self.items.as_slice(), self.valid.as_slice(), row)
    }

    /// The cell of a row, lent; it borrows nothing.
    #[tactic(auto, using(crate::proofs::Steps::model_rules))]
    pub fn row(&self, row: usize) -> Lent<'_>
        requires { row < length self.now }
        ensures { lent_cell result ≡ slice_index_or self.now row null_cell }
    {
        lent_at(self.items.as_slice(), self.valid.as_slice(), row)
    }

    /// Rows `from` to `to`, the last not included, in the same memory.
    #[tactic(auto, using(crate::proofs::Steps::model_rules))]
    pub fn slice(&self, from: usize, to: usize) -> Result<Leaves<T>, AllocError>
        requires order { from ≤ to }
        requires within { to ≤ length self.now }
        ensures { IfOk result (λ c. c ≡ take (to - from) (drop from self.now)) }
    {
        let items = self.items.slice(from, to)?;
        let valid = self.valid.slice(from, to)?;
        Ok(Leaves { items, valid })
    }

    /// These values, and the others behind them: in the same memory where nothing else shares it.
    #[tactic(auto, using(crate::proofs::Joins::leaf_rules))]
    pub fn append(self, alloc: Global, others: &Leaves<T>) -> Result<Leaves<T>, AllocError>
        ensures { IfOk result (λ c. c ≡ self ++ others.now) }
    {
        let Leaves { items, valid } = self;
        let rows = items.as_slice().len();
        let more = others.items.as_slice();
        let valid = valid.append(alloc, rows, others.valid.as_slice(), more.len())?;
        let items = items.append(alloc, more)?;
        Ok(Leaves { items, valid })
    }

    /// Appends the cells.
    #[tactic(auto, using(crate::proofs::Steps::model_rules))]
    pub fn push_cells(&self, out: &mut Vec<Cell>) -> Result<(), AllocError>
        ensures { OnOk result (map tree out.new.items ≡ map tree out.old.items ++ self.now) }
    {
        push_cells(self.items.as_slice(), self.valid.as_slice(), out)
    }

    /// Appends the bytes of the cells in a type of this kind, nullable or not.
    #[tactic(auto, using(crate::proofs::Steps::model_rules))]
    pub fn push_bytes(&self, nullable: bool, out: &mut Vec<u8>) -> Result<(), AllocError>
        ensures { OnOk result (out.new.items ≡ out.old.items ++ joined_by (spelling (T.kind nullable)) self.now) }
    {
        let (items, valid) = (self.items.as_slice(), self.valid.as_slice());
        if valid.is_empty() {
            return push_valid(nullable, items, out);
        }
        push_masked(nullable, items, valid, out)
    }
}

// As of `Shared`.
impl<T: Leaf> Drop for Leaves<T> {
    fn drop(self) {
        let Leaves { items: _, valid: _ } = self;
    }
}

impl<T: Leaf> Clone for Leaves<T> {
    ghost is_clone = { λ c copy. copy ≡ c };

    /// The same values, in the same memory.
    fn clone(&self) -> Result<Leaves<T>, AllocError> {
        let items = self.items.clone()?;
        let valid = self.valid.clone()?;
        Ok(Leaves { items, valid })
    }
}
