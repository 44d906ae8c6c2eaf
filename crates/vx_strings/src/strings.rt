//! Columns of texts and of bytes.

ghost use Rattle.std.specs.Prelude.{◌≡◌, ◌≤◌, ◌<◌, ◌-◌, ◌++◌, true, false, length, take, drop, map, slice_index_or, IsTrue, IfOk, IfSome, IfNone, OnOk, MatchResult};
ghost use Rattle.vx_model.specs.Words.{joined_by, all_by, total_by};
ghost use Rattle.vx_model.specs.CellData.{text_spelling, fits, null_cell};
ghost use Rattle.vx_model.specs.TreeView.{tree};
ghost use Rattle.vx_layout_spec.specs.Real.{is_real_cell};
ghost use Rattle.vx_typed.specs.Typed.{typed_cells};
ghost use Rattle.vx_strings.specs.StringCells.{strings_between, is_string, string_cell, string_type, string_length, AreStrings};
ghost use Rattle.vx_typed.specs.Lent.{lent_cell};

use crate::joined::join;
use crate::kind::{StringKind, is_same};
use crate::read::{are_strings, cell_at, lent_at, push_cells, strings_in, total_len};
use crate::written::{push_strings, room};
use std::alloc::{AllocError, Global};
use std::marker::Model;
use vx_chunk_cells::flags_between;
use vx_model::Cell;
use vx_typed::{Flags, Lent, Shared, needed};

/// Texts or bytes, one behind the other in memory, where each begins and the last ends, and which of them are valid.
pub struct Strings {
    kind: StringKind,
    bytes: Shared<u8>,
    offsets: Shared<u64>,
    valid: Flags,
}

impl Model for Strings {
    ghost use Rattle.std.specs.Prelude.{List};
    ghost use Rattle.vx_model.specs.CellData.{CellData};
    ghost use Rattle.vx_typed.specs.CellCode.{cell_code};
    ghost use Rattle.vx_typed.specs.Typed.{typed_cells};
    ghost use Rattle.vx_strings.specs.StringCells.{strings_between, string_cell, AreStrings};

    ghost Value = { List CellData };

    ghost coded = { cell_code };

    ghost view = { λ s. typed_cells (string_cell s.kind) (strings_between s.bytes s.offsets) s.valid };

    ghost invariant = { λ s. AreStrings s.kind s.bytes s.offsets };
}

impl Strings {
    /// The strings between the offsets, of which those are invalid whose flags are false. The vectors are moved, that of
    /// the flags where one is false.
    #[tactic(auto, using(crate::proofs::Joins::string_rules))]
    pub fn new(
        alloc: Global,
        kind: StringKind,
        bytes: Vec<u8>,
        offsets: Vec<u64>,
        flags: Vec<bool>,
    ) -> Result<Strings, AllocError>
        requires { AreStrings kind bytes.items offsets.items }
        ensures { IfOk result (λ c. c ≡ typed_cells (string_cell kind) (strings_between bytes.items offsets.items) flags.items) }
    {
        let bytes = Shared::new(alloc, bytes)?;
        let offsets = Shared::new(alloc, offsets)?;
        let valid = Flags::new(alloc, needed(flags))?;
        Ok(Strings {
            kind,
            bytes,
            offsets,
            valid,
        })
    }

    /// The strings that the cells are; `None` where one is neither null nor of the kind.
    #[tactic(auto, using(crate::proofs::StringSteps::model_rules))]
    pub fn from_cells(
        alloc: Global,
        kind: StringKind,
        cells: &[Cell],
    ) -> Result<Option<Strings>, AllocError>
        ensures cells { IfOk result (λ o. IfSome o (λ c. c ≡ map tree cells.now)) }
        ensures none { IfOk result (λ o. IfNone o (all_by (fits (string_type kind true)) (map tree cells.now) ≡ false)) }
    {
        let Some((bytes, offsets, flags)) = strings_in(alloc, kind, cells)? else {
            return Ok(None);
        };
        Ok(Some(Strings::new(alloc, kind, bytes, offsets, flags)?))
    }

    /// How many strings there are, nulls among them.
    #[tactic(auto, using(crate::proofs::StringSteps::model_rules))]
    pub fn len(&self) -> usize
        ensures { result ≡ length self.now }
    {
        self.offsets.as_slice().len() - 1
    }

    /// Does nothing; tells a caller's proof that each cell is null, a text or bytes, and real: texts are UTF-8, bytes
    /// below 256, and lengths fit 64 bits.
    pub fn are_strings(&self)
        ensures strings { IsTrue (all_by is_string self.now) }
        ensures real { IsTrue (all_by is_real_cell self.now) }
    {
        let (bytes, offsets) = (self.bytes.as_slice(), self.offsets.as_slice());
        are_strings(self.kind, bytes, offsets, self.valid.as_slice())
    }

    /// The lengths of the strings of rows `from` to `to` together, nulls having none.
    #[tactic(auto, using(crate::proofs::StringSteps::model_rules))]
    pub fn total_len(&self, from: usize, to: usize) -> u128
        requires order { from ≤ to }
        requires within { to ≤ length self.now }
        ensures { result ≡ total_by string_length (take (to - from) (drop from self.now)) }
    {
        let offsets = &self.offsets.as_slice()[from..to + 1];
        let valid = flags_between(self.valid.as_slice(), from as u64, to as u64);
        total_len(self.kind, self.bytes.as_slice(), offsets, valid)
    }

    /// The cell of a row, a copy.
    #[tactic(auto, using(crate::proofs::StringSteps::model_rules))]
    pub fn get(&self, alloc: Global, row: usize) -> Result<Cell, AllocError>
        requires { row < length self.now }
        ensures { IfOk result (λ c. tree c ≡ slice_index_or self.now row null_cell) }
    {
        let (bytes, offsets) = (self.bytes.as_slice(), self.offsets.as_slice());
        cell_at(alloc, self.kind, bytes, offsets, self.valid.as_slice(), row)
    }

    /// The cell of a row, lent.
    #[tactic(auto, using(crate::proofs::StringSteps::model_rules))]
    pub fn row(&self, row: usize) -> Lent<'_>
        requires { row < length self.now }
        ensures { lent_cell result ≡ slice_index_or self.now row null_cell }
    {
        let (bytes, offsets) = (self.bytes.as_slice(), self.offsets.as_slice());
        lent_at(self.kind, bytes, offsets, self.valid.as_slice(), row)
    }

    /// These strings, and the others behind them: in the same memory where nothing else shares it. Where the others are
    /// of another kind, the strings as they are.
    #[tactic(auto, using(crate::proofs::Joins::string_rules))]
    pub fn append(
        self,
        alloc: Global,
        others: &Strings,
    ) -> Result<Result<Strings, Strings>, AllocError>
        ensures { IfOk result (λ r. MatchResult r (λ c. c ≡ self ++ others.now) (λ c. c ≡ self)) }
    {
        if !is_same(self.kind, others.kind) {
            return Ok(Err(self));
        }
        let Strings {
            kind,
            bytes,
            offsets,
            valid,
        } = self;
        let rows = offsets.as_slice().len() - 1;
        let (strings, places) = (others.bytes.as_slice(), others.offsets.as_slice());
        let valid = valid.append(alloc, rows, others.valid.as_slice(), places.len() - 1)?;
        let (bytes, offsets) = join(alloc, kind, bytes, offsets, strings, places)?;
        Ok(Ok(Strings {
            kind,
            bytes,
            offsets,
            valid,
        }))
    }

    /// Rows `from` to `to`, the last not included, in the same memory.
    #[tactic(auto, using(crate::proofs::StringSteps::model_rules))]
    pub fn slice(&self, from: usize, to: usize) -> Result<Strings, AllocError>
        requires order { from ≤ to }
        requires within { to ≤ length self.now }
        ensures { IfOk result (λ c. c ≡ take (to - from) (drop from self.now)) }
    {
        let _count = self.offsets.as_slice().len();
        let offsets = self.offsets.slice(from, to + 1)?;
        let valid = self.valid.slice(from, to)?;
        let bytes = self.bytes.clone()?;
        Ok(Strings {
            kind: self.kind,
            bytes,
            offsets,
            valid,
        })
    }

    /// Appends the cells, copies.
    #[tactic(auto, using(crate::proofs::StringSteps::model_rules))]
    pub fn push_cells(&self, out: &mut Vec<Cell>) -> Result<(), AllocError>
        ensures { OnOk result (map tree out.new.items ≡ map tree out.old.items ++ self.now) }
    {
        let (bytes, offsets) = (self.bytes.as_slice(), self.offsets.as_slice());
        push_cells(self.kind, bytes, offsets, self.valid.as_slice(), out)
    }

    /// Appends the bytes of the cells in a type of texts or of bytes, nullable or not, into room that is made at once.
    #[tactic(auto, using(crate::proofs::StringSteps::model_rules))]
    pub fn push_bytes(&self, nullable: bool, out: &mut Vec<u8>) -> Result<(), AllocError>
        ensures { OnOk result (out.new.items ≡ out.old.items ++ joined_by (text_spelling nullable) self.now) }
    {
        let (bytes, offsets) = (self.bytes.as_slice(), self.offsets.as_slice());
        out.reserve(room(nullable, offsets))?;
        push_strings(
            nullable,
            self.kind,
            bytes,
            offsets,
            self.valid.as_slice(),
            out,
        )
    }
}

// Written out, so that whoever drops one makes a call, and no proof goes through its fields again.
impl Drop for Strings {
    fn drop(self) {
        let Strings {
            kind: _,
            bytes: _,
            offsets: _,
            valid: _,
        } = self;
    }
}

impl Clone for Strings {
    ghost is_clone = { λ c copy. copy ≡ c };

    /// The same strings, in the same memory.
    fn clone(&self) -> Result<Strings, AllocError> {
        let bytes = self.bytes.clone()?;
        let offsets = self.offsets.clone()?;
        let valid = self.valid.clone()?;
        Ok(Strings {
            kind: self.kind,
            bytes,
            offsets,
            valid,
        })
    }
}
