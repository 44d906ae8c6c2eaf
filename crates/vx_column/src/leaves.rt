//! Numbers of any machine type, or Bools.

ghost use Rattle.std.specs.Prelude.{◌≡◌, ◌≤◌, ◌<◌, ◌++◌, length, map, slice_index_or, IsTrue, IfOk, OnOk, MatchResult};
ghost use Rattle.vx_model.specs.Words.{all_by, joined_by};
ghost use Rattle.vx_model.specs.CellData.{null_cell, spelling};
ghost use Rattle.vx_model.specs.TreeView.{tree};
ghost use Rattle.vx_chunk_cells.specs.Window.{window};
ghost use Rattle.vx_typed.specs.Typed.{is_leaf};
ghost use Rattle.vx_typed.specs.Lent.{lent_cell};
ghost use Rattle.vx_column.specs.ColumnView.{leaf_cells, leaf_ptype, leaf_type, leaf_width};

use crate::leaf_joins::{
    append_bool, append_i8, append_i16, append_i32, append_i64, append_u8, append_u16, append_u32,
    append_u64,
};
use std::alloc::{AllocError, Global};
use vx_model::{Cell, PType};
use vx_typed::{Leaves, Lent};

/// Numbers of one of the integer types, or Bools.
pub enum AnyLeaves {
    Bool(Leaves<bool>),
    U8(Leaves<u8>),
    U16(Leaves<u16>),
    U32(Leaves<u32>),
    U64(Leaves<u64>),
    I8(Leaves<i8>),
    I16(Leaves<i16>),
    I32(Leaves<i32>),
    I64(Leaves<i64>),
}

/// What the leaves of each type give.
macro_rules! of_each {
    ($any:expr, $leaves:ident => $given:expr) => {
        match $any {
            AnyLeaves::Bool($leaves) => $given,
            AnyLeaves::U8($leaves) => $given,
            AnyLeaves::U16($leaves) => $given,
            AnyLeaves::U32($leaves) => $given,
            AnyLeaves::U64($leaves) => $given,
            AnyLeaves::I8($leaves) => $given,
            AnyLeaves::I16($leaves) => $given,
            AnyLeaves::I32($leaves) => $given,
            AnyLeaves::I64($leaves) => $given,
        }
    };
}

/// Leaves of the same type.
macro_rules! as_each {
    ($any:expr, $leaves:ident => $given:expr) => {
        match $any {
            AnyLeaves::Bool($leaves) => Ok(AnyLeaves::Bool($given)),
            AnyLeaves::U8($leaves) => Ok(AnyLeaves::U8($given)),
            AnyLeaves::U16($leaves) => Ok(AnyLeaves::U16($given)),
            AnyLeaves::U32($leaves) => Ok(AnyLeaves::U32($given)),
            AnyLeaves::U64($leaves) => Ok(AnyLeaves::U64($given)),
            AnyLeaves::I8($leaves) => Ok(AnyLeaves::I8($given)),
            AnyLeaves::I16($leaves) => Ok(AnyLeaves::I16($given)),
            AnyLeaves::I32($leaves) => Ok(AnyLeaves::I32($given)),
            AnyLeaves::I64($leaves) => Ok(AnyLeaves::I64($given)),
        }
    };
}

impl AnyLeaves {
    /// How many values there are, nulls among them.
    pub fn len(&self) -> usize
        ensures { result ≡ length (leaf_cells self.now) }
    {
        of_each!(self, leaves => leaves.len())
    }

    /// The type of the integers; `None` of Bools.
    pub fn ptype(&self) -> Option<PType>
        ensures { result ≡ leaf_ptype self.now }
    {
        match self {
            AnyLeaves::Bool(_) => None,
            AnyLeaves::U8(_) => Some(PType::U8),
            AnyLeaves::U16(_) => Some(PType::U16),
            AnyLeaves::U32(_) => Some(PType::U32),
            AnyLeaves::U64(_) => Some(PType::U64),
            AnyLeaves::I8(_) => Some(PType::I8),
            AnyLeaves::I16(_) => Some(PType::I16),
            AnyLeaves::I32(_) => Some(PType::I32),
            AnyLeaves::I64(_) => Some(PType::I64),
        }
    }

    /// Does nothing; tells a caller's proof that each cell is null, a number or a Bool.
    pub fn are_leaves(&self)
        ensures { IsTrue (all_by is_leaf (leaf_cells self.now)) }
    {
        of_each!(self, leaves => leaves.are_leaves())
    }

    /// The cell of a row.
    pub fn get(&self, row: usize) -> Cell
        requires { row < length (leaf_cells self.now) }
        ensures { tree result ≡ slice_index_or (leaf_cells self.now) row null_cell }
    {
        of_each!(self, leaves => leaves.get(row))
    }

    /// The cell of a row, lent.
    pub fn row(&self, row: usize) -> Lent<'_>
        requires { row < length (leaf_cells self.now) }
        ensures { lent_cell result ≡ slice_index_or (leaf_cells self.now) row null_cell }
    {
        of_each!(self, leaves => leaves.row(row))
    }

    /// Rows `from` to `to`, the last not included, in the same memory.
    pub fn slice(&self, from: usize, to: usize) -> Result<AnyLeaves, AllocError>
        requires order { from ≤ to }
        requires within { to ≤ length (leaf_cells self.now) }
        ensures cells { IfOk result (λ c. leaf_cells c ≡ window from to (leaf_cells self.now)) }
        ensures ptype { IfOk result (λ c. leaf_ptype c ≡ leaf_ptype self.now) }
    {
        as_each!(self, leaves => leaves.slice(from, to)?)
    }

    /// These values, and the others behind them, in the same memory where nothing else shares it. Where the others are of
    /// another type, the values as they are.
    pub fn append(
        self,
        alloc: Global,
        others: &AnyLeaves,
    ) -> Result<Result<AnyLeaves, AnyLeaves>, AllocError>
        ensures { IfOk result (λ r. MatchResult r (λ c. leaf_cells c ≡ leaf_cells self ++ leaf_cells others.now) (λ c. leaf_cells c ≡ leaf_cells self)) }
    {
        match self {
            AnyLeaves::Bool(leaves) => append_bool(leaves, alloc, others),
            AnyLeaves::U8(leaves) => append_u8(leaves, alloc, others),
            AnyLeaves::U16(leaves) => append_u16(leaves, alloc, others),
            AnyLeaves::U32(leaves) => append_u32(leaves, alloc, others),
            AnyLeaves::U64(leaves) => append_u64(leaves, alloc, others),
            AnyLeaves::I8(leaves) => append_i8(leaves, alloc, others),
            AnyLeaves::I16(leaves) => append_i16(leaves, alloc, others),
            AnyLeaves::I32(leaves) => append_i32(leaves, alloc, others),
            AnyLeaves::I64(leaves) => append_i64(leaves, alloc, others),
        }
    }

    /// Appends the cells.
    pub fn push_cells(&self, out: &mut Vec<Cell>) -> Result<(), AllocError>
        ensures { OnOk result (map tree out.new.items ≡ map tree out.old.items ++ leaf_cells self.now) }
    {
        of_each!(self, leaves => leaves.push_cells(out))
    }

    /// Bytes of a value.
    fn width(&self) -> u64
        ensures { result ≡ leaf_width (leaf_ptype self.now) }
    {
        match self.ptype() {
            Some(ptype) => ptype.byte_width(),
            None => 1,
        }
    }

    /// Appends the bytes of the cells in the type of such values, nullable or not, into room that is made at once.
    pub fn push_bytes(&self, nullable: bool, out: &mut Vec<u8>) -> Result<(), AllocError>
        ensures { OnOk result (out.new.items ≡ out.old.items ++ joined_by (spelling (leaf_type (leaf_ptype self.now) nullable)) (leaf_cells self.now)) }
    {
        let each = self.width() as usize + usize::from(nullable);
        out.reserve(self.len().saturating_mul(each))?;
        of_each!(self, leaves => leaves.push_bytes(nullable, out))
    }
}

// Written out, so that whoever drops some makes a call, and no proof goes through their types again.
impl Drop for AnyLeaves {
    fn drop(self) {
        of_each!(self, leaves => drop(leaves))
    }
}

impl Clone for AnyLeaves {
    ghost is_clone = { λ c copy. (leaf_cells copy ≡ leaf_cells c) × (leaf_ptype copy ≡ leaf_ptype c) };

    /// The same values, in the same memory.
    fn clone(&self) -> Result<AnyLeaves, AllocError> {
        as_each!(self, leaves => leaves.clone()?)
    }
}
