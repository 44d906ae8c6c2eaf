//! Values of one machine type.

ghost use Rattle.std.specs.Prelude.{◌≡◌, ◌++◌, if◌then◌else◌, true, false, Bool, pos, refl, OnOk, IfSome, IfNone};
ghost use Rattle.vx_model.specs.declared.ptype.PType.TheVariants as types;
ghost use Rattle.vx_model.specs.Ty.{Ty, boolean, primitive};
ghost use Rattle.vx_model.specs.CellData.{CellData, null_cell, bool_cell, int_cell, fits, flag_bytes, spelling};
ghost use Rattle.vx_model.specs.TreeView.{tree};
ghost use Rattle.vx_typed.specs.Typed.{is_leaf};
ghost use Rattle.vx_typed.specs.Lent.{lent_cell};

use crate::lent::Lent;
use std::alloc::AllocError;
use vx_model::Cell;

/// A number of one of the integer types, or a Bool.
pub trait Leaf: Copy {
    /// The type of its cells, nullable or not.
    ghost kind: { Bool → Ty };

    /// The cell that it is.
    ghost as_cell: { Self → CellData };

    /// Appends its bytes.
    fn put(self, out: &mut Vec<u8>) -> Result<(), AllocError>
        ensures { OnOk result (out.new.items ≡ out.old.items ++ spelling (kind false) (as_cell self)) };

    /// Appends its bytes behind the flag of a nullable type.
    fn put_valid(self, out: &mut Vec<u8>) -> Result<(), AllocError>
        ensures { OnOk result (out.new.items ≡ out.old.items ++ spelling (kind true) (as_cell self)) };

    fn to_cell(self) -> Cell
        ensures { tree result ≡ as_cell self };

    /// Its cell, which borrows nothing.
    fn lend<'a>(self) -> Lent<'a>
        ensures { lent_cell result ≡ as_cell self };

    /// What is in the cell, with whether it is valid; `None` where the type has no such cell, null or not.
    fn read(c: &Cell) -> Option<(bool, Self)>
        ensures found { IfSome result (λ x. (if x.0 then as_cell x.1 else null_cell) ≡ tree c.now) }
        ensures none { IfNone result (fits (kind true) (tree c.now) ≡ false) };

    /// A null has no bytes but the flag of a nullable type.
    ghost null_spelled: { (n : Bool) → spelling (kind n) null_cell ≡ flag_bytes n false };

    /// Its cell has no cells below it, and counts for the same whatever it is.
    ghost leaf: { (x : Self) → is_leaf (as_cell x) ≡ true };
}

impl Leaf for bool {
    ghost kind = { λ n. boolean n };

    ghost as_cell = { λ b. bool_cell b };

    ghost null_spelled = { λ n. refl };

    ghost leaf = { λ b. refl };

    fn put(self, out: &mut Vec<u8>) -> Result<(), AllocError> {
        out.push(self as u8)?;
        Ok(())
    }

    fn put_valid(self, out: &mut Vec<u8>) -> Result<(), AllocError> {
        out.extend_from_slice(&[1, self as u8])
    }

    fn to_cell(self) -> Cell {
        Cell::Bool(self)
    }

    fn lend<'a>(self) -> Lent<'a> {
        Lent::Bool(self)
    }

    fn read(c: &Cell) -> Option<(bool, bool)> {
        match c {
            Cell::Null => Some((false, false)),
            Cell::Bool(b) => Some((true, *b)),
            _ => None,
        }
    }
}

impl Leaf for u8 {
    ghost kind = { λ n. primitive types.U8 n };

    ghost as_cell = { λ x. int_cell (pos x) };

    ghost null_spelled = { λ n. refl };

    ghost leaf = { λ x. refl };

    fn put(self, out: &mut Vec<u8>) -> Result<(), AllocError> {
        out.extend_from_slice(&self.to_le_bytes())
    }

    fn put_valid(self, out: &mut Vec<u8>) -> Result<(), AllocError> {
        let [a] = self.to_le_bytes();
        out.extend_from_slice(&[1, a])
    }

    fn to_cell(self) -> Cell {
        Cell::Int(i128::from(self))
    }

    fn lend<'a>(self) -> Lent<'a> {
        Lent::Int(i128::from(self))
    }

    fn read(c: &Cell) -> Option<(bool, u8)> {
        match c {
            Cell::Null => Some((false, 0)),
            Cell::Int(n) if 0 <= *n && *n < 1 << 8 => Some((true, *n as u8)),
            _ => None,
        }
    }
}

impl Leaf for u16 {
    ghost kind = { λ n. primitive types.U16 n };

    ghost as_cell = { λ x. int_cell (pos x) };

    ghost null_spelled = { λ n. refl };

    ghost leaf = { λ x. refl };

    fn put(self, out: &mut Vec<u8>) -> Result<(), AllocError> {
        out.extend_from_slice(&self.to_le_bytes())
    }

    fn put_valid(self, out: &mut Vec<u8>) -> Result<(), AllocError> {
        let [a, b] = self.to_le_bytes();
        out.extend_from_slice(&[1, a, b])
    }

    fn to_cell(self) -> Cell {
        Cell::Int(i128::from(self))
    }

    fn lend<'a>(self) -> Lent<'a> {
        Lent::Int(i128::from(self))
    }

    fn read(c: &Cell) -> Option<(bool, u16)> {
        match c {
            Cell::Null => Some((false, 0)),
            Cell::Int(n) if 0 <= *n && *n < 1 << 16 => Some((true, *n as u16)),
            _ => None,
        }
    }
}

impl Leaf for u32 {
    ghost kind = { λ n. primitive types.U32 n };

    ghost as_cell = { λ x. int_cell (pos x) };

    ghost null_spelled = { λ n. refl };

    ghost leaf = { λ x. refl };

    fn put(self, out: &mut Vec<u8>) -> Result<(), AllocError> {
        out.extend_from_slice(&self.to_le_bytes())
    }

    fn put_valid(self, out: &mut Vec<u8>) -> Result<(), AllocError> {
        let [a, b, c, d] = self.to_le_bytes();
        out.extend_from_slice(&[1, a, b, c, d])
    }

    fn to_cell(self) -> Cell {
        Cell::Int(i128::from(self))
    }

    fn lend<'a>(self) -> Lent<'a> {
        Lent::Int(i128::from(self))
    }

    fn read(c: &Cell) -> Option<(bool, u32)> {
        match c {
            Cell::Null => Some((false, 0)),
            Cell::Int(n) if 0 <= *n && *n < 1 << 32 => Some((true, *n as u32)),
            _ => None,
        }
    }
}

impl Leaf for u64 {
    ghost kind = { λ n. primitive types.U64 n };

    ghost as_cell = { λ x. int_cell (pos x) };

    ghost null_spelled = { λ n. refl };

    ghost leaf = { λ x. refl };

    fn put(self, out: &mut Vec<u8>) -> Result<(), AllocError> {
        out.extend_from_slice(&self.to_le_bytes())
    }

    fn put_valid(self, out: &mut Vec<u8>) -> Result<(), AllocError> {
        let [a, b, c, d, e, f, g, h] = self.to_le_bytes();
        out.extend_from_slice(&[1, a, b, c, d, e, f, g, h])
    }

    fn to_cell(self) -> Cell {
        Cell::Int(i128::from(self))
    }

    fn lend<'a>(self) -> Lent<'a> {
        Lent::Int(i128::from(self))
    }

    fn read(c: &Cell) -> Option<(bool, u64)> {
        match c {
            Cell::Null => Some((false, 0)),
            Cell::Int(n) if 0 <= *n && *n < 1 << 64 => Some((true, *n as u64)),
            _ => None,
        }
    }
}

impl Leaf for i8 {
    ghost kind = { λ n. primitive types.I8 n };

    ghost as_cell = { λ x. int_cell x };

    ghost null_spelled = { λ n. refl };

    ghost leaf = { λ x. refl };

    fn put(self, out: &mut Vec<u8>) -> Result<(), AllocError> {
        out.extend_from_slice(&self.to_le_bytes())
    }

    fn put_valid(self, out: &mut Vec<u8>) -> Result<(), AllocError> {
        let [a] = self.to_le_bytes();
        out.extend_from_slice(&[1, a])
    }

    fn to_cell(self) -> Cell {
        Cell::Int(i128::from(self))
    }

    fn lend<'a>(self) -> Lent<'a> {
        Lent::Int(i128::from(self))
    }

    fn read(c: &Cell) -> Option<(bool, i8)> {
        match c {
            Cell::Null => Some((false, 0)),
            Cell::Int(n) if -128 <= *n && *n < 1 << 7 => Some((true, *n as i8)),
            _ => None,
        }
    }
}

impl Leaf for i16 {
    ghost kind = { λ n. primitive types.I16 n };

    ghost as_cell = { λ x. int_cell x };

    ghost null_spelled = { λ n. refl };

    ghost leaf = { λ x. refl };

    fn put(self, out: &mut Vec<u8>) -> Result<(), AllocError> {
        out.extend_from_slice(&self.to_le_bytes())
    }

    fn put_valid(self, out: &mut Vec<u8>) -> Result<(), AllocError> {
        let [a, b] = self.to_le_bytes();
        out.extend_from_slice(&[1, a, b])
    }

    fn to_cell(self) -> Cell {
        Cell::Int(i128::from(self))
    }

    fn lend<'a>(self) -> Lent<'a> {
        Lent::Int(i128::from(self))
    }

    fn read(c: &Cell) -> Option<(bool, i16)> {
        match c {
            Cell::Null => Some((false, 0)),
            Cell::Int(n) if -32_768 <= *n && *n < 1 << 15 => Some((true, *n as i16)),
            _ => None,
        }
    }
}

impl Leaf for i32 {
    ghost kind = { λ n. primitive types.I32 n };

    ghost as_cell = { λ x. int_cell x };

    ghost null_spelled = { λ n. refl };

    ghost leaf = { λ x. refl };

    fn put(self, out: &mut Vec<u8>) -> Result<(), AllocError> {
        out.extend_from_slice(&self.to_le_bytes())
    }

    fn put_valid(self, out: &mut Vec<u8>) -> Result<(), AllocError> {
        let [a, b, c, d] = self.to_le_bytes();
        out.extend_from_slice(&[1, a, b, c, d])
    }

    fn to_cell(self) -> Cell {
        Cell::Int(i128::from(self))
    }

    fn lend<'a>(self) -> Lent<'a> {
        Lent::Int(i128::from(self))
    }

    fn read(c: &Cell) -> Option<(bool, i32)> {
        match c {
            Cell::Null => Some((false, 0)),
            Cell::Int(n) if -2_147_483_648 <= *n && *n < 1 << 31 => Some((true, *n as i32)),
            _ => None,
        }
    }
}

impl Leaf for i64 {
    ghost kind = { λ n. primitive types.I64 n };

    ghost as_cell = { λ x. int_cell x };

    ghost null_spelled = { λ n. refl };

    ghost leaf = { λ x. refl };

    fn put(self, out: &mut Vec<u8>) -> Result<(), AllocError> {
        out.extend_from_slice(&self.to_le_bytes())
    }

    fn put_valid(self, out: &mut Vec<u8>) -> Result<(), AllocError> {
        let [a, b, c, d, e, f, g, h] = self.to_le_bytes();
        out.extend_from_slice(&[1, a, b, c, d, e, f, g, h])
    }

    fn to_cell(self) -> Cell {
        Cell::Int(i128::from(self))
    }

    fn lend<'a>(self) -> Lent<'a> {
        Lent::Int(i128::from(self))
    }

    fn read(c: &Cell) -> Option<(bool, i64)> {
        match c {
            Cell::Null => Some((false, 0)),
            Cell::Int(n) if -9_223_372_036_854_775_808 <= *n && *n < 1 << 63 => Some((
                true, *n as i64,
            )),
            _ => None,
        }
    }
}
