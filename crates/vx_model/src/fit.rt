//! Which cells a type has.

ghost use Rattle.std.specs.Prelude.{◌≡◌, map};
ghost use Rattle.vx_model.specs.Words.{all_by};
ghost use Rattle.vx_model.specs.Ty.{tys_of};
ghost use Rattle.vx_model.specs.CellData.{fits as has_cell, fields_fit, flag_fits};
ghost use Rattle.vx_model.specs.Numbers.{int_fits, is_nullable};
ghost use Rattle.vx_model.specs.TyView.{ty, field_ty};
ghost use Rattle.vx_model.specs.TreeView.{tree};

use crate::cell::Cell;
use crate::dtype::{DType, StructField};
use crate::ptype::{Nullability, PType};

/// Whether all cells are the type's. Null fits a nullable leaf type alone, an invalid list or struct a nullable type.
#[cycle(fits)]
#[tactic(auto, using(crate::proofs::FitSteps::fit_rules))]
pub fn fits(dtype: &DType, cells: &[Cell]) -> bool
    ensures { result ≡ all_by (has_cell (ty dtype.now)) (map tree cells.now) }
{
    for cell in cells {
        if !fits_one(dtype, cell) {
            return false;
        }
    }
    true
}

/// Whether the cell is the type's.
#[cycle(fits)]
#[tactic(auto, using(crate::proofs::FitSteps::fit_rules))]
pub fn fits_one(dtype: &DType, cell: &Cell) -> bool
    ensures { result ≡ has_cell (ty dtype.now) (tree cell.now) }
{
    match dtype {
        DType::Bool(n) => match cell {
            Cell::Null => n.is_nullable(),
            Cell::Bool(_) => true,
            _ => false,
        },
        DType::Primitive(p, n) => match cell {
            Cell::Null => n.is_nullable(),
            Cell::Int(i) => has_int(*p, *i),
            _ => false,
        },
        DType::Utf8(n) => match cell {
            Cell::Null => n.is_nullable(),
            Cell::Utf8(_) => true,
            _ => false,
        },
        DType::Binary(n) => match cell {
            Cell::Null => n.is_nullable(),
            Cell::Binary(_) => true,
            _ => false,
        },
        DType::List(items, n) => match cell {
            Cell::List(valid, cells) => may_be(*valid, *n) && fits(items, cells),
            _ => false,
        },
        DType::Struct(fields, n) => match cell {
            Cell::Struct(valid, cells) => may_be(*valid, *n) && fit_fields(&fields.fields, cells),
            _ => false,
        },
        DType::Extension(ext) => fits_one(&ext.storage, cell),
    }
}

/// One cell a field, in order.
#[cycle(fits)]
#[tactic(auto, using(crate::proofs::FitSteps::fit_rules))]
fn fit_fields(fields: &[StructField], cells: &[Cell]) -> bool
    ensures { result ≡ fields_fit (tys_of (map field_ty fields.now)) (map tree cells.now) }
{
    if fields.len() != cells.len() {
        return false;
    }
    for i in 0..fields.len() {
        if !fits_one(&fields[i].dtype, &cells[i]) {
            return false;
        }
    }
    true
}

/// Whether a type has a list or struct of this flag.
fn may_be(valid: bool, nullability: Nullability) -> bool
    ensures { result ≡ flag_fits valid (is_nullable nullability) }
{
    valid || nullability.is_nullable()
}

/// Whether the type has the integer.
pub(crate) fn has_int(ptype: PType, n: i128) -> bool
    ensures { result ≡ int_fits ptype n }
{
    match ptype {
        PType::U8 => 0 <= n && n < 256,
        PType::U16 => 0 <= n && n < 65_536,
        PType::U32 => 0 <= n && n < 4_294_967_296,
        PType::U64 => 0 <= n && n < 18_446_744_073_709_551_616,
        PType::I8 => -128 <= n && n < 128,
        PType::I16 => -32_768 <= n && n < 32_768,
        PType::I32 => -2_147_483_648 <= n && n < 2_147_483_648,
        PType::I64 => -9_223_372_036_854_775_808 <= n && n < 9_223_372_036_854_775_808,
    }
}
