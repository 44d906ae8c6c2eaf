//! Writing cells.

ghost use Rattle.std.specs.Prelude.{◌≡◌, ◌++◌, true, map, length, OnOk, IsTrue};
ghost use Rattle.vx_model.specs.Words.{all_by, joined_by};
ghost use Rattle.vx_model.specs.Numbers.{is_nullable};
ghost use Rattle.vx_model.specs.Ty.{tys_of};
ghost use Rattle.vx_model.specs.TyView.{ty, field_ty};
ghost use Rattle.vx_model.specs.CellData.{fits, fields_fit, primitive_fits, flag_bytes, u64_bytes, int_bytes, bool_spelling, primitive_spelling, text_spelling, spelling, fields_spelling};
ghost use Rattle.vx_model.specs.Numbers.{int_fits};
ghost use Rattle.vx_model.specs.TreeView.{tree};

use std::alloc::AllocError;
use vx_model::{Cell, DType, PType, StructField};

/// Appends the cell's bytes.
#[cycle(writing)]
#[tactic(auto, using(crate::proofs::CellViews::write_rules))]
pub fn push_cell(out: &mut Vec<u8>, dtype: &DType, cell: &Cell) -> Result<(), AllocError>
    requires { IsTrue (fits (ty dtype.now) (tree cell.now)) }
    ensures { OnOk result (out.new.items ≡ out.old.items ++ spelling (ty dtype.now) (tree cell.now)) }
{
    match dtype {
        DType::Bool(n) => push_bool(out, n.is_nullable(), cell),
        DType::Primitive(p, n) => push_int(out, *p, n.is_nullable(), cell),
        DType::Utf8(n) | DType::Binary(n) => push_text(out, n.is_nullable(), cell),
        DType::List(items, n) => match cell {
            Cell::List(valid, cells) => {
                push_head(out, n.is_nullable(), *valid, cells.len())?;
                push_cells(out, items, cells)
            }
            _ => push_flag(out, n.is_nullable(), false),
        },
        DType::Struct(fields, _) => match cell {
            Cell::Struct(valid, cells) => {
                push_flag(out, true, *valid)?;
                push_fields(out, &fields.fields, cells)
            }
            _ => push_flag(out, true, false),
        },
        DType::Extension(ext) => push_cell(out, &ext.storage, cell),
    }
}

/// Appends the bytes of the cells, one after the other.
#[cycle(writing)]
#[tactic(auto, using(crate::proofs::CellViews::write_rules))]
pub fn push_cells(out: &mut Vec<u8>, dtype: &DType, cells: &[Cell]) -> Result<(), AllocError>
    requires { IsTrue (all_by (fits (ty dtype.now)) (map tree cells.now)) }
    ensures { OnOk result (out.new.items ≡ out.old.items ++ joined_by (spelling (ty dtype.now)) (map tree cells.now)) }
{
    for cell in cells {
        push_cell(out, dtype, cell)?;
    }
    Ok(())
}

/// One cell a field.
#[cycle(writing)]
#[tactic(auto, using(crate::proofs::CellViews::write_rules))]
fn push_fields(out: &mut Vec<u8>, fields: &[StructField], cells: &[Cell]) -> Result<(), AllocError>
    requires { IsTrue (fields_fit (tys_of (map field_ty fields.now)) (map tree cells.now)) }
    ensures { OnOk result (out.new.items ≡ out.old.items ++ fields_spelling (tys_of (map field_ty fields.now)) (map tree cells.now)) }
{
    for i in 0..fields.len().min(cells.len()) {
        push_cell(out, &fields[i].dtype, &cells[i])?;
    }
    Ok(())
}

#[tactic(auto, using(crate::proofs::CellViews::leaf_rules))]
fn push_bool(out: &mut Vec<u8>, nullable: bool, cell: &Cell) -> Result<(), AllocError>
    ensures { OnOk result (out.new.items ≡ out.old.items ++ bool_spelling nullable (tree cell.now)) }
{
    match cell {
        Cell::Bool(b) => {
            push_flag(out, nullable, true)?;
            push_flag(out, true, *b)
        }
        _ => push_flag(out, nullable, false),
    }
}

#[tactic(auto, using(crate::proofs::CellViews::leaf_rules))]
fn push_int(out: &mut Vec<u8>, ptype: PType, nullable: bool, cell: &Cell) -> Result<(), AllocError>
    requires { IsTrue (primitive_fits ptype nullable (tree cell.now)) }
    ensures { OnOk result (out.new.items ≡ out.old.items ++ primitive_spelling ptype nullable (tree cell.now)) }
{
    match cell {
        Cell::Int(n) => {
            push_flag(out, nullable, true)?;
            push_number(out, ptype, *n)
        }
        _ => push_flag(out, nullable, false),
    }
}

#[tactic(auto, using(crate::proofs::CellViews::leaf_rules))]
fn push_text(out: &mut Vec<u8>, nullable: bool, cell: &Cell) -> Result<(), AllocError>
    ensures { OnOk result (out.new.items ≡ out.old.items ++ text_spelling nullable (tree cell.now)) }
{
    match cell {
        Cell::Utf8(text) => push_bytes(out, nullable, text.as_str().as_bytes()),
        Cell::Binary(blob) => push_bytes(out, nullable, blob.as_slice()),
        _ => push_flag(out, nullable, false),
    }
}

#[tactic(auto, using(crate::proofs::CellViews::leaf_rules))]
fn push_bytes(out: &mut Vec<u8>, nullable: bool, bytes: &[u8]) -> Result<(), AllocError>
    ensures { OnOk result (out.new.items ≡ out.old.items ++ (flag_bytes nullable true ++ (u64_bytes (length bytes.now) ++ bytes.now))) }
{
    push_head(out, nullable, true, bytes.len())?;
    out.extend_from_slice(bytes)
}

/// The flag of a nullable type, and a length or a count.
#[tactic(auto, using(crate::proofs::CellViews::leaf_rules))]
fn push_head(
    out: &mut Vec<u8>,
    nullable: bool,
    valid: bool,
    length: usize,
) -> Result<(), AllocError>
    ensures { OnOk result (out.new.items ≡ out.old.items ++ (flag_bytes nullable valid ++ u64_bytes length)) }
{
    push_flag(out, nullable, valid)?;
    out.extend_from_slice(&(length as u64).to_le_bytes())
}

/// The flag of a nullable type.
#[tactic(auto, using(crate::proofs::CellViews::leaf_rules))]
fn push_flag(out: &mut Vec<u8>, nullable: bool, valid: bool) -> Result<(), AllocError>
    ensures { OnOk result (out.new.items ≡ out.old.items ++ flag_bytes nullable valid) }
{
    if nullable {
        out.push(valid as u8)?;
    }
    Ok(())
}

fn push_number(out: &mut Vec<u8>, ptype: PType, n: i128) -> Result<(), AllocError>
    requires { IsTrue (int_fits ptype n) }
    ensures { OnOk result (out.new.items ≡ out.old.items ++ int_bytes ptype n) }
{
    match ptype {
        PType::U8 => out.extend_from_slice(&(n as u8).to_le_bytes()),
        PType::U16 => out.extend_from_slice(&(n as u16).to_le_bytes()),
        PType::U32 => out.extend_from_slice(&(n as u32).to_le_bytes()),
        PType::U64 => out.extend_from_slice(&(n as u64).to_le_bytes()),
        PType::I8 => out.extend_from_slice(&(n as i8).to_le_bytes()),
        PType::I16 => out.extend_from_slice(&(n as i16).to_le_bytes()),
        PType::I32 => out.extend_from_slice(&(n as i32).to_le_bytes()),
        PType::I64 => out.extend_from_slice(&(n as i64).to_le_bytes()),
    }
}
