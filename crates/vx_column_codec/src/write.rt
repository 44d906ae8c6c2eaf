//! Columns as a segment has them.

ghost use Rattle.std.specs.Prelude.{◌≡◌, ◌++◌, IsTrue, OnOk};
ghost use Rattle.vx_model.specs.Words.{all_by, joined_by};
ghost use Rattle.vx_model.specs.CellData.{fits, spelling};
ghost use Rattle.vx_model.specs.TyView.{ty};
ghost use Rattle.vx_column.specs.ColumnView.{leaf_cells, leaf_type, column_cells};

use std::alloc::AllocError;
use vx_cell_codec::push_cells;
use vx_column::{AnyLeaves, Column};
use vx_model::{DType, PType};
use vx_strings::Strings;

/// Appends the bytes of the column's cells in the type, one after the other: in one pass over typed values where the
/// type is theirs, else over cells.
pub fn push_column(out: &mut Vec<u8>, dtype: &DType, column: &Column) -> Result<(), AllocError>
    requires { IsTrue (all_by (fits (ty dtype.now)) (column_cells column.now)) }
    ensures { OnOk result (out.new.items ≡ out.old.items ++ joined_by (spelling (ty dtype.now)) (column_cells column.now)) }
{
    match column {
        Column::Leaves(leaves) => push_leaves(out, dtype, leaves),
        Column::Strings(strings) => push_strings(out, dtype, strings),
        Column::Cells(cells) => push_cells(out, dtype, cells),
    }
}

#[tactic(auto, using(vx_model::proofs::Views::view_rules))]
fn push_leaves(out: &mut Vec<u8>, dtype: &DType, leaves: &AnyLeaves) -> Result<(), AllocError>
    requires { IsTrue (all_by (fits (ty dtype.now)) (leaf_cells leaves.now)) }
    ensures { OnOk result (out.new.items ≡ out.old.items ++ joined_by (spelling (ty dtype.now)) (leaf_cells leaves.now)) }
{
    match dtype {
        DType::Bool(n) => push_values(out, dtype, None, n.is_nullable(), leaves),
        DType::Primitive(ptype, n) => {
            push_values(out, dtype, Some(*ptype), n.is_nullable(), leaves)
        }
        DType::Extension(ext) => push_leaves(out, &ext.storage, leaves),
        DType::Utf8(_) | DType::Binary(_) | DType::List(..) | DType::Struct(..) => {
            push_leaf_cells(out, dtype, leaves)
        }
    }
}

/// Those of integers or of Bools.
fn push_values(
    out: &mut Vec<u8>,
    dtype: &DType,
    ptype: Option<PType>,
    nullable: bool,
    leaves: &AnyLeaves,
) -> Result<(), AllocError>
    requires is { ty dtype.now ≡ leaf_type ptype nullable }
    requires fit { IsTrue (all_by (fits (ty dtype.now)) (leaf_cells leaves.now)) }
    ensures { OnOk result (out.new.items ≡ out.old.items ++ joined_by (spelling (ty dtype.now)) (leaf_cells leaves.now)) }
{
    if leaves.ptype() == ptype {
        return leaves.push_bytes(nullable, out);
    }
    push_leaf_cells(out, dtype, leaves)
}

/// Cell by cell, of values in another type than theirs.
fn push_leaf_cells(out: &mut Vec<u8>, dtype: &DType, leaves: &AnyLeaves) -> Result<(), AllocError>
    requires { IsTrue (all_by (fits (ty dtype.now)) (leaf_cells leaves.now)) }
    ensures { OnOk result (out.new.items ≡ out.old.items ++ joined_by (spelling (ty dtype.now)) (leaf_cells leaves.now)) }
{
    let mut cells = Vec::with_capacity(*out.allocator(), leaves.len())?;
    leaves.push_cells(&mut cells)?;
    push_cells(out, dtype, &cells)
}

#[tactic(auto, using(vx_model::proofs::Views::view_rules))]
fn push_strings(out: &mut Vec<u8>, dtype: &DType, strings: &Strings) -> Result<(), AllocError>
    requires { IsTrue (all_by (fits (ty dtype.now)) strings.now) }
    ensures { OnOk result (out.new.items ≡ out.old.items ++ joined_by (spelling (ty dtype.now)) strings.now) }
{
    match dtype {
        DType::Utf8(n) | DType::Binary(n) => strings.push_bytes(n.is_nullable(), out),
        DType::Extension(ext) => push_strings(out, &ext.storage, strings),
        DType::Bool(_) | DType::Primitive(..) | DType::List(..) | DType::Struct(..) => {
            push_string_cells(out, dtype, strings)
        }
    }
}

/// Cell by cell, of nulls in another type.
fn push_string_cells(out: &mut Vec<u8>, dtype: &DType, strings: &Strings) -> Result<(), AllocError>
    requires { IsTrue (all_by (fits (ty dtype.now)) strings.now) }
    ensures { OnOk result (out.new.items ≡ out.old.items ++ joined_by (spelling (ty dtype.now)) strings.now) }
{
    let mut cells = Vec::with_capacity(*out.allocator(), strings.len())?;
    strings.push_cells(&mut cells)?;
    push_cells(out, dtype, &cells)
}
