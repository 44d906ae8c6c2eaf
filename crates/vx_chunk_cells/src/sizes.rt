//! Bytes that cells count for.

ghost use Rattle.std.specs.Prelude.{◌≡◌, ◌-◌, ◌*◌, ◌^◌, min, map};
ghost use Rattle.vx_model.specs.Words.{total_by};
ghost use Rattle.vx_model.specs.Numbers.{is_nullable};
ghost use Rattle.vx_model.specs.Ty.{tys_of};
ghost use Rattle.vx_model.specs.CellData.{cell_size as size_of, fields_size as size_of_fields, text_size as size_of_text, null_byte as byte_of};
ghost use Rattle.vx_model.specs.TyView.{ty, field_ty};
ghost use Rattle.vx_model.specs.TreeView.{tree};

use vx_model::{Cell, DType, Nullability, StructField};

/// Bytes that the cells count for, those below an invalid list or struct too; at most the greatest u128.
#[cycle(sizes)]
#[tactic(auto, using(crate::proofs::SizeSteps::size_rules))]
pub fn cells_size(dtype: &DType, cells: &[Cell]) -> u128
    ensures { result ≡ min (total_by (size_of (ty dtype.now)) (map tree cells.now)) (2 ^ 128 - 1) }
{
    if let Some(size) = dtype.element_size() {
        return (cells.len() as u128).saturating_mul(u128::from(size));
    }
    let mut total: u128 = 0;
    for cell in cells {
        total = total.saturating_add(cell_size(dtype, cell));
    }
    total
}

/// Bytes that the cell counts for, in the same way.
#[cycle(sizes)]
#[tactic(auto, using(crate::proofs::SizeSteps::size_rules))]
pub fn cell_size(dtype: &DType, cell: &Cell) -> u128
    ensures { result ≡ min (size_of (ty dtype.now) (tree cell.now)) (2 ^ 128 - 1) }
{
    match dtype {
        DType::Bool(n) => 1 + null_byte(n.is_nullable()),
        DType::Primitive(p, n) => u128::from(p.byte_width()) + null_byte(n.is_nullable()),
        DType::Utf8(n) | DType::Binary(n) => text_size(*n, cell),
        DType::List(items, n) => match cell {
            Cell::List(_, cells) => {
                cells_size(items, cells).saturating_add(8 + null_byte(n.is_nullable()))
            }
            _ => 8 + null_byte(n.is_nullable()),
        },
        DType::Struct(fields, n) => match cell {
            Cell::Struct(_, cells) => {
                fields_size(&fields.fields, cells).saturating_add(null_byte(n.is_nullable()))
            }
            _ => null_byte(n.is_nullable()),
        },
        DType::Extension(ext) => cell_size(&ext.storage, cell),
    }
}

/// The cells of a struct, as far as there are fields and cells.
#[cycle(sizes)]
#[tactic(auto, using(crate::proofs::SizeSteps::size_rules))]
fn fields_size(fields: &[StructField], cells: &[Cell]) -> u128
    ensures { result ≡ min (size_of_fields (tys_of (map field_ty fields.now)) (map tree cells.now)) (2 ^ 128 - 1) }
{
    let count = fields.len().min(cells.len());
    let mut total: u128 = 0;
    for i in 0..count {
        total = total.saturating_add(cell_size(&fields[i].dtype, &cells[i]));
    }
    total
}

#[tactic(auto, using(crate::proofs::SizeSteps::size_rules))]
fn text_size(nullability: Nullability, cell: &Cell) -> u128
    ensures { result ≡ size_of_text (is_nullable nullability) (tree cell.now) }
{
    let length = match cell {
        Cell::Utf8(text) => text.as_str().len(),
        Cell::Binary(blob) => blob.as_slice().len(),
        _ => 0,
    };
    length as u128 + 16 + null_byte(nullability.is_nullable())
}

/// One byte where the type has a null.
pub fn null_byte(nullable: bool) -> u128
    ensures { result ≡ byte_of nullable }
{
    if nullable { 1 } else { 0 }
}

/// The bytes of so many rows of the same size, at most the greatest u128.
pub fn times(rows: u64, bytes: u128) -> u128
    ensures { result ≡ min (rows * bytes) (2 ^ 128 - 1) }
{
    u128::from(rows).saturating_mul(bytes)
}
