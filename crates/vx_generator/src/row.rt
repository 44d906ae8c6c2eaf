//! Rows of the generated table.

ghost use Rattle.std.specs.Prelude.{◌≡◌, ◌+◌, ◌-◌, ◌≤◌, ◌^◌, map, IfOk};
ghost use Rattle.vx_model.specs.TyView.{ty};
ghost use Rattle.vx_model.specs.TreeView.{tree};
ghost use Rattle.vx_generator.specs.Generated.{table_type, city, amount, table_row, rows_from};

use std::alloc::{AllocError, Global};
use vx_model::{Cell, DType, Nullability, PType, StructField, StructFields, Text};

/// The type of the table: a struct of an id, a city and an amount, which may be null.
pub(crate) fn dtype(alloc: Global) -> Result<DType, AllocError>
    ensures { IfOk result (λ t. ty t ≡ table_type) }
{
    let id = StructField {
        name: Text::from_str(alloc, "id")?,
        dtype: DType::Primitive(PType::I64, Nullability::NonNullable),
    };
    let city = StructField {
        name: Text::from_str(alloc, "city")?,
        dtype: DType::Utf8(Nullability::NonNullable),
    };
    let amount = StructField {
        name: Text::from_str(alloc, "amount")?,
        dtype: DType::Primitive(PType::I64, Nullability::Nullable),
    };
    let fields = vec![in alloc; id, city, amount]?;
    Ok(DType::Struct(StructFields { fields }, Nullability::NonNullable))
}

fn city(alloc: Global, i: u32) -> Result<Text, AllocError>
    ensures { IfOk result (λ t. t ≡ city i) }
{
    let number = i % 23;
    Ok(Text::from(format!(in alloc; "city-{number}")?))
}

fn amount(i: u32) -> Cell
    ensures { tree result ≡ amount i }
{
    if i % 10 == 9 {
        return Cell::Null;
    }
    let amount = u64::from(i) * 37 % 1000;
    Cell::Int(i128::from(amount))
}

fn row(alloc: Global, i: u32) -> Result<Cell, AllocError>
    ensures { IfOk result (λ c. tree c ≡ table_row i) }
{
    let city = city(alloc, i)?;
    let cells = vec![in alloc; Cell::Int(i128::from(i)), Cell::Utf8(city), amount(i)]?;
    Ok(Cell::Struct(true, cells))
}

/// So many rows, from one on.
pub(crate) fn rows(alloc: Global, first: u32, count: u32) -> Result<Vec<Cell>, AllocError>
    requires { first + count ≤ 2 ^ 32 - 1 }
    ensures { IfOk result (λ v. map tree v.items ≡ rows_from first count) }
{
    let mut cells = Vec::with_capacity(alloc, count as usize)?;
    for k in 0..count {
        cells.push(row(alloc, first + k)?)?;
    }
    Ok(cells)
}
