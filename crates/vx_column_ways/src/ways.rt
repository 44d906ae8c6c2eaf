//! A struct's columns: the strategy, the type and the mark of each.

ghost use Rattle.std.specs.Prelude.{◌≡◌, ◌∷◌, if◌then◌else◌, false, List, map, IfOk};
ghost use Rattle.vx_model.specs.Ty.{boolean, tys_of};
ghost use Rattle.vx_model.specs.TyView.{ty, field_ty};
ghost use Rattle.vx_strategy_spec.specs.Dispatch.{override, given_or};
ghost use Rattle.vx_strategy.specs.FieldWays.{field_ways};
ghost use Rattle.vx_strategy.specs.NodeViews.{struct_way};
ghost use Rattle.vx_column_plan.specs.Columns.{Column, columns_by};
ghost use Rattle.vx_column_ways.specs.Ways.{column_of, columns_in, before};

use std::alloc::{AllocError, Global};
use vx_model::{DType, Nullability, StructField};
use vx_strategy::{ChildStrategy, StructStrategy};

/// What a column is written by: its strategy, its type, and whether a nullable struct stands above it.
#[derive(Drop)]
pub struct ColumnWay {
    pub strategy: ChildStrategy,
    pub dtype: DType,
    pub marked: bool,
}

/// The columns that the strategy writes of a struct type, in order: validity where the type is nullable, then the fields.
/// There are none of other types.
#[tactic(auto, using(vx_model::proofs::Views::view_rules))]
pub fn column_ways(
    alloc: Global,
    strategy: &StructStrategy,
    dtype: &DType,
    marked: bool,
) -> Result<Vec<ColumnWay>, AllocError>
    ensures { IfOk result (λ v. map column_of v.items ≡ columns_in (struct_way strategy.now) (ty dtype.now) marked) }
{
    match dtype {
        DType::Struct(fields, _) => {
            of_fields(alloc, strategy, &fields.fields, dtype.is_nullable(), marked)
        }
        DType::Bool(_) | DType::Primitive(..) | DType::Utf8(_) | DType::Binary(_) => {
            Ok(Vec::new(alloc))
        }
        DType::List(..) | DType::Extension(_) => Ok(Vec::new(alloc)),
    }
}

#[tactic(auto, using(crate::proofs::Columns::column_rules))]
fn of_fields(
    alloc: Global,
    strategy: &StructStrategy,
    fields: &[StructField],
    nullable: bool,
    marked: bool,
) -> Result<Vec<ColumnWay>, AllocError>
    ensures { IfOk result (λ v. map column_of v.items
        ≡ columns_by strategy.now.validity.item strategy.now.default.item (field_ways strategy.now.writers.items) marked (tys_of (map field_ty fields.now)) nullable) }
{
    let mut ways = first_ways(alloc, strategy, nullable, marked)?;
    for field in fields {
        ways.push(field_way(strategy, field, marked || nullable)?)?;
    }
    Ok(ways)
}

/// The validity's, where there is one.
fn first_ways(
    alloc: Global,
    strategy: &StructStrategy,
    nullable: bool,
    marked: bool,
) -> Result<Vec<ColumnWay>, AllocError>
    ensures { IfOk result (λ v. (cs : List Column) → before v.items cs
        ≡ (if nullable then record { way = strategy.now.validity.item; type = boolean false; mark = marked } ∷ cs else cs)) }
{
    let mut ways = Vec::new(alloc);
    if !nullable {
        return Ok(ways);
    }
    let strategy = strategy.validity().clone()?;
    ways.push(ColumnWay {
        strategy,
        dtype: DType::Bool(Nullability::NonNullable),
        marked,
    })?;
    Ok(ways)
}

fn field_way(
    strategy: &StructStrategy,
    field: &StructField,
    marked: bool,
) -> Result<ColumnWay, AllocError>
    ensures { IfOk result (λ w. column_of w
        ≡ record { way = given_or (override field.now.name (field_ways strategy.now.writers.items)) strategy.now.default.item; type = ty field.now.dtype; mark = marked }) }
{
    let dtype = field.dtype.clone()?;
    Ok(ColumnWay {
        strategy: strategy.writer(&field.name).clone()?,
        dtype,
        marked,
    })
}
