//! What a table stands for at a type.

ghost use Rattle.std.specs.Prelude.{◌≡◌, if◌then◌else◌, map, IfOk};
ghost use Rattle.vx_model.specs.Ty.{tys_of};
ghost use Rattle.vx_model.specs.TyView.{ty, field_ty};
ghost use Rattle.vx_strategy_spec.specs.StrategyData.{structured, listed, tabled, no_ways};
ghost use Rattle.vx_strategy_spec.specs.Dispatch.{dispatch, field_writer, field_writers, wrapped};
ghost use Rattle.vx_strategy.specs.FieldWays.{field_ways};
ghost use Rattle.vx_strategy.specs.NodeViews.{list_way, table_way};
ghost use Rattle.vx_strategy.specs.StrategyView.{strategy_data};
ghost use Rattle.vx_strategy.specs.WrapViews.{wraps};

use crate::overrides::{below, own};
use std::alloc::{AllocError, Global};
use std::sync::Arc;
use vx_model::{DType, FieldName, StructField};
use vx_strategy::{
    ChildStrategy, FieldWriter, ListLayoutStrategy, Overrides, Strategy, StructStrategy,
    TableStrategy, Wrapper,
};

/// The strategy that writes at this type what the table writes. It shares the table's strategies; a struct's takes time
/// for each field and override.
#[tactic(auto, using(vx_model::proofs::Views::view_rules))]
pub fn dispatch(table: &TableStrategy, dtype: &DType) -> Result<Strategy, AllocError>
    ensures { IfOk result (λ s. strategy_data s ≡ dispatch (table_way table.now) (ty dtype.now)) }
{
    match dtype {
        DType::Struct(fields, _) => at_struct(table, &fields.fields),
        DType::List(..) => at_list(table),
        DType::Bool(_) | DType::Primitive(..) | DType::Utf8(_) | DType::Binary(_) => at_leaf(table),
        DType::Extension(_) => at_leaf(table),
    }
}

fn at_leaf(table: &TableStrategy) -> Result<Strategy, AllocError>
    ensures { IfOk result (λ s. strategy_data s ≡ table.now.leaf.item) }
{
    table.leaf.strategy().clone()
}

fn at_struct(table: &TableStrategy, fields: &[StructField]) -> Result<Strategy, AllocError>
    ensures { IfOk result (λ s. strategy_data s ≡ structured table.now.validity.item table.now.leaf.item
        (field_writers table.now.validity.item table.now.leaf.item table.now.overrides.item table.now.list_layout (wraps table.now.wrappers.value.items) (tys_of (map field_ty fields.now)))) }
{
    let strategy = StructStrategy {
        validity: table.validity.clone()?,
        default: table.leaf.clone()?,
        writers: writers_of(table, fields)?,
    };
    Ok(strategy.into_strategy())
}

#[tactic(auto, using(crate::proofs::Dispatched::field_rules))]
fn writers_of(table: &TableStrategy, fields: &[StructField]) -> Result<Vec<FieldWriter>, AllocError>
    ensures { IfOk result (λ ws. field_ways ws.items
        ≡ field_writers table.now.validity.item table.now.leaf.item table.now.overrides.item table.now.list_layout (wraps table.now.wrappers.value.items) (tys_of (map field_ty fields.now))) }
{
    let mut writers = Vec::with_capacity(*table.wrappers.allocator(), fields.len())?;
    for field in fields {
        let name = field.name.clone()?;
        let writer = field_writer(table, &name)?;
        writers.push(FieldWriter { name, writer })?;
    }
    Ok(writers)
}

/// The override of the field itself, or else the same table with the overrides below the field.
fn field_writer(table: &TableStrategy, name: &FieldName) -> Result<ChildStrategy, AllocError>
    ensures { IfOk result (λ c. c.item ≡ field_writer table.now.validity.item table.now.leaf.item table.now.overrides.item table.now.list_layout (wraps table.now.wrappers.value.items) name.now) }
{
    match own(&table.overrides, name) {
        Some(writer) => writer.clone(),
        None => descended(table, below(&table.overrides, name)?),
    }
}

/// The same table with other overrides.
fn descended(table: &TableStrategy, overrides: Overrides) -> Result<ChildStrategy, AllocError>
    ensures { IfOk result (λ c. c.item ≡ tabled table.now.validity.item table.now.leaf.item overrides.item table.now.list_layout (wraps table.now.wrappers.value.items)) }
{
    let table = TableStrategy {
        validity: table.validity.clone()?,
        leaf: table.leaf.clone()?,
        overrides,
        list_layout: table.list_layout,
        wrappers: Arc::try_clone(&table.wrappers)?,
    };
    let alloc = *table.wrappers.allocator();
    Ok(ChildStrategy::new(alloc, table.into_strategy())?)
}

/// A list in the wrappers where lists are laid out, else the leaf.
fn at_list(table: &TableStrategy) -> Result<Strategy, AllocError>
    ensures { IfOk result (λ s. strategy_data s ≡ (if table.now.list_layout then wrapped (wraps table.now.wrappers.value.items)
        (listed (tabled table.now.validity.item table.now.leaf.item no_ways table.now.list_layout (wraps table.now.wrappers.value.items)) table.now.leaf.item table.now.validity.item table.now.leaf.item)
        else table.now.leaf.item)) }
{
    if !table.list_layout {
        return at_leaf(table);
    }
    let list = list_of(table)?;
    let alloc = *table.wrappers.allocator();
    in_wrappers(alloc, &table.wrappers, list.into_strategy())
}

/// The elements go to the table without overrides.
fn list_of(table: &TableStrategy) -> Result<ListLayoutStrategy, AllocError>
    ensures { IfOk result (λ s. list_way s ≡ listed (tabled table.now.validity.item table.now.leaf.item no_ways table.now.list_layout (wraps table.now.wrappers.value.items)) table.now.leaf.item table.now.validity.item table.now.leaf.item) }
{
    let alloc = *table.wrappers.allocator();
    Ok(ListLayoutStrategy {
        elements: descended(table, Overrides::none(alloc))?,
        offsets: table.leaf.clone()?,
        validity: table.validity.clone()?,
        fallback: table.leaf.clone()?,
    })
}

/// The first wrapper stands outermost.
#[tactic(auto, using(crate::proofs::Dispatched::wrapper_rules))]
fn in_wrappers(alloc: Global, wrappers: &[Wrapper], inner: Strategy) -> Result<Strategy, AllocError>
    ensures { IfOk result (λ s. strategy_data s ≡ wrapped (wraps wrappers.now) (strategy_data inner)) }
{
    let mut strategy = inner;
    let mut left = wrappers.len();
    while left > 0 {
        left -= 1;
        strategy = wrappers[left].around(alloc, strategy)?;
    }
    Ok(strategy)
}
