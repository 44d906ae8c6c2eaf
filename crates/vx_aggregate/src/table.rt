//! The types of tables of statistics, and what is recorded by default.

ghost use Rattle.std.specs.Prelude.{◌≡◌, false, [], ◌∷◌, ◌++◌, map, IfOk, OnOk, option_map};
ghost use Rattle.vx_model.specs.Ty.{boolean};
ghost use Rattle.vx_model.specs.TyView.{ty, field_ty};
ghost use Rattle.vx_aggregate_spec.specs.Aggregate.{default_aggregates, state_type, with_state};
ghost use Rattle.vx_aggregate.specs.AggregateView.{aggregate as aggregate_of};
ghost use Rattle.vx_aggregate.specs.Stats.{stat_state};
ghost use Rattle.vx_aggregate.specs.Tables.{column_field, stats_table, cut_flag, stat_fields, legacy_table};

use crate::aggregate::AggregateFn;
use crate::stat::Stat;
use crate::state::{bound_state, sum_state};
use std::alloc::{AllocError, Global};
use std::num::NonZeroU32;
use vx_model::{DType, Nullability, PType, StructField, StructFields, Text};

/// The field that says whether a legacy table's maximum was cut.
pub const MAX_IS_TRUNCATED: &str = "max_is_truncated";

/// The field that says whether a legacy table's minimum was cut.
pub const MIN_IS_TRUNCATED: &str = "min_is_truncated";

/// The type of a zone table: for each aggregate that has a state on the column's type, a field of its display text.
#[tactic(auto, using(crate::proofs::Fields::table_rules))]
pub fn aggregate_stats_table_dtype(
    alloc: Global,
    column: &DType,
    aggregates: &[AggregateFn],
) -> Result<DType, AllocError>
    ensures { IfOk result (λ t. ty t ≡ stats_table (ty column.now) (map aggregate_of aggregates.now)) }
{
    let mut fields = Vec::with_capacity(alloc, aggregates.len())?;
    for aggregate in aggregates {
        push_aggregate(alloc, &mut fields, column, aggregate)?;
    }
    Ok(DType::Struct(StructFields { fields }, Nullability::NonNullable))
}

#[tactic(auto, using(crate::proofs::Fields::table_rules))]
fn push_aggregate(
    alloc: Global,
    fields: &mut Vec<StructField>,
    column: &DType,
    aggregate: &AggregateFn,
) -> Result<(), AllocError>
    ensures { OnOk result (map field_ty fields.new.items ≡ map field_ty fields.old.items ++
        map column_field (with_state (aggregate_of aggregate.now) (state_type (aggregate_of aggregate.now) (ty column.now)))) }
{
    if let Some(dtype) = aggregate.state_dtype(column)? {
        let name = Text::from(format!(in alloc; "{aggregate}")?);
        fields.push(StructField { name, dtype })?;
    }
    Ok(())
}

/// The type of a legacy table: for each statistic that has a state on the column's type, a field of its name, after
/// the maximum and the minimum a flag that says whether it was cut.
#[tactic(auto, using(crate::proofs::Fields::table_rules))]
pub fn legacy_stats_table_dtype(
    alloc: Global,
    column: &DType,
    stats: &[Stat],
) -> Result<DType, AllocError>
    ensures { IfOk result (λ t. ty t ≡ legacy_table (ty column.now) stats.now) }
{
    let mut fields = Vec::with_capacity(alloc, stats.len())?;
    for stat in stats {
        push_stat(alloc, &mut fields, column, *stat)?;
    }
    Ok(DType::Struct(StructFields { fields }, Nullability::NonNullable))
}

#[tactic(auto, using(crate::proofs::Fields::table_rules))]
fn push_stat(
    alloc: Global,
    fields: &mut Vec<StructField>,
    column: &DType,
    stat: Stat,
) -> Result<(), AllocError>
    ensures { OnOk result (map field_ty fields.new.items ≡ map field_ty fields.old.items ++ stat_fields (ty column.now) stat) }
{
    if let Some(dtype) = stat_dtype(stat, column) {
        let name = Text::from_str(alloc, stat.name())?;
        fields.push(StructField { name, dtype })?;
        push_flag(alloc, fields, stat)?;
    }
    Ok(())
}

fn push_flag(alloc: Global, fields: &mut Vec<StructField>, stat: Stat) -> Result<(), AllocError>
    ensures { OnOk result (map field_ty fields.new.items ≡ map field_ty fields.old.items ++ cut_flag stat) }
{
    match stat {
        Stat::Max => push_bool(alloc, fields, MAX_IS_TRUNCATED),
        Stat::Min => push_bool(alloc, fields, MIN_IS_TRUNCATED),
        Stat::Sum | Stat::NullCount | Stat::UncompressedSizeInBytes => Ok(()),
    }
}

#[tactic(auto, using(crate::proofs::Fields::table_rules))]
fn push_bool(alloc: Global, fields: &mut Vec<StructField>, name: &str) -> Result<(), AllocError>
    ensures { OnOk result (map field_ty fields.new.items ≡ map field_ty fields.old.items ++ ((name.now, boolean false) ∷ [])) }
{
    let name = Text::from_str(alloc, name)?;
    let dtype = DType::Bool(Nullability::NonNullable);
    fields.push(StructField { name, dtype })?;
    Ok(())
}

fn stat_dtype(stat: Stat, column: &DType) -> Option<DType>
    ensures { option_map ty result ≡ stat_state stat (ty column.now) }
{
    match stat {
        Stat::Max | Stat::Min => bound_state(column),
        Stat::Sum => sum_state(column),
        Stat::NullCount | Stat::UncompressedSizeInBytes => Some(DType::Primitive(
            PType::U64,
            Nullability::Nullable,
        )),
    }
}

/// What is recorded where nothing else is asked for. The type itself is looked at, not the storage of an extension.
pub fn default_zoned_aggregate_fns(
    alloc: Global,
    dtype: &DType,
) -> Result<Vec<AggregateFn>, AllocError>
    ensures { IfOk result (λ v. map aggregate_of v.items ≡ default_aggregates (ty dtype.now)) }
{
    let bytes = NonZeroU32::new(64).unwrap();
    let kept = match dtype {
        DType::Utf8(_) | DType::Binary(_) => [
            AggregateFn::BoundedMax(bytes),
            AggregateFn::BoundedMin(bytes),
            AggregateFn::NullCount,
        ],
        DType::Bool(_)
        | DType::Primitive(..)
        | DType::List(..)
        | DType::Struct(..)
        | DType::Extension(_) => [AggregateFn::Max, AggregateFn::Min, AggregateFn::NullCount],
    };
    Vec::from_slice(alloc, &kept)
}
