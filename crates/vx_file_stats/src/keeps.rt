//! Which statistics are kept of a column.

ghost use Rattle.std.specs.Prelude.{◌≡◌, is_some};
ghost use Rattle.vx_model.specs.TyView.{ty};
ghost use Rattle.vx_aggregate_spec.specs.Aggregate.{byte_bound_state};
ghost use Rattle.vx_aggregate.specs.AggregateView.{aggregate as aggregate_of};
ghost use Rattle.vx_aggregate.specs.Stats.{stat_state};
ghost use Rattle.vx_zone_record_spec.specs.Held.{has_state};
ghost use Rattle.vx_file_stats.specs.FileStats.{asks_for, keeps, is_byte_type};

use vx_aggregate::{AggregateFn, Stat};
use vx_model::DType;

/// Whether the statistic is asked for, and its values have a type on the column's type.
pub(crate) fn keeps(asked: &[Stat], stat: Stat, column: &DType) -> bool
    ensures { result ≡ keeps asked.now stat (ty column.now) }
{
    asks_for(asked, stat) && has_values(stat, column)
}

#[tactic(auto, using(crate::proofs::KeepSteps::ask_rules))]
fn asks_for(asked: &[Stat], stat: Stat) -> bool
    ensures { result ≡ asks_for asked.now stat }
{
    for one in asked {
        if one.number() == stat.number() {
            return true;
        }
    }
    false
}

pub(crate) fn has_values(stat: Stat, column: &DType) -> bool
    ensures { result ≡ is_some (stat_state stat (ty column.now)) }
{
    match stat {
        Stat::Max => has_state(AggregateFn::Max, column),
        Stat::Min => has_state(AggregateFn::Min, column),
        Stat::Sum => has_state(AggregateFn::Sum, column),
        Stat::NullCount => has_state(AggregateFn::NullCount, column),
        Stat::UncompressedSizeInBytes => true,
    }
}

#[tactic(auto, using(crate::proofs::KeepSteps::state_rules))]
fn has_state(aggregate: AggregateFn, column: &DType) -> bool
    ensures { result ≡ has_state (ty column.now) (aggregate_of aggregate) }
{
    match aggregate.state_dtype(column) {
        Ok(state) => state.is_some(),
        Err(_) => false,
    }
}

/// Whether the column's values are texts or bytes, seen through extensions.
pub(crate) fn is_byte_type(column: &DType) -> bool
    ensures { result ≡ is_byte_type (ty column.now) }
{
    match column {
        DType::Utf8(_) | DType::Binary(_) => true,
        DType::Bool(_) | DType::Primitive(..) | DType::List(..) | DType::Struct(..) => false,
        DType::Extension(ext) => is_byte_type(&ext.storage),
    }
}
