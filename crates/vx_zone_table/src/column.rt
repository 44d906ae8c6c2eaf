//! A column of the table.

ghost use Rattle.std.specs.Prelude.{◌≡◌};
ghost use Rattle.vx_aggregate_spec.specs.Aggregate.{display};
ghost use Rattle.vx_aggregate.specs.AggregateView.{aggregate as aggregate_of};

use vx_aggregate::AggregateFn;
use vx_model::{DType, Text, Value};

/// An aggregate's values, one a zone.
#[derive(Drop)]
pub(crate) struct TableColumn {
    pub(crate) aggregate: AggregateFn,
    pub(crate) name: Text,
    pub(crate) state: DType,
    pub(crate) values: Vec<Value>,
    ghost named: { name ≡ display (aggregate_of aggregate) },
}
