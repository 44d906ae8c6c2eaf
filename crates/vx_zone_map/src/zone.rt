//! The record of a zone, and what its entries tell.

ghost use Rattle.std.specs.Prelude.{◌≡◌, IsTrue};
ghost use Rattle.vx_model.specs.TyView.{ty};
ghost use Rattle.vx_model.specs.TreeView.{val};
ghost use Rattle.vx_model.specs.ValueData.{is_row_value};
ghost use Rattle.vx_aggregate.specs.AggregateView.{aggregate as aggregate_of};
ghost use Rattle.vx_zone_record.specs.Scalars.{scalar_value};
ghost use Rattle.vx_zone_map.specs.Columns.{name_in, seen_values, value_at, entries};
ghost use Rattle.vx_zone_map.specs.Tests.{passes, takes, some_passes as some_entry_passes, bounds_above, bounds_below, is_null_count, is_filter, value_counts, value_lacks};

use crate::columns::{ZoneColumn, scalar_at};
use crate::comparison::{Relation, stands};
use vx_aggregate::AggregateFn;
use vx_bloom::BloomFilter;
use vx_model::{DType, Value};
use vx_zone_record::{Row, Scalar};

/// A zone of a zone map.
#[derive(Clone, Copy)]
pub(crate) struct Zone<'a> {
    /// The type of the column.
    pub(crate) dtype: &'a DType,
    pub(crate) columns: &'a [ZoneColumn],
    pub(crate) place: usize,
    pub(crate) rows: u64,
}

/// What an entry of a record is asked.
#[derive(Clone, Copy)]
pub(crate) enum Test<'a> {
    /// It is an upper bound that stands so to the literal.
    Upper(Relation, &'a Value),
    /// It is a lower bound that stands so to the literal.
    Lower(Relation, &'a Value),
    /// It is a filter that lacks the value.
    Lacks(&'a Value),
    /// It says that so many rows are null.
    Nulls(u64),
}

/// Whether some entry of the zone's record passes.
#[tactic(auto, using(crate::proofs::EntrySteps::entry_rules))]
pub(crate) fn some_passes(zone: Zone<'_>, test: Test<'_>) -> bool
    requires { IsTrue (takes (ty zone.dtype.now) test) }
    ensures { result ≡ some_entry_passes (ty zone.entry.dtype.now) test.entry (entries zone.entry.place zone.entry.columns.now) }
{
    for column in zone.columns {
        if entry_passes(zone, column, test) {
            return true;
        }
    }
    false
}

#[tactic(auto, using(crate::proofs::TestSteps::test_rules))]
fn entry_passes(zone: Zone<'_>, column: &ZoneColumn, test: Test<'_>) -> bool
    requires { IsTrue (takes (ty zone.dtype.now) test) }
    ensures { result ≡ passes (ty zone.entry.dtype.now) test.entry (name_in column.now) (value_at zone.entry.place (seen_values column.now)) }
{
    let value = scalar_at(column, zone.place);
    match test {
        Test::Upper(relation, literal) => {
            bounds_above(column.aggregate) && stands(relation, value, literal.scalar())
        }
        Test::Lower(relation, literal) => {
            bounds_below(column.aggregate) && stands(relation, value, literal.scalar())
        }
        Test::Lacks(literal) => is_filter(column.aggregate) && lacks(zone.dtype, value, literal),
        Test::Nulls(rows) => is_null_count(column.aggregate) && counts(rows, value),
    }
}

fn bounds_above(aggregate: AggregateFn) -> bool
    ensures { result ≡ bounds_above (aggregate_of aggregate) }
{
    matches!(aggregate, AggregateFn::Max | AggregateFn::BoundedMax(_))
}

fn bounds_below(aggregate: AggregateFn) -> bool
    ensures { result ≡ bounds_below (aggregate_of aggregate) }
{
    matches!(aggregate, AggregateFn::Min | AggregateFn::BoundedMin(_))
}

fn is_null_count(aggregate: AggregateFn) -> bool
    ensures { result ≡ is_null_count (aggregate_of aggregate) }
{
    matches!(aggregate, AggregateFn::NullCount)
}

fn is_filter(aggregate: AggregateFn) -> bool
    ensures { result ≡ is_filter (aggregate_of aggregate) }
{
    matches!(aggregate, AggregateFn::Bloom(_))
}

/// Whether the value is this number.
#[tactic(auto, using(crate::proofs::TestSteps::count_rules))]
fn counts(rows: u64, value: Scalar<'_>) -> bool
    ensures { result ≡ value_counts rows (scalar_value value.entry) }
{
    match value {
        Scalar::Int(n) => n == i128::from(rows),
        _ => false,
    }
}

/// Whether the value is a filter's bytes and the filter lacks the literal. Bytes that no filter has lack nothing.
#[tactic(auto, using(crate::proofs::TestSteps::filter_rules))]
fn lacks(dtype: &DType, value: Scalar<'_>, literal: &Value) -> bool
    requires { IsTrue (is_row_value (ty dtype.now) (val literal.now)) }
    ensures { result ≡ value_lacks (ty dtype.now) (val literal.now) (scalar_value value.entry) }
{
    match value {
        Scalar::Binary(bytes) => {
            BloomFilter.stored_contains(bytes, dtype, literal) == Some(false)
        }
        _ => false,
    }
}
