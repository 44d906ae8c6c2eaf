//! Tests of the options of zones.

ghost use Rattle.std.specs.Prelude.{◌≡◌, ◌<◌, ◌≤◌, ◌⊎◌, ◌^◌, map, IsTrue, MatchOption};
ghost use Rattle.std.specs.Int.NonZero.{non_zero_u32_get};
ghost use Rattle.vx_model.specs.Words.{all_by};
ghost use Rattle.vx_aggregate_spec.specs.Aggregate.{has_options};
ghost use Rattle.vx_aggregate.specs.AggregateView.{aggregate};
ghost use Rattle.vx_strategy_spec.specs.Admitted.{are_admitted_aggregates};
ghost use Rattle.vx_strategy_options.specs.OptionViews.{asked, are_few};

use std::num::NonZeroU32;
use vx_aggregate::AggregateFn;

/// A number of rows from 1 to 2^32 - 1.
pub fn zone_length(rows: u64) -> Option<NonZeroU32>
    ensures { MatchOption result ((rows ≡ 0) ⊎ (2 ^ 32 ≤ rows)) (λ n. (non_zero_u32_get n ≡ rows) × (0 < rows) × (rows < 2 ^ 32)) }
{
    if rows >= 4_294_967_296 {
        return None;
    }
    NonZeroU32::new(rows as u32)
}

/// Whether the columns of their table can be counted in 32 bits; more want a table of more memory than there is. Visits
/// each aggregate, which tells that its number is from 1 to 2^32 - 1.
#[tactic(auto, using(crate::proofs::Admits::aggregate_rules))]
pub fn are_few(aggregates: &Option<Vec<AggregateFn>>) -> bool
    ensures few { result ≡ are_few (asked aggregates.now) }
    ensures admitted { result ≡ are_admitted_aggregates (asked aggregates.now) }
{
    match aggregates {
        None => true,
        Some(list) => {
            are_numbered(list);
            list.len() < 4_294_967_296
        }
    }
}

#[tactic(auto, using(crate::proofs::Admits::aggregate_rules))]
fn are_numbered(aggregates: &[AggregateFn])
    ensures { IsTrue (all_by has_options (map aggregate aggregates.now)) }
{
    for aggregate in aggregates {
        is_numbered(aggregate)
    }
}

#[tactic(auto, using(crate::proofs::Admits::aggregate_rules))]
fn is_numbered(one: &AggregateFn)
    ensures { IsTrue (has_options (aggregate one.now)) }
{
    match one {
        AggregateFn::Max | AggregateFn::Min | AggregateFn::NullCount | AggregateFn::Sum => {}
        AggregateFn::BoundedMax(n) | AggregateFn::BoundedMin(n) | AggregateFn::Bloom(n) => {
            let _number = n.get();
        }
    }
}
