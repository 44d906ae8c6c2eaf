//! Aggregates as ids and option bytes.

ghost use Rattle.std.specs.Prelude.{◌≡◌, ◌≢◌, ℕ, ◌<◌, ◌^◌, [], MatchResult, MatchOption};
ghost use Rattle.std.specs.Int.{w32, to_le_bytes};
ghost use Rattle.std.specs.Int.NonZero.{non_zero_u32_get};
ghost use Rattle.vx_aggregate_spec.specs.Aggregate.{option_bytes, bloom};
ghost use Rattle.vx_aggregate.specs.declared.spec.SpecError.TheVariants.{Options};

use crate::aggregate::AggregateFn;
use crate::ids;
use std::alloc::{AllocError, Global};
use std::num::NonZeroU32;
use thiserror::Error;
use vx_bloom_options::{BloomOptions, HashFn};

/// Why an id and option bytes name no aggregate. The id is looked at first.
#[derive(Clone, Copy, Debug, PartialEq, Eq, Error)]
pub enum SpecError {
    #[error("no aggregate has this id")]
    UnknownAggregate,
    #[error("no aggregate of this id has these options")]
    Options,
}

impl AggregateFn {
    ghost use Rattle.std.specs.Prelude.{◌≡◌, IfOk};
    ghost use Rattle.vx_aggregate_spec.specs.Aggregate.{option_bytes};
    ghost use Rattle.vx_aggregate.specs.AggregateView.{aggregate};
    ghost use Rattle.vx_aggregate.specs.Specs.{NamesAggregate};

    /// The options as bytes: a bound as four bytes, a filter's options as eight, low byte first.
    #[tactic(auto, unfolding(vx_bloom_spec::specs::Bytes::number_bytes))]
    pub fn options(&self, alloc: Global) -> Result<Vec<u8>, AllocError>
        ensures { IfOk result (λ bytes. bytes.items ≡ option_bytes (aggregate self.now)) }
    {
        match self {
            AggregateFn::BoundedMax(n) | AggregateFn::BoundedMin(n) => {
                Vec::from_slice(alloc, &n.get().to_le_bytes())
            }
            AggregateFn::Bloom(n) => BloomOptions::new(*n, HashFn::XxHash3_64).serialize(alloc),
            AggregateFn::Max | AggregateFn::Min | AggregateFn::NullCount | AggregateFn::Sum => Ok(
                Vec::new(alloc),
            ),
        }
    }

    /// The aggregate of an id with these options.
    pub fn from_spec(id: &str, options: &[u8]) -> Result<AggregateFn, SpecError>
        ensures { NamesAggregate id.now options.now result }
    {
        if id == ids::MAX {
            plain(AggregateFn::Max, options)
        } else if id == ids::MIN {
            plain(AggregateFn::Min, options)
        } else if id == ids::NULL_COUNT {
            plain(AggregateFn::NullCount, options)
        } else if id == ids::SUM {
            plain(AggregateFn::Sum, options)
        } else if id == ids::BOUNDED_MAX {
            match bound(options) {
                Some(n) => Ok(AggregateFn::BoundedMax(n)),
                None => Err(SpecError::Options),
            }
        } else if id == ids::BOUNDED_MIN {
            match bound(options) {
                Some(n) => Ok(AggregateFn::BoundedMin(n)),
                None => Err(SpecError::Options),
            }
        } else if id == ids::BLOOM {
            match blocks(options) {
                Some(n) => Ok(AggregateFn::Bloom(n)),
                None => Err(SpecError::Options),
            }
        } else {
            Err(SpecError::UnknownAggregate)
        }
    }
}

/// An aggregate without options.
fn plain(aggregate: AggregateFn, options: &[u8]) -> Result<AggregateFn, SpecError>
    ensures { MatchResult result (λ a. (a ≡ aggregate) × (options.now ≡ [])) (λ e. (e ≡ Options) × (options.now ≢ [])) }
{
    if options.is_empty() {
        Ok(aggregate)
    } else {
        Err(SpecError::Options)
    }
}

/// A bound: four bytes, not all 0.
fn bound(options: &[u8]) -> Option<NonZeroU32>
    ensures { MatchOption result ((n : ℕ) → 0 < n → n < 2 ^ 32 → to_le_bytes w32 n ≢ options.now)
        (λ n. to_le_bytes w32 (non_zero_u32_get n) ≡ options.now) }
{
    let [a, b, c, d] = options else {
        return None;
    };
    NonZeroU32::new(u32::from_le_bytes([*a, *b, *c, *d]))
}

/// A number of blocks: the eight bytes of a filter's options.
#[tactic(auto, using(crate::proofs::Named::blocks_rules))]
fn blocks(options: &[u8]) -> Option<NonZeroU32>
    ensures { MatchOption result ((n : ℕ) → 0 < n → n < 2 ^ 32 → option_bytes (bloom n) ≢ options.now)
        (λ n. option_bytes (bloom (non_zero_u32_get n)) ≡ options.now) }
{
    match BloomOptions::deserialize(options) {
        Ok(options) => Some(options.blocks_count()),
        Err(_) => None,
    }
}
