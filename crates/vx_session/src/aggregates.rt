//! The aggregates that a zone table's metadata names.

ghost use Rattle.std.specs.Prelude.{◌≡◌, map, option_map, true};
ghost use Rattle.vx_metadata.specs.Views.{spec_of};
ghost use Rattle.vx_aggregate_spec.specs.Aggregate.{has_options};
ghost use Rattle.vx_aggregate.specs.AggregateView.{aggregate};
ghost use Rattle.vx_session.specs.Ids.{is_listed as listed};
ghost use Rattle.vx_session.specs.Kinds.{read_spec as spec_read, let_through};
ghost use Rattle.vx_session.specs.Aggregates.{IsNamed, Gives};
ghost use Rattle.vx_session.specs.Views.{context};

use crate::build_context::LayoutBuildContext;
use crate::layout_context::is_listed;
use std::alloc::{AllocError, AllocFailed, Global};
use thiserror::Error;
use vx_aggregate::{AggregateFn, SpecError};
use vx_metadata::AggregateSpec;
use vx_model::Text;

/// Why aggregates aren't known.
#[derive(Debug, Drop, Error)]
pub enum AggregatesError {
    /// The id of the first that isn't known, or whose options none of the id has.
    #[error("an aggregate is not known")]
    UnknownAggregate(Text),
    #[error("out of memory")]
    OutOfMemory,
}

impl From<AllocError> for AggregatesError {
    ghost use Rattle.std.specs.Prelude.{◌≡◌};
    ghost use Rattle.vx_session.specs.declared.aggregates.AggregatesError.TheVariants.{OutOfMemory};

    ghost from_gives = { λ _ e. e ≡ OutOfMemory };

    fn from(_error: AllocError) -> AggregatesError {
        AggregatesError::OutOfMemory
    }
}

impl<T: Drop> From<AllocFailed<T>> for AggregatesError {
    ghost use Rattle.std.specs.Prelude.{◌≡◌};
    ghost use Rattle.vx_session.specs.declared.aggregates.AggregatesError.TheVariants.{OutOfMemory};

    ghost from_gives = { λ _ e. e ≡ OutOfMemory };

    fn from(_error: AllocFailed<T>) -> AggregatesError {
        AggregatesError::OutOfMemory
    }
}

impl LayoutBuildContext {
    ghost use Rattle.std.specs.Prelude.{map};
    ghost use Rattle.vx_metadata.specs.Views.{spec_of};
    ghost use Rattle.vx_session.specs.Kinds.{read_specs as specs_read};
    ghost use Rattle.vx_session.specs.Aggregates.{Gives, all_named};
    ghost use Rattle.vx_session.specs.Views.{context};

    /// The aggregates of the specs, in order; nothing where one is unknown and let through. Specs behind it are not
    /// looked at.
    #[tactic(auto, using(crate::proofs::SpecSteps::specs_rules))]
    pub fn read_specs(
        &self,
        alloc: Global,
        specs: &[AggregateSpec],
    ) -> Result<Option<Vec<AggregateFn>>, AggregatesError>
        ensures { Gives all_named result (specs_read (context self.now) (map spec_of specs.now)) }
    {
        let mut aggregates = Vec::new(alloc);
        for spec in specs {
            match read_spec(self, spec)? {
                Some(aggregate) => aggregates.push(aggregate)?,
                None => return Ok(None),
            }
        }
        Ok(Some(aggregates))
    }
}

#[tactic(auto, unfolding(crate::specs::Kinds::read_spec))]
fn read_spec(
    within: &LayoutBuildContext,
    spec: &AggregateSpec,
) -> Result<Option<AggregateFn>, AggregatesError>
    ensures { Gives (option_map aggregate) result (spec_read (context within.now) (spec_of spec.now)) }
{
    if !is_listed(&within.aggregates, &spec.id) {
        return unknown(within, spec);
    }
    match aggregate_named(spec.id.as_str(), spec.options.as_slice()) {
        Ok(aggregate) => Ok(Some(aggregate)),
        Err(SpecError::Options) => Err(AggregatesError::UnknownAggregate(spec.id.clone()?)),
        Err(SpecError::UnknownAggregate) => unknown(within, spec),
    }
}

/// Nothing, where unknown ones are let through.
fn unknown(
    within: &LayoutBuildContext,
    spec: &AggregateSpec,
) -> Result<Option<AggregateFn>, AggregatesError>
    ensures { Gives (option_map aggregate) result (let_through (context within.now) (spec_of spec.now)) }
{
    if within.allow_unknown {
        return Ok(None);
    }
    Err(AggregatesError::UnknownAggregate(spec.id.clone()?))
}

/// The aggregate of the id with these options.
#[tactic(auto, using(crate::proofs::Named::found))]
fn aggregate_named(id: &str, options: &[u8]) -> Result<AggregateFn, SpecError>
    ensures { IsNamed id.now options.now result }
{
    match AggregateFn::from_spec(id, options) {
        Ok(aggregate) => {
            holds_options(&aggregate);
            Ok(aggregate)
        }
        Err(error) => Err(error),
    }
}

/// A bound and a number of blocks are in their range.
fn holds_options(a: &AggregateFn)
    ensures { has_options (aggregate a.now) ≡ true }
{
    match a {
        AggregateFn::BoundedMax(n) | AggregateFn::BoundedMin(n) | AggregateFn::Bloom(n) => {
            let _number = n.get();
        }
        AggregateFn::Max | AggregateFn::Min | AggregateFn::NullCount | AggregateFn::Sum => {}
    }
}
