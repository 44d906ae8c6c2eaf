//! Options of zones that were tested.

ghost use Rattle.std.specs.Prelude.{◌<◌, ◌^◌, IsTrue};
ghost use Rattle.std.specs.Int.NonZero.{non_zero_u32_get};
ghost use Rattle.vx_strategy_spec.specs.Admitted.{are_admitted_aggregates};
ghost use Rattle.vx_strategy_options.specs.OptionViews.{asked, are_few};

use crate::error::BuildError;
use crate::options::ZonedLayoutOptions;
use crate::zones::{are_few, zone_length};
use std::alloc::{AllocError, Global};
use std::num::{NonZeroU32, NonZeroU64};
use std::sync::Arc;
use vx_aggregate::AggregateFn;

/// Options of which the zone's rows are from 1 to 2^32 - 1, the concurrency isn't 0 and the aggregates are fewer than
/// 2^32. Clones share the aggregates.
#[derive(Debug, Drop)]
pub struct ZoneRule {
    pub zone_len: NonZeroU32,
    pub aggregates: Arc<Option<Vec<AggregateFn>>>,
    pub concurrency: NonZeroU64,
    ghost short: { non_zero_u32_get zone_len < 2 ^ 32 },
    ghost admitted: { IsTrue (are_admitted_aggregates (asked aggregates.value)) },
    ghost few: { IsTrue (are_few (asked aggregates.value)) },
}

impl ZoneRule {
    ghost use Rattle.std.specs.Prelude.{◌≡◌, IfOk, IfErr};
    ghost use Rattle.vx_strategy_options.specs.OptionViews.{zoned_options};
    ghost use Rattle.vx_strategy_options.specs.RuleViews.{zone_rule};
    ghost use Rattle.vx_strategy_options.specs.Causes.{AreZones, NoZonesOf};

    /// Refuses `ZoneLength` exactly where a zone's rows are none or pass u32, then `ZeroConcurrency` exactly at 0.
    pub fn new(alloc: Global, options: ZonedLayoutOptions) -> Result<ZoneRule, BuildError>
        ensures ok { IfOk result (λ r. zone_rule r ≡ zoned_options options) }
        ensures zones { IfOk result (λ r. AreZones options) }
        ensures refused { IfErr result (NoZonesOf options) }
    {
        let Some(zone_len) = zone_length(options.block_size) else {
            return Err(BuildError::ZoneLength(options.block_size));
        };
        let Some(concurrency) = NonZeroU64::new(options.concurrency) else {
            return Err(BuildError::ZeroConcurrency);
        };
        if !are_few(&options.aggregate_fns) {
            return Err(BuildError::OutOfMemory);
        }
        Ok(ZoneRule {
            zone_len,
            aggregates: Arc::new(alloc, options.aggregate_fns)?,
            concurrency,
        })
    }
}

impl Clone for ZoneRule {
    ghost use Rattle.std.specs.Prelude.{◌≡◌};
    ghost use Rattle.vx_strategy_options.specs.RuleViews.{zone_rule};

    ghost is_clone = { λ r copy. zone_rule copy ≡ zone_rule r };

    fn clone(&self) -> Result<ZoneRule, AllocError> {
        Ok(ZoneRule {
            zone_len: self.zone_len,
            aggregates: Arc::try_clone(&self.aggregates)?,
            concurrency: self.concurrency,
        })
    }
}
