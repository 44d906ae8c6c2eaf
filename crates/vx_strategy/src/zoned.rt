use crate::child::ChildStrategy;
use crate::strategy::Strategy;
use std::alloc::{AllocError, Global};
use std::num::{NonZeroU32, NonZeroU64};
use vx_aggregate::AggregateFn;
use vx_strategy_options::{BuildError, ZoneRule, ZonedLayoutOptions};

/// Records each zone's rows, and hands them on.
#[derive(Drop)]
#[cycle(strategy)]
pub struct ZonedStrategy {
    pub(crate) child: ChildStrategy,
    pub(crate) stats: ChildStrategy,
    pub(crate) rule: ZoneRule,
}

impl ZonedStrategy {
    ghost use Rattle.std.specs.Prelude.{◌≡◌, map, option_map, IsTrue, IfOk, IfErr};
    ghost use Rattle.std.specs.Int.NonZero.{non_zero_u32_get, non_zero_u64_get};
    ghost use Rattle.vx_aggregate.specs.AggregateView.{aggregate};
    ghost use Rattle.vx_strategy_options.specs.RuleViews.{zone_rule};
    ghost use Rattle.vx_strategy_spec.specs.StrategyData.{zoned};
    ghost use Rattle.vx_strategy_options.specs.OptionViews.{are_few, zoned_options};
    ghost use Rattle.vx_strategy.specs.NodeViews.{zoned_way};
    ghost use Rattle.vx_strategy_options.specs.Causes.{AreZones, NoZonesOf};
    ghost use Rattle.vx_strategy.specs.StrategyView.{strategy_data};

    /// Refuses `ZoneLength` exactly where a zone's rows are none or pass u32, then `ZeroConcurrency` exactly at 0.
    pub fn new(
        alloc: Global,
        child: Strategy,
        stats: Strategy,
        options: ZonedLayoutOptions,
    ) -> Result<ZonedStrategy, BuildError>
        ensures ok { IfOk result (λ s. zoned_way s ≡ zoned (zoned_options options) (strategy_data child) (strategy_data stats)) }
        ensures zones { IfOk result (λ s. AreZones options) }
        ensures refused { IfErr result (NoZonesOf options) }
    {
        match ZoneRule::new(alloc, options) {
            Ok(rule) => {
                let (child, stats) = ChildStrategy::both_held(alloc, child, stats)?;
                Ok(ZonedStrategy { child, stats, rule })
            }
            Err(error) => {
                drop((child, stats));
                Err(error)
            }
        }
    }

    /// What writes the rows.
    pub fn child(&self) -> &ChildStrategy
        ensures { result.now ≡ self.now.child }
    {
        &self.child
    }

    /// The strategy of the zone table.
    pub fn stats(&self) -> &ChildStrategy
        ensures { result.now ≡ self.now.stats }
    {
        &self.stats
    }

    /// The rows of a zone; the last may have fewer.
    pub fn zone_len(&self) -> NonZeroU32
        ensures { non_zero_u32_get result ≡ (zone_rule self.now.rule).zone_len }
    {
        self.rule.zone_len
    }

    /// The aggregates that were asked for, fewer than 2^32; nothing where the defaults are recorded.
    pub fn aggregates(&self) -> Option<&[AggregateFn]>
        ensures same { option_map (λ list. map aggregate list.now) result ≡ (zone_rule self.now.rule).aggregates }
        ensures few { IsTrue (are_few (zone_rule self.now.rule).aggregates) }
    {
        match &*self.rule.aggregates {
            None => None,
            Some(aggregates) => Some(aggregates.as_slice()),
        }
    }

    /// How many chunks may wait behind the node.
    pub fn concurrency(&self) -> NonZeroU64
        ensures { non_zero_u64_get result ≡ (zone_rule self.now.rule).concurrency }
    {
        self.rule.concurrency
    }

    /// Takes no memory.
    pub fn into_strategy(self) -> Strategy
        ensures { strategy_data result ≡ zoned_way self }
    {
        Strategy::Zoned(self)
    }
}

impl Clone for ZonedStrategy {
    ghost use Rattle.std.specs.Prelude.{◌≡◌};
    ghost use Rattle.vx_strategy.specs.NodeViews.{zoned_way};

    ghost is_clone = { λ s copy. zoned_way copy ≡ zoned_way s };

    fn clone(&self) -> Result<ZonedStrategy, AllocError> {
        let rule = self.rule.clone()?;
        let (child, stats) = self.child.clone_with(&self.stats)?;
        Ok(ZonedStrategy { child, stats, rule })
    }
}
