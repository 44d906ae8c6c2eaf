//! What wraps a list layout in a table.

ghost use Rattle.std.specs.Prelude.{◌≡◌, IfOk, IfErr};
ghost use Rattle.vx_strategy_spec.specs.StrategyData.{zoned};
ghost use Rattle.vx_strategy_options.specs.RuleViews.{zone_rule};
ghost use Rattle.vx_strategy.specs.StrategyView.{strategy_data};
ghost use Rattle.vx_strategy.specs.WrapViews.{wraps};
ghost use Rattle.vx_strategy.specs.Wrapped.{wraps_asked};
ghost use Rattle.vx_strategy.specs.WrapCauses.{AllWrap, FirstRefused};

use crate::child::ChildStrategy;
use crate::grouping::{BufferedStrategy, RepartitionStrategy};
use crate::strategy::Strategy;
use crate::zoned::ZonedStrategy;
use std::alloc::{AllocError, Global};
use std::sync::Arc;
use vx_strategy_options::{
    BlockRule, BuildError, RepartitionWriterOptions, ZoneRule, ZonedLayoutOptions,
};

/// A strategy around the list layout of a table, without its child.
#[derive(Drop)]
pub enum ListWrapper {
    Repartition(RepartitionWriterOptions),
    /// A held size in bytes.
    Buffered(u64),
    /// The strategy of the zone table, and the options.
    Zoned(Strategy, ZonedLayoutOptions),
}

/// A wrapper whose options were tested.
#[derive(Drop)]
#[cycle(strategy)]
pub enum Wrapper {
    Repartition(BlockRule),
    Buffered(u64),
    Zoned(ChildStrategy, ZoneRule),
}

impl ListWrapper {
    ghost use Rattle.std.specs.Prelude.{◌≡◌, IfOk, IfErr};
    ghost use Rattle.vx_strategy_spec.specs.StrategyData.{no_wraps};
    ghost use Rattle.vx_strategy.specs.WrapViews.{wrap};
    ghost use Rattle.vx_strategy.specs.Wrapped.{wrap_asked};
    ghost use Rattle.vx_strategy.specs.WrapCauses.{WrapRefused, Wraps};

    fn tested(self, alloc: Global) -> Result<Wrapper, BuildError>
        ensures ok { IfOk result (λ w. wrap w no_wraps ≡ wrap_asked self no_wraps) }
        ensures wraps { IfOk result (λ w. Wraps self) }
        ensures refused { IfErr result (WrapRefused self) }
    {
        match self {
            ListWrapper::Repartition(options) => Ok(Wrapper::Repartition(BlockRule::new(options)?)),
            ListWrapper::Buffered(size) => Ok(Wrapper::Buffered(size)),
            ListWrapper::Zoned(stats, options) => {
                match ZoneRule::new(alloc, options) {
                    Ok(rule) => Ok(Wrapper::Zoned(ChildStrategy::held(alloc, stats)?, rule)),
                    Err(error) => {
                        drop(stats);
                        Err(error)
                    }
                }
            }
        }
    }
}

impl Wrapper {
    ghost use Rattle.std.specs.Prelude.{◌≡◌, IfOk};
    ghost use Rattle.vx_strategy_spec.specs.StrategyData.{no_wraps};
    ghost use Rattle.vx_strategy_spec.specs.Dispatch.{wrapped};
    ghost use Rattle.vx_strategy.specs.WrapViews.{wrap};
    ghost use Rattle.vx_strategy.specs.StrategyView.{strategy_data};

    /// The strategy in this wrapper.
    pub fn around(&self, alloc: Global, inner: Strategy) -> Result<Strategy, AllocError>
        ensures { IfOk result (λ s. strategy_data s ≡ wrapped (wrap self.now no_wraps) (strategy_data inner)) }
    {
        let child = ChildStrategy::held(alloc, inner)?;
        match self {
            Wrapper::Repartition(rule) => {
                let rule = *rule;
                Ok(RepartitionStrategy { child, rule }.into_strategy())
            }
            Wrapper::Buffered(size) => {
                let buffer_size = *size;
                Ok(BufferedStrategy { child, buffer_size }.into_strategy())
            }
            Wrapper::Zoned(stats, rule) => zoned(child, stats, rule),
        }
    }
}

/// The strategy that records these zones of its child's rows.
fn zoned(
    child: ChildStrategy,
    stats: &ChildStrategy,
    rule: &ZoneRule,
) -> Result<Strategy, AllocError>
    ensures { IfOk result (λ s. strategy_data s ≡ zoned (zone_rule rule.now) child.item stats.now.item) }
{
    let Ok(rule) = rule.clone() else {
        drop(child);
        return Err(AllocError);
    };
    let Ok(stats) = stats.clone() else {
        drop(child);
        return Err(AllocError);
    };
    Ok(ZonedStrategy { child, stats, rule }.into_strategy())
}

/// Each wrapper tested, in order; the first that is refused decides.
#[tactic(auto, using(crate::proofs::Wrappers::wrap_rules))]
pub(crate) fn tested(alloc: Global, list: Vec<ListWrapper>) -> Result<Vec<Wrapper>, BuildError>
    ensures ok { IfOk result (λ v. wraps v.items ≡ wraps_asked list.items) }
    ensures wraps { IfOk result (λ v. AllWrap list.items) }
    ensures refused { IfErr result (FirstRefused list.items) }
{
    let mut wrappers = Vec::with_capacity(alloc, list.len())?;
    for wrapper in list {
        wrappers.push(wrapper.tested(alloc)?)?;
    }
    Ok(wrappers)
}

/// Wrappers that clones share.
pub(crate) fn shared(alloc: Global, wrappers: Vec<Wrapper>) -> Result<Arc<Vec<Wrapper>>, AllocError>
    ensures { IfOk result (λ a. a.value ≡ wrappers) }
{
    Ok(Arc::new(alloc, wrappers)?)
}
