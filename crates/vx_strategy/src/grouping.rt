//! Strategies that regroup a stream: into blocks, up to a number of bytes, into one chunk.

use crate::child::ChildStrategy;
use crate::strategy::Strategy;
use std::alloc::{AllocError, Global};
use vx_strategy_options::{BlockRule, BuildError, RepartitionWriterOptions};

/// Cuts the rows into blocks of a multiple of the block length.
#[derive(Drop)]
#[cycle(strategy)]
pub struct RepartitionStrategy {
    pub(crate) child: ChildStrategy,
    pub(crate) rule: BlockRule,
}

impl RepartitionStrategy {
    ghost use Rattle.std.specs.Prelude.{◌≡◌, ◌<◌, IfOk, IfErr};
    ghost use Rattle.vx_strategy_spec.specs.StrategyData.{grouped, by_blocks};
    ghost use Rattle.vx_strategy_options.specs.OptionViews.{block_options};
    ghost use Rattle.vx_strategy.specs.NodeViews.{repartition_way};
    ghost use Rattle.vx_strategy_options.specs.RuleViews.{block_rule};
    ghost use Rattle.vx_strategy_options.specs.Causes.{ZeroBlockLenOf};
    ghost use Rattle.vx_strategy.specs.StrategyView.{strategy_data};

    /// Refuses `ZeroBlockLen` exactly where the block length is 0.
    pub fn new(
        alloc: Global,
        child: Strategy,
        options: RepartitionWriterOptions,
    ) -> Result<RepartitionStrategy, BuildError>
        ensures ok { IfOk result (λ s. repartition_way s ≡ grouped (by_blocks (block_options options)) (strategy_data child)) }
        ensures some { IfOk result (λ s. 0 < options.block_len_multiple) }
        ensures refused { IfErr result (ZeroBlockLenOf options) }
    {
        match BlockRule::new(options) {
            Ok(rule) => Ok(RepartitionStrategy {
                child: ChildStrategy::held(alloc, child)?,
                rule,
            }),
            Err(error) => {
                drop(child);
                Err(error)
            }
        }
    }

    /// What writes the rows, grouped anew.
    pub fn child(&self) -> &ChildStrategy
        ensures { result.now ≡ self.now.child }
    {
        &self.child
    }

    /// Of a block length that isn't 0.
    pub fn options(&self) -> RepartitionWriterOptions
        ensures same { block_options result ≡ block_rule self.now.rule }
        ensures some { 0 < result.block_len_multiple }
    {
        RepartitionWriterOptions {
            block_size_minimum: self.rule.minimum,
            block_len_multiple: self.rule.multiple.get(),
            block_size_target: self.rule.target,
            canonicalize: self.rule.canonicalize,
        }
    }

    /// Takes no memory.
    pub fn into_strategy(self) -> Strategy
        ensures { strategy_data result ≡ repartition_way self }
    {
        Strategy::Repartition(self)
    }
}

impl Clone for RepartitionStrategy {
    ghost use Rattle.std.specs.Prelude.{◌≡◌};
    ghost use Rattle.vx_strategy.specs.NodeViews.{repartition_way};

    ghost is_clone = { λ s copy. repartition_way copy ≡ repartition_way s };

    fn clone(&self) -> Result<RepartitionStrategy, AllocError> {
        Ok(RepartitionStrategy {
            child: self.child.clone()?,
            rule: self.rule,
        })
    }
}

/// Holds chunks back up to a held size in bytes.
#[derive(Drop)]
#[cycle(strategy)]
pub struct BufferedStrategy {
    pub(crate) child: ChildStrategy,
    pub(crate) buffer_size: u64,
}

impl BufferedStrategy {
    ghost use Rattle.std.specs.Prelude.{◌≡◌, IfOk, IfErr};
    ghost use Rattle.vx_strategy_spec.specs.StrategyData.{grouped, by_bytes};
    ghost use Rattle.vx_strategy.specs.NodeViews.{buffered_way};
    ghost use Rattle.vx_strategy.specs.StrategyView.{strategy_data};

    /// Chunks are held back until so many bytes are.
    pub fn new(
        alloc: Global,
        child: Strategy,
        buffer_size: u64,
    ) -> Result<BufferedStrategy, BuildError>
        ensures ok { IfOk result (λ s. buffered_way s ≡ grouped (by_bytes buffer_size) (strategy_data child)) }
        ensures memory { IfErr result (λ e. e ≡ BuildError.OutOfMemory) }
    {
        Ok(BufferedStrategy {
            child: ChildStrategy::held(alloc, child)?,
            buffer_size,
        })
    }

    /// What writes the rows, grouped anew.
    pub fn child(&self) -> &ChildStrategy
        ensures { result.now ≡ self.now.child }
    {
        &self.child
    }

    /// The held size in bytes.
    pub fn buffer_size(&self) -> u64
        ensures { result ≡ self.now.buffer_size }
    {
        self.buffer_size
    }

    /// Takes no memory.
    pub fn into_strategy(self) -> Strategy
        ensures { strategy_data result ≡ buffered_way self }
    {
        Strategy::Buffered(self)
    }
}

impl Clone for BufferedStrategy {
    ghost use Rattle.std.specs.Prelude.{◌≡◌};
    ghost use Rattle.vx_strategy.specs.NodeViews.{buffered_way};

    ghost is_clone = { λ s copy. buffered_way copy ≡ buffered_way s };

    fn clone(&self) -> Result<BufferedStrategy, AllocError> {
        Ok(BufferedStrategy {
            child: self.child.clone()?,
            buffer_size: self.buffer_size,
        })
    }
}

/// Joins all chunks into one.
#[derive(Drop)]
#[cycle(strategy)]
pub struct CollectStrategy {
    pub(crate) child: ChildStrategy,
}

impl CollectStrategy {
    ghost use Rattle.std.specs.Prelude.{◌≡◌, IfOk, IfErr};
    ghost use Rattle.vx_strategy_spec.specs.StrategyData.{grouped, into_one};
    ghost use Rattle.vx_strategy.specs.NodeViews.{collect_way};
    ghost use Rattle.vx_strategy.specs.StrategyView.{strategy_data};

    /// All chunks become one.
    pub fn new(alloc: Global, child: Strategy) -> Result<CollectStrategy, BuildError>
        ensures ok { IfOk result (λ s. collect_way s ≡ grouped into_one (strategy_data child)) }
        ensures memory { IfErr result (λ e. e ≡ BuildError.OutOfMemory) }
    {
        Ok(CollectStrategy {
            child: ChildStrategy::held(alloc, child)?,
        })
    }

    /// What writes the rows, grouped anew.
    pub fn child(&self) -> &ChildStrategy
        ensures { result.now ≡ self.now.child }
    {
        &self.child
    }

    /// Takes no memory.
    pub fn into_strategy(self) -> Strategy
        ensures { strategy_data result ≡ collect_way self }
    {
        Strategy::Collect(self)
    }
}

impl Clone for CollectStrategy {
    ghost use Rattle.std.specs.Prelude.{◌≡◌};
    ghost use Rattle.vx_strategy.specs.NodeViews.{collect_way};

    ghost is_clone = { λ s copy. collect_way copy ≡ collect_way s };

    fn clone(&self) -> Result<CollectStrategy, AllocError> {
        Ok(CollectStrategy {
            child: self.child.clone()?,
        })
    }
}
