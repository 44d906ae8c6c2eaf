use crate::child::ChildStrategy;
use crate::strategy::Strategy;
use std::alloc::{AllocError, Global};
use std::num::NonZeroU64;
use vx_strategy_options::BuildError;

/// Hands each chunk's image under the compressor on.
#[derive(Drop)]
#[cycle(strategy)]
pub struct CompressingStrategy {
    pub(crate) child: ChildStrategy,
    /// The compressor's number.
    pub(crate) which: u32,
    /// How many chunks may wait behind the compressor.
    pub(crate) concurrency: NonZeroU64,
}

impl CompressingStrategy {
    ghost use Rattle.std.specs.Prelude.{◌≡◌, ◌<◌, IfOk, IfErr};
    ghost use Rattle.vx_strategy_spec.specs.StrategyData.{compressed};
    ghost use Rattle.vx_strategy.specs.NodeViews.{compressed_way};
    ghost use Rattle.vx_strategy_options.specs.Causes.{ZeroConcurrencyOf};
    ghost use Rattle.vx_strategy.specs.StrategyView.{strategy_data};

    /// With a concurrency of 1.
    pub fn new(
        alloc: Global,
        child: Strategy,
        which: u32,
    ) -> Result<CompressingStrategy, BuildError>
        ensures ok { IfOk result (λ s. compressed_way s ≡ compressed which 1 (strategy_data child)) }
        ensures memory { IfErr result (λ e. e ≡ BuildError.OutOfMemory) }
    {
        Ok(CompressingStrategy {
            child: ChildStrategy::held(alloc, child)?,
            which,
            concurrency: NonZeroU64::MIN,
        })
    }

    /// Refuses `ZeroConcurrency` exactly at 0.
    pub fn with_concurrency(self, concurrency: u64) -> Result<CompressingStrategy, BuildError>
        ensures ok { IfOk result (λ s. compressed_way s ≡ compressed self.which concurrency self.child.item) }
        ensures some { IfOk result (λ s. 0 < concurrency) }
        ensures refused { IfErr result (ZeroConcurrencyOf concurrency) }
    {
        let Some(concurrency) = NonZeroU64::new(concurrency) else {
            drop(self);
            return Err(BuildError::ZeroConcurrency);
        };
        Ok(CompressingStrategy {
            child: self.child,
            which: self.which,
            concurrency,
        })
    }

    /// What writes the compressed chunks.
    pub fn child(&self) -> &ChildStrategy
        ensures { result.now ≡ self.now.child }
    {
        &self.child
    }

    /// The compressor's number.
    pub fn which(&self) -> u32
        ensures { result ≡ self.now.which }
    {
        self.which
    }

    /// How many chunks may wait behind the compressor.
    pub fn concurrency(&self) -> NonZeroU64
        ensures { result ≡ self.now.concurrency }
    {
        self.concurrency
    }

    /// Takes no memory.
    pub fn into_strategy(self) -> Strategy
        ensures { strategy_data result ≡ compressed_way self }
    {
        Strategy::Compressing(self)
    }
}

impl Clone for CompressingStrategy {
    ghost use Rattle.std.specs.Prelude.{◌≡◌};
    ghost use Rattle.vx_strategy.specs.NodeViews.{compressed_way};

    ghost is_clone = { λ s copy. compressed_way copy ≡ compressed_way s };

    fn clone(&self) -> Result<CompressingStrategy, AllocError> {
        Ok(CompressingStrategy {
            child: self.child.clone()?,
            which: self.which,
            concurrency: self.concurrency,
        })
    }
}
