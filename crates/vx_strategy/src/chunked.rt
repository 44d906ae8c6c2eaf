use crate::child::ChildStrategy;
use crate::strategy::Strategy;
use std::alloc::{AllocError, Global};
use vx_strategy_options::BuildError;

/// Hands each chunk alone to a child of its own.
#[derive(Drop)]
#[cycle(strategy)]
pub struct ChunkedLayoutStrategy {
    child: ChildStrategy,
}

impl ChunkedLayoutStrategy {
    ghost use Rattle.std.specs.Prelude.{◌≡◌, IfOk, IfErr};
    ghost use Rattle.vx_strategy_spec.specs.StrategyData.{chunked};
    ghost use Rattle.vx_strategy.specs.NodeViews.{chunked_way};
    ghost use Rattle.vx_strategy.specs.StrategyView.{strategy_data};

    /// Each chunk is written by the child.
    pub fn new(alloc: Global, chunk_strategy: Strategy) -> Result<ChunkedLayoutStrategy, BuildError>
        ensures ok { IfOk result (λ s. chunked_way s ≡ chunked (strategy_data chunk_strategy)) }
        ensures memory { IfErr result (λ e. e ≡ BuildError.OutOfMemory) }
    {
        Ok(ChunkedLayoutStrategy {
            child: ChildStrategy::held(alloc, chunk_strategy)?,
        })
    }

    /// What writes each chunk.
    pub fn child(&self) -> &ChildStrategy
        ensures { result.now ≡ self.now.child }
    {
        &self.child
    }

    /// Takes no memory.
    pub fn into_strategy(self) -> Strategy
        ensures { strategy_data result ≡ chunked_way self }
    {
        Strategy::Chunked(self)
    }
}

impl Clone for ChunkedLayoutStrategy {
    ghost use Rattle.std.specs.Prelude.{◌≡◌};
    ghost use Rattle.vx_strategy.specs.NodeViews.{chunked_way};

    ghost is_clone = { λ s copy. chunked_way copy ≡ chunked_way s };

    fn clone(&self) -> Result<ChunkedLayoutStrategy, AllocError> {
        Ok(ChunkedLayoutStrategy {
            child: self.child.clone()?,
        })
    }
}
