use crate::child::ChildStrategy;
use crate::strategy::Strategy;
use std::alloc::{AllocError, Global};
use vx_strategy_options::{BuildError, DictLayoutConstraints, DictLayoutOptions};

/// Writes runs of codes and values, where the first chunk's image under the probe is a dictionary.
#[derive(Drop)]
#[cycle(strategy)]
pub struct DictStrategy {
    pub(crate) codes: ChildStrategy,
    pub(crate) values: ChildStrategy,
    pub(crate) fallback: ChildStrategy,
    pub(crate) constraints: DictLayoutConstraints,
    /// The compressor's number for the first chunk.
    pub(crate) probe: u32,
}

impl DictStrategy {
    ghost use Rattle.std.specs.Prelude.{◌≡◌, IfOk, IfErr};
    ghost use Rattle.vx_strategy_spec.specs.StrategyData.{coded};
    ghost use Rattle.vx_strategy_options.specs.OptionViews.{dict_options};
    ghost use Rattle.vx_strategy.specs.NodeViews.{dict_way};
    ghost use Rattle.vx_strategy.specs.StrategyView.{strategy_data};

    /// `probe` is the compressor's number.
    pub fn new(
        alloc: Global,
        codes: Strategy,
        values: Strategy,
        fallback: Strategy,
        options: DictLayoutOptions,
        probe: u32,
    ) -> Result<DictStrategy, BuildError>
        ensures ok { IfOk result (λ s. dict_way s ≡ coded (dict_options options.constraints probe) (strategy_data codes) (strategy_data values) (strategy_data fallback)) }
        ensures memory { IfErr result (λ e. e ≡ BuildError.OutOfMemory) }
    {
        let Ok((codes, values)) = ChildStrategy::both_held(alloc, codes, values) else {
            drop(fallback);
            return Err(BuildError::OutOfMemory);
        };
        let Ok(fallback) = ChildStrategy::held(alloc, fallback) else {
            drop((codes, values));
            return Err(BuildError::OutOfMemory);
        };
        Ok(DictStrategy {
            codes,
            values,
            fallback,
            constraints: options.constraints,
            probe,
        })
    }

    /// What writes a run's codes.
    pub fn codes(&self) -> &ChildStrategy
        ensures { result.now ≡ self.now.codes }
    {
        &self.codes
    }

    /// What writes a run's values.
    pub fn values(&self) -> &ChildStrategy
        ensures { result.now ≡ self.now.values }
    {
        &self.values
    }

    /// What no dictionary can hold goes here, and a stream whose first chunk's image is none.
    pub fn fallback(&self) -> &ChildStrategy
        ensures { result.now ≡ self.now.fallback }
    {
        &self.fallback
    }

    /// How large a dictionary may become before its run ends.
    pub fn constraints(&self) -> DictLayoutConstraints
        ensures { result ≡ self.now.constraints }
    {
        self.constraints
    }

    /// The compressor's number for the first chunk.
    pub fn probe(&self) -> u32
        ensures { result ≡ self.now.probe }
    {
        self.probe
    }

    /// Takes no memory.
    pub fn into_strategy(self) -> Strategy
        ensures { strategy_data result ≡ dict_way self }
    {
        Strategy::Dict(self)
    }
}

impl Clone for DictStrategy {
    ghost use Rattle.std.specs.Prelude.{◌≡◌};
    ghost use Rattle.vx_strategy.specs.NodeViews.{dict_way};

    ghost is_clone = { λ s copy. dict_way copy ≡ dict_way s };

    fn clone(&self) -> Result<DictStrategy, AllocError> {
        let (codes, values) = self.codes.clone_with(&self.values)?;
        let Ok(fallback) = self.fallback.clone() else {
            drop((codes, values));
            return Err(AllocError);
        };
        Ok(DictStrategy {
            codes,
            values,
            fallback,
            constraints: self.constraints,
            probe: self.probe,
        })
    }
}
