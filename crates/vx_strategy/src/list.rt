ghost use Rattle.std.specs.Prelude.{◌≡◌, IfOk};
ghost use Rattle.vx_strategy.specs.FlatViews.{default_flat};

use crate::child::ChildStrategy;
use crate::flat::FlatLayoutStrategy;
use crate::strategy::Strategy;
use std::alloc::{AllocError, Global};
use vx_strategy_options::BuildError;

/// Writes the elements, offsets and validity of lists; a type that isn't a list goes to the fallback.
#[derive(Drop)]
#[cycle(strategy)]
pub struct ListLayoutStrategy {
    pub elements: ChildStrategy,
    pub offsets: ChildStrategy,
    pub validity: ChildStrategy,
    pub fallback: ChildStrategy,
}

impl ListLayoutStrategy {
    ghost use Rattle.std.specs.Prelude.{◌≡◌, IfOk, IfErr};
    ghost use Rattle.vx_strategy_spec.specs.StrategyData.{listed};
    ghost use Rattle.vx_strategy.specs.NodeViews.{list_way};
    ghost use Rattle.vx_strategy.specs.FlatViews.{default_flat};
    ghost use Rattle.vx_strategy.specs.StrategyView.{strategy_data};

    /// All flat.
    pub fn default(alloc: Global) -> Result<ListLayoutStrategy, BuildError>
        ensures ok { IfOk result (λ s. list_way s ≡ listed default_flat default_flat default_flat default_flat) }
        ensures memory { IfErr result (λ e. e ≡ BuildError.OutOfMemory) }
    {
        let flat = FlatLayoutStrategy::default();
        let (elements, offsets) = ChildStrategy::both_held(
            alloc,
            flat.into_strategy(),
            flat.into_strategy(),
        )?;
        let Ok((validity, fallback)) = ChildStrategy::both_held(
            alloc,
            flat.into_strategy(),
            flat.into_strategy(),
        ) else {
            drop((elements, offsets));
            return Err(BuildError::OutOfMemory);
        };
        Ok(ListLayoutStrategy {
            elements,
            offsets,
            validity,
            fallback,
        })
    }

    /// This one writes the elements.
    pub fn with_elements(
        self,
        alloc: Global,
        elements: Strategy,
    ) -> Result<ListLayoutStrategy, BuildError>
        ensures ok { IfOk result (λ s. list_way s ≡ listed (strategy_data elements) self.offsets.item self.validity.item self.fallback.item) }
        ensures memory { IfErr result (λ e. e ≡ BuildError.OutOfMemory) }
    {
        let Ok(elements) = ChildStrategy::held(alloc, elements) else {
            drop(self);
            return Err(BuildError::OutOfMemory);
        };
        drop(self.elements);
        Ok(ListLayoutStrategy {
            elements,
            offsets: self.offsets,
            validity: self.validity,
            fallback: self.fallback,
        })
    }

    /// This one writes the offsets.
    pub fn with_offsets(
        self,
        alloc: Global,
        offsets: Strategy,
    ) -> Result<ListLayoutStrategy, BuildError>
        ensures ok { IfOk result (λ s. list_way s ≡ listed self.elements.item (strategy_data offsets) self.validity.item self.fallback.item) }
        ensures memory { IfErr result (λ e. e ≡ BuildError.OutOfMemory) }
    {
        let Ok(offsets) = ChildStrategy::held(alloc, offsets) else {
            drop(self);
            return Err(BuildError::OutOfMemory);
        };
        drop(self.offsets);
        Ok(ListLayoutStrategy {
            elements: self.elements,
            offsets,
            validity: self.validity,
            fallback: self.fallback,
        })
    }

    /// This one writes the validity of nullable lists.
    pub fn with_validity(
        self,
        alloc: Global,
        validity: Strategy,
    ) -> Result<ListLayoutStrategy, BuildError>
        ensures ok { IfOk result (λ s. list_way s ≡ listed self.elements.item self.offsets.item (strategy_data validity) self.fallback.item) }
        ensures memory { IfErr result (λ e. e ≡ BuildError.OutOfMemory) }
    {
        let Ok(validity) = ChildStrategy::held(alloc, validity) else {
            drop(self);
            return Err(BuildError::OutOfMemory);
        };
        drop(self.validity);
        Ok(ListLayoutStrategy {
            elements: self.elements,
            offsets: self.offsets,
            validity,
            fallback: self.fallback,
        })
    }

    /// This one writes what is no list.
    pub fn with_fallback(
        self,
        alloc: Global,
        fallback: Strategy,
    ) -> Result<ListLayoutStrategy, BuildError>
        ensures ok { IfOk result (λ s. list_way s ≡ listed self.elements.item self.offsets.item self.validity.item (strategy_data fallback)) }
        ensures memory { IfErr result (λ e. e ≡ BuildError.OutOfMemory) }
    {
        let Ok(fallback) = ChildStrategy::held(alloc, fallback) else {
            drop(self);
            return Err(BuildError::OutOfMemory);
        };
        drop(self.fallback);
        Ok(ListLayoutStrategy {
            elements: self.elements,
            offsets: self.offsets,
            validity: self.validity,
            fallback,
        })
    }

    /// What writes the elements.
    pub fn elements(&self) -> &ChildStrategy
        ensures { result.now ≡ self.now.elements }
    {
        &self.elements
    }

    /// What writes the offsets.
    pub fn offsets(&self) -> &ChildStrategy
        ensures { result.now ≡ self.now.offsets }
    {
        &self.offsets
    }

    /// What writes the validity of nullable lists.
    pub fn validity(&self) -> &ChildStrategy
        ensures { result.now ≡ self.now.validity }
    {
        &self.validity
    }

    /// What isn't a list goes here.
    pub fn fallback(&self) -> &ChildStrategy
        ensures { result.now ≡ self.now.fallback }
    {
        &self.fallback
    }

    /// Takes no memory.
    pub fn into_strategy(self) -> Strategy
        ensures { strategy_data result ≡ list_way self }
    {
        Strategy::List(self)
    }
}

impl Clone for ListLayoutStrategy {
    ghost use Rattle.std.specs.Prelude.{◌≡◌};
    ghost use Rattle.vx_strategy.specs.NodeViews.{list_way};

    ghost is_clone = { λ s copy. list_way copy ≡ list_way s };

    fn clone(&self) -> Result<ListLayoutStrategy, AllocError> {
        let (elements, offsets) = self.elements.clone_with(&self.offsets)?;
        let Ok((validity, fallback)) = self.validity.clone_with(&self.fallback) else {
            drop((elements, offsets));
            return Err(AllocError);
        };
        Ok(ListLayoutStrategy {
            elements,
            offsets,
            validity,
            fallback,
        })
    }
}
