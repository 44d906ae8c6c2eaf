use crate::child::ChildStrategy;
use crate::overrides::Overrides;
use crate::strategy::Strategy;
use crate::wrapper::{ListWrapper, Wrapper, shared, tested};
use std::alloc::{AllocError, Global};
use std::sync::Arc;
use vx_field_path::FieldPath;
use vx_strategy_options::BuildError;

/// Writes structs field by field, lists where asked for, and every other type by the leaf strategy; a field at the
/// path of an override goes to its writer.
#[derive(Drop)]
#[cycle(strategy)]
pub struct TableStrategy {
    pub validity: ChildStrategy,
    pub leaf: ChildStrategy,
    pub overrides: Overrides,
    /// Whether lists are laid out as lists; else they go to the leaf.
    pub list_layout: bool,
    /// What wraps the layout of lists, the outermost first.
    pub wrappers: Arc<Vec<Wrapper>>,
}

impl TableStrategy {
    ghost use Rattle.std.specs.Prelude.{◌≡◌, true, false, map, IfOk, IfErr};
    ghost use Rattle.vx_strategy_spec.specs.StrategyData.{tabled, no_ways, no_wraps};
    ghost use Rattle.vx_strategy.specs.NodeViews.{table_way};
    ghost use Rattle.vx_strategy.specs.WrapViews.{wraps};
    ghost use Rattle.vx_strategy.specs.Overridden.{appended, all_appended, Fits, AllFit};
    ghost use Rattle.vx_strategy.specs.PairWays.{path_way};
    ghost use Rattle.vx_strategy.specs.Wrapped.{wraps_asked};
    ghost use Rattle.vx_strategy.specs.Causes.{OverrideRefused, OverridesRefused};
    ghost use Rattle.vx_strategy.specs.WrapCauses.{AllWrap, FirstRefused};
    ghost use Rattle.vx_strategy.specs.StrategyView.{strategy_data};

    /// Without overrides, and without list layout. `fallback` is the leaf strategy.
    pub fn new(
        alloc: Global,
        validity: Strategy,
        fallback: Strategy,
    ) -> Result<TableStrategy, BuildError>
        ensures ok { IfOk result (λ s. table_way s ≡ tabled (strategy_data validity) (strategy_data fallback) no_ways false no_wraps) }
        ensures memory { IfErr result (λ e. e ≡ BuildError.OutOfMemory) }
    {
        let (validity, leaf) = ChildStrategy::both_held(alloc, validity, fallback)?;
        let Ok(wrappers) = shared(alloc, Vec::new(alloc)) else {
            drop((validity, leaf));
            return Err(BuildError::OutOfMemory);
        };
        Ok(TableStrategy {
            validity,
            leaf,
            overrides: Overrides::none(alloc),
            list_layout: false,
            wrappers,
        })
    }

    /// The writer of the field at this path. Refuses `RootPath` exactly at the root, then `OverlappingPath` exactly
    /// where a standing path overlaps.
    pub fn with_field_writer(
        self,
        alloc: Global,
        path: FieldPath,
        writer: Strategy,
    ) -> Result<TableStrategy, BuildError>
        ensures ok { IfOk result (λ s. table_way s ≡ tabled self.validity.item self.leaf.item (appended self.overrides.item path (strategy_data writer)) self.list_layout (wraps self.wrappers.value.items)) }
        ensures fits { IfOk result (λ s. Fits self.overrides.item path) }
        ensures refused { IfErr result (OverrideRefused self.overrides.item path) }
    {
        let TableStrategy {
            validity,
            leaf,
            overrides,
            list_layout,
            wrappers,
        } = self;
        match overrides.with(alloc, path, writer) {
            Ok(overrides) => Ok(TableStrategy {
                validity,
                leaf,
                overrides,
                list_layout,
                wrappers,
            }),
            Err(error) => {
                drop((validity, leaf, wrappers));
                Err(error)
            }
        }
    }

    /// Each of these as `with_field_writer`, in order.
    pub fn with_field_writers(
        self,
        alloc: Global,
        list: Vec<(FieldPath, Strategy)>,
    ) -> Result<TableStrategy, BuildError>
        ensures ok { IfOk result (λ s. table_way s ≡ tabled self.validity.item self.leaf.item (all_appended self.overrides.item (map path_way list.items)) self.list_layout (wraps self.wrappers.value.items)) }
        ensures fits { IfOk result (λ s. AllFit self.overrides.item (map path_way list.items)) }
        ensures refused { IfErr result (OverridesRefused self.overrides.item (map path_way list.items)) }
    {
        let TableStrategy {
            validity,
            leaf,
            overrides,
            list_layout,
            wrappers,
        } = self;
        match overrides.with_all(alloc, list) {
            Ok(overrides) => Ok(TableStrategy {
                validity,
                leaf,
                overrides,
                list_layout,
                wrappers,
            }),
            Err(error) => {
                drop((validity, leaf, wrappers));
                Err(error)
            }
        }
    }

    /// Another leaf strategy.
    pub fn with_default_strategy(
        self,
        alloc: Global,
        leaf: Strategy,
    ) -> Result<TableStrategy, BuildError>
        ensures ok { IfOk result (λ s. table_way s ≡ tabled self.validity.item (strategy_data leaf) self.overrides.item self.list_layout (wraps self.wrappers.value.items)) }
        ensures memory { IfErr result (λ e. e ≡ BuildError.OutOfMemory) }
    {
        let Ok(leaf) = ChildStrategy::held(alloc, leaf) else {
            drop(self);
            return Err(BuildError::OutOfMemory);
        };
        drop(self.leaf);
        Ok(TableStrategy {
            validity: self.validity,
            leaf,
            overrides: self.overrides,
            list_layout: self.list_layout,
            wrappers: self.wrappers,
        })
    }

    /// This one writes the validity of nullable structs.
    pub fn with_validity_strategy(
        self,
        alloc: Global,
        validity: Strategy,
    ) -> Result<TableStrategy, BuildError>
        ensures ok { IfOk result (λ s. table_way s ≡ tabled (strategy_data validity) self.leaf.item self.overrides.item self.list_layout (wraps self.wrappers.value.items)) }
        ensures memory { IfErr result (λ e. e ≡ BuildError.OutOfMemory) }
    {
        let Ok(validity) = ChildStrategy::held(alloc, validity) else {
            drop(self);
            return Err(BuildError::OutOfMemory);
        };
        drop(self.validity);
        Ok(TableStrategy {
            validity,
            leaf: self.leaf,
            overrides: self.overrides,
            list_layout: self.list_layout,
            wrappers: self.wrappers,
        })
    }

    /// Lists are laid out as lists.
    pub fn with_list_layout(self, alloc: Global) -> Result<TableStrategy, BuildError>
        ensures ok { IfOk result (λ s. table_way s ≡ tabled self.validity.item self.leaf.item self.overrides.item true no_wraps) }
        ensures memory { IfErr result (λ e. e ≡ BuildError.OutOfMemory) }
    {
        let Ok(wrappers) = shared(alloc, Vec::new(alloc)) else {
            drop(self);
            return Err(BuildError::OutOfMemory);
        };
        Ok(self.with_lists(wrappers))
    }

    /// Lists are laid out as lists in these wrappers, the first outermost. Refuses as the wrapped strategies'
    /// constructors, for the first wrapper that is refused.
    #[tactic(auto, using(crate::proofs::Wrappers::wrap_rules))]
    pub fn with_list_layout_factory(
        self,
        alloc: Global,
        wrappers: Vec<ListWrapper>,
    ) -> Result<TableStrategy, BuildError>
        ensures ok { IfOk result (λ s. table_way s ≡ tabled self.validity.item self.leaf.item self.overrides.item true (wraps_asked wrappers.items)) }
        ensures wraps { IfOk result (λ s. AllWrap wrappers.items) }
        ensures refused { IfErr result (FirstRefused wrappers.items) }
    {
        match tested(alloc, wrappers) {
            Ok(wrappers) => {
                let Ok(wrappers) = shared(alloc, wrappers) else {
                    drop(self);
                    return Err(BuildError::OutOfMemory);
                };
                Ok(self.with_lists(wrappers))
            }
            Err(error) => {
                drop(self);
                Err(error)
            }
        }
    }

    /// Lists are laid out as lists in these wrappers.
    fn with_lists(self, wrappers: Arc<Vec<Wrapper>>) -> TableStrategy
        ensures { table_way result ≡ tabled self.validity.item self.leaf.item self.overrides.item true (wraps wrappers.value.items) }
    {
        drop(self.wrappers);
        TableStrategy {
            validity: self.validity,
            leaf: self.leaf,
            overrides: self.overrides,
            list_layout: true,
            wrappers,
        }
    }

    /// Takes no memory.
    pub fn into_strategy(self) -> Strategy
        ensures { strategy_data result ≡ table_way self }
    {
        Strategy::Table(self)
    }
}

impl Clone for TableStrategy {
    ghost use Rattle.std.specs.Prelude.{◌≡◌};
    ghost use Rattle.vx_strategy.specs.NodeViews.{table_way};

    ghost is_clone = { λ s copy. table_way copy ≡ table_way s };

    fn clone(&self) -> Result<TableStrategy, AllocError> {
        let (validity, leaf) = self.validity.clone_with(&self.leaf)?;
        let Ok(overrides) = self.overrides.clone() else {
            drop((validity, leaf));
            return Err(AllocError);
        };
        let Ok(wrappers) = Arc::try_clone(&self.wrappers) else {
            drop((validity, leaf, overrides));
            return Err(AllocError);
        };
        Ok(TableStrategy {
            validity,
            leaf,
            overrides,
            list_layout: self.list_layout,
            wrappers,
        })
    }
}
