use crate::child::ChildStrategy;
use crate::field_writer::{FieldWriter, find, put, put_all};
use crate::strategy::Strategy;
use std::alloc::{AllocError, Global};
use vx_model::FieldName;
use vx_strategy_options::BuildError;

/// Writes validity and each field by a writer of its own.
#[derive(Drop)]
#[cycle(strategy)]
pub struct StructStrategy {
    pub validity: ChildStrategy,
    pub default: ChildStrategy,
    pub writers: Vec<FieldWriter>,
}

impl StructStrategy {
    ghost use Rattle.std.specs.Prelude.{◌≡◌, map, IfOk, IfErr};
    ghost use Rattle.vx_strategy_spec.specs.StrategyData.{structured, no_ways};
    ghost use Rattle.vx_strategy_spec.specs.Dispatch.{override, given_or};
    ghost use Rattle.vx_strategy.specs.NodeViews.{struct_way};
    ghost use Rattle.vx_strategy.specs.FieldWays.{field_ways, with_writer};
    ghost use Rattle.vx_strategy.specs.PairWays.{named_way, with_writers};
    ghost use Rattle.vx_strategy.specs.StrategyView.{strategy_data};

    /// Each field goes to the default, until a writer is given for its name.
    pub fn new(
        alloc: Global,
        validity: Strategy,
        default: Strategy,
    ) -> Result<StructStrategy, BuildError>
        ensures ok { IfOk result (λ s. struct_way s ≡ structured (strategy_data validity) (strategy_data default) no_ways) }
        ensures memory { IfErr result (λ e. e ≡ BuildError.OutOfMemory) }
    {
        let (validity, default) = ChildStrategy::both_held(alloc, validity, default)?;
        Ok(StructStrategy {
            validity,
            default,
            writers: Vec::new(alloc),
        })
    }

    /// The writer of the fields of this name. A later writer of a name replaces the earlier one; a name that the
    /// type lacks is never used.
    pub fn with_field_writer(
        self,
        alloc: Global,
        name: FieldName,
        writer: Strategy,
    ) -> Result<StructStrategy, BuildError>
        ensures ok { IfOk result (λ s. struct_way s ≡ structured self.validity.item self.default.item (with_writer (field_ways self.writers.items) name (strategy_data writer))) }
        ensures memory { IfErr result (λ e. e ≡ BuildError.OutOfMemory) }
    {
        let StructStrategy {
            validity,
            default,
            mut writers,
        } = self;
        match put(&mut writers, alloc, name, writer) {
            Ok(()) => Ok(StructStrategy {
                validity,
                default,
                writers,
            }),
            Err(error) => {
                drop((validity, default, writers));
                Err(error)
            }
        }
    }

    /// Each of these as `with_field_writer`, in order.
    pub fn with_field_writers(
        self,
        alloc: Global,
        list: Vec<(FieldName, Strategy)>,
    ) -> Result<StructStrategy, BuildError>
        ensures ok { IfOk result (λ s. struct_way s ≡ structured self.validity.item self.default.item (with_writers (field_ways self.writers.items) (map named_way list.items))) }
        ensures memory { IfErr result (λ e. e ≡ BuildError.OutOfMemory) }
    {
        let StructStrategy {
            validity,
            default,
            writers,
        } = self;
        match put_all(writers, alloc, list) {
            Ok(writers) => Ok(StructStrategy {
                validity,
                default,
                writers,
            }),
            Err(error) => {
                drop((validity, default));
                Err(error)
            }
        }
    }

    /// What writes the validity of nullable structs.
    pub fn validity(&self) -> &ChildStrategy
        ensures { result.now ≡ self.now.validity }
    {
        &self.validity
    }

    /// The writer of the fields that have none by name.
    pub fn default(&self) -> &ChildStrategy
        ensures { result.now ≡ self.now.default }
    {
        &self.default
    }

    /// The writer of the fields of this name.
    #[tactic(auto, using(crate::proofs::Writers::writer_rules))]
    pub fn writer(&self, name: &FieldName) -> &ChildStrategy
        ensures { result.now.item ≡ given_or (override name.now (field_ways self.now.writers.items)) self.now.default.item }
    {
        match find(&self.writers, name) {
            Some(place) => &self.writers[place].writer,
            None => &self.default,
        }
    }

    /// Takes no memory.
    pub fn into_strategy(self) -> Strategy
        ensures { strategy_data result ≡ struct_way self }
    {
        Strategy::Struct(self)
    }
}

impl Clone for StructStrategy {
    ghost use Rattle.std.specs.Prelude.{◌≡◌};
    ghost use Rattle.vx_strategy.specs.NodeViews.{struct_way};

    ghost is_clone = { λ s copy. struct_way copy ≡ struct_way s };

    fn clone(&self) -> Result<StructStrategy, AllocError> {
        let (validity, default) = self.validity.clone_with(&self.default)?;
        let Ok(writers) = Vec::from_clones(*self.writers.allocator(), &self.writers) else {
            drop((validity, default));
            return Err(AllocError);
        };
        Ok(StructStrategy {
            validity,
            default,
            writers,
        })
    }
}
