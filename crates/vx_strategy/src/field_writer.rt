//! Writers of fields by name.

ghost use Rattle.std.specs.Prelude.{◌≡◌, map, OnOk, IfOk, IfErr};
ghost use Rattle.vx_strategy.specs.FieldWays.{field_ways, place_of, with_writer};
ghost use Rattle.vx_strategy.specs.PairWays.{named_way, with_writers};
ghost use Rattle.vx_strategy.specs.StrategyView.{strategy_data};

use crate::child::ChildStrategy;
use crate::strategy::Strategy;
use std::alloc::{AllocError, Global};
use vx_model::FieldName;
use vx_strategy_options::BuildError;

/// The writer of the fields of one name.
#[derive(Drop)]
#[cycle(strategy)]
pub struct FieldWriter {
    pub name: FieldName,
    pub writer: ChildStrategy,
}

impl Clone for FieldWriter {
    ghost use Rattle.std.specs.Prelude.{◌≡◌};

    ghost is_clone = { λ w copy. copy ≡ w };

    fn clone(&self) -> Result<FieldWriter, AllocError> {
        let name = self.name.clone()?;
        Ok(FieldWriter {
            name,
            writer: self.writer.clone()?,
        })
    }
}

/// Puts the writer in the place of one of this name, or behind all.
#[tactic(auto, using(crate::proofs::Writers::put_rules))]
pub(crate) fn put(
    writers: &mut Vec<FieldWriter>,
    alloc: Global,
    name: FieldName,
    writer: Strategy,
) -> Result<(), BuildError>
    ensures ok { OnOk result (field_ways writers.new.items ≡ with_writer (field_ways writers.old.items) name (strategy_data writer)) }
    ensures memory { IfErr result (λ e. e ≡ BuildError.OutOfMemory) }
{
    let writer = ChildStrategy::held(alloc, writer)?;
    match find(writers, &name) {
        Some(place) => {
            writers[place].writer = writer;
            Ok(())
        }
        None => Ok(writers.push(FieldWriter { name, writer })?),
    }
}

/// Each of these as `put`, in order.
pub(crate) fn put_all(
    mut writers: Vec<FieldWriter>,
    alloc: Global,
    list: Vec<(FieldName, Strategy)>,
) -> Result<Vec<FieldWriter>, BuildError>
    ensures ok { IfOk result (λ v. field_ways v.items ≡ with_writers (field_ways writers.items) (map named_way list.items)) }
    ensures memory { IfErr result (λ e. e ≡ BuildError.OutOfMemory) }
{
    for (name, writer) in list {
        put(&mut writers, alloc, name, writer)?;
    }
    Ok(writers)
}

/// The place of the writer of this name.
#[tactic(auto, using(crate::proofs::PlaceSteps::place_rules))]
pub(crate) fn find(writers: &[FieldWriter], name: &FieldName) -> Option<usize>
    ensures { result ≡ place_of name.now writers.now }
{
    for i in 0..writers.len() {
        if writers[i].name == *name {
            return Some(i);
        }
    }
    None
}
