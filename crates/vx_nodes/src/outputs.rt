//! What a rule gives at a chunk.

ghost use Rattle.std.specs.Prelude.{◌≡◌, IfOk};
ghost use Rattle.vx_react.specs.Reactor.{child_outputs};
ghost use Rattle.vx_react.specs.Splitter.{column_outputs};
ghost use Rattle.vx_nodes.specs.Given.{outputs_in};

use std::alloc::{AllocError, Global};
use vx_chunk::Chunk;
use vx_model::Value;
use vx_react::Place;

/// A chunk, and where it goes.
#[derive(Drop)]
pub struct Output {
    pub place: Place,
    pub chunk: Chunk,
}

/// What a rule gives at a chunk.
#[derive(Drop)]
pub struct Outputs {
    /// In order of rank.
    pub items: Vec<Output>,
    /// The chunk's record, from a `ZoneGuard` that records alone.
    pub zone: Option<Vec<Value>>,
}

/// Each to the child.
#[tactic(auto, using(crate::proofs::OutputSteps::output_rules))]
pub(crate) fn to_child(alloc: Global, chunks: Vec<Chunk>) -> Result<Vec<Output>, AllocError>
    ensures { IfOk result (λ v. outputs_in v ≡ child_outputs chunks.items) }
{
    let mut items = Vec::with_capacity(alloc, chunks.len())?;
    for chunk in chunks {
        let place = Place::Child;
        items.push(Output { place, chunk })?;
    }
    Ok(items)
}

/// Each to the column of its number.
#[tactic(auto, using(crate::proofs::OutputSteps::output_rules))]
pub(crate) fn to_columns(alloc: Global, chunks: Vec<Chunk>) -> Result<Vec<Output>, AllocError>
    ensures { IfOk result (λ v. outputs_in v ≡ column_outputs 0 chunks.items) }
{
    let mut items = Vec::with_capacity(alloc, chunks.len())?;
    for chunk in chunks {
        let place = Place::Column(items.len() as u64);
        items.push(Output { place, chunk })?;
    }
    Ok(items)
}

/// Each to its place.
#[tactic(auto, using(crate::proofs::OutputSteps::output_rules))]
pub(crate) fn to_places(
    alloc: Global,
    outputs: Vec<(Place, Chunk)>,
) -> Result<Vec<Output>, AllocError>
    ensures { IfOk result (λ v. outputs_in v ≡ outputs.items) }
{
    let mut items = Vec::with_capacity(alloc, outputs.len())?;
    for (place, chunk) in outputs {
        items.push(Output { place, chunk })?;
    }
    Ok(items)
}
