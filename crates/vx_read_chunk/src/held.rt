//! Rows as they are held.

ghost use Rattle.std.specs.Prelude.{◌≡◌, ◌≤◌, length, map, IfOk};
ghost use Rattle.vx_model.specs.TreeView.{val};
ghost use Rattle.vx_model.specs.ChunkData.{cells, row_values};
ghost use Rattle.vx_chunk_cells.specs.Window.{window};
ghost use Rattle.vx_read_chunk.specs.Held.{part_rows};

use std::alloc::{AllocError, Global};
use vx_chunk::Chunk;
use vx_model::Value;

/// Rows that are held together.
#[derive(Drop)]
pub enum HeldPart {
    /// The rows of a chunk, in its encoding.
    Chunk(Chunk),
    /// Rows one by one.
    Values(Vec<Value>),
}

/// The rows of its parts, one behind the other.
#[derive(Drop)]
pub struct HeldRows {
    pub parts: Vec<HeldPart>,
}

impl HeldPart {
    /// How many rows it has.
    #[tactic(auto, using(crate::proofs::HeldSteps::length_rules))]
    pub fn len(&self) -> u64
        ensures { result ≡ length (part_rows self.now) }
    {
        match self {
            HeldPart::Chunk(chunk) => chunk.len(),
            HeldPart::Values(values) => values.len() as u64,
        }
    }

    /// Rows `from` to `to`, the last not included, as a reader sees them.
    #[tactic(auto, using(crate::proofs::HeldSteps::length_rules))]
    pub fn rows_between(&self, alloc: Global, from: u64, to: u64) -> Result<Vec<Value>, AllocError>
        requires order { from ≤ to }
        requires within { to ≤ length (part_rows self.now) }
        ensures { IfOk result (λ v. map val v.items ≡ window from to (part_rows self.now)) }
    {
        match self {
            HeldPart::Chunk(chunk) => chunk_rows(alloc, chunk, from, to),
            HeldPart::Values(values) => {
                copied(
                    alloc,
                    values.split_at(to as usize).0.split_at(from as usize).1,
                )
            }
        }
    }
}

#[tactic(auto, using(crate::proofs::HeldSteps::window_rules))]
fn chunk_rows(alloc: Global, chunk: &Chunk, from: u64, to: u64) -> Result<Vec<Value>, AllocError>
    requires order { from ≤ to }
    requires within { to ≤ length (cells chunk.now) }
    ensures { IfOk result (λ v. map val v.items ≡ window from to (row_values chunk.now)) }
{
    let Ok(some) = chunk.slice(alloc, from, to) else {
        return Err(AllocError);
    };
    match some.into_rows(alloc) {
        Ok(rows) => Ok(rows),
        Err(_) => Err(AllocError),
    }
}

#[tactic(auto, using(crate::proofs::HeldSteps::copy_rules))]
fn copied(alloc: Global, values: &[Value]) -> Result<Vec<Value>, AllocError>
    ensures { IfOk result (λ v. map val v.items ≡ map val values.now) }
{
    let mut copies = Vec::with_capacity(alloc, values.len())?;
    for value in values {
        copies.push(value.clone()?)?;
    }
    Ok(copies)
}
