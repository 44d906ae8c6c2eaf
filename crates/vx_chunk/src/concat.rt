//! Chunks one behind the other.

ghost use Rattle.std.specs.Prelude.{◌≡◌, ◌++◌, length, IsTrue, IfOk, IfErr, OnOk};
ghost use Rattle.vx_model.specs.TyView.{ty};
ghost use Rattle.vx_model.specs.ChunkData.{chunked_piece, pieces_of, cells as cells_in, joined_cells};
ghost use Rattle.vx_chunk.specs.Conditions.{are_of_type, IsTooLarge};
ghost use Rattle.vx_layout_spec.specs.Parts.{parts_of, all_parts};

use crate::error::ChunkError;
use crate::node::{Chunk, Node};
use crate::reads::all_sound;
use std::alloc::{AllocError, Global};
use vx_model::DType;

impl Chunk {
    /// The rows of the chunks, joined: chunked, with the parts of chunked ones in their places. Nothing is copied.
    /// `vx_chunk_conditions::are_of_type` tests the condition.
    pub fn concat(alloc: Global, dtype: DType, parts: Vec<Chunk>) -> Result<Chunk, ChunkError>
        requires { IsTrue (are_of_type (ty dtype) parts.items) }
        ensures chunked { IfOk result (λ c. c ≡ chunked_piece (ty dtype) (pieces_of (all_parts parts.items))) }
        ensures cells { IfOk result (λ c. cells_in c ≡ joined_cells (pieces_of parts.items)) }
        ensures refused { IfErr result (IsTooLarge (length (joined_cells (pieces_of parts.items)))) }
    {
        all_sound(&parts);
        let flat = flatten(alloc, parts)?;
        Chunk::chunked(dtype, flat)
    }
}

#[tactic(auto, using(crate::proofs::ConcatSteps::flat_rules))]
fn flatten(alloc: Global, parts: Vec<Chunk>) -> Result<Vec<Chunk>, AllocError>
    ensures { IfOk result (λ v. v.items ≡ all_parts parts.items) }
{
    let mut flat = Vec::with_capacity(alloc, parts.len())?;
    for part in parts {
        push_flat(part, &mut flat)?;
    }
    Ok(flat)
}

/// The chunk behind the others, or its parts where it is chunked.
#[tactic(auto, using(crate::proofs::ConcatSteps::flat_rules))]
fn push_flat(chunk: Chunk, out: &mut Vec<Chunk>) -> Result<(), AllocError>
    ensures { OnOk result (out.new.items ≡ out.old.items ++ parts_of chunk) }
{
    let node = chunk.into_node();
    match node {
        Node::Chunked { dtype, mut parts } => {
            drop(dtype);
            out.append(&mut parts)
        }
        other => {
            out.push(Chunk { node: other })?;
            Ok(())
        }
    }
}
