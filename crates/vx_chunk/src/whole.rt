//! That chunks in memory are whole: each meets its constructors' conditions, and its cells are those that memory holds.

ghost use Rattle.std.specs.Prelude.{IsTrue};
ghost use Rattle.vx_model.specs.ChunkData.{pieces_of};
ghost use Rattle.vx_layout_spec.specs.Real.{is_real, are_real, Whole};

use crate::node::{Chunk, Node};
use vx_chunk_cells::real_cell;

impl Chunk {
    /// Changes nothing and takes no memory; tells a caller's proof that the chunk is whole. Looks at each cell that the
    /// chunk keeps, once: call it where a chunk comes in, since what is made of whole chunks is whole by laws.
    pub fn whole(&self)
        ensures { Whole self.now }
    {
        self.sound();
        real(self);
    }
}

#[cycle(real)]
#[tactic(auto, using(crate::proofs::WholeSteps::whole_rules))]
fn real(chunk: &Chunk)
    ensures { IsTrue (is_real chunk.now) }
{
    match &chunk.node {
        Node::Plain { column, .. } => column.real(),
        Node::Constant { cell, .. } => real_cell(cell),
        Node::Dict { codes, values } => {
            real(codes);
            real(values)
        }
        Node::Chunked { parts, .. } => real_parts(parts),
        Node::List { elements, .. } => real(elements),
        Node::Struct { fields, .. } => real_parts(fields),
        Node::Extension { storage, .. } => real(storage),
    }
}

#[cycle(real)]
#[tactic(auto, using(crate::proofs::WholeSteps::whole_rules))]
fn real_parts(chunks: &[Chunk])
    ensures { IsTrue (are_real (pieces_of chunks.now)) }
{
    for chunk in chunks {
        real(chunk);
    }
}
