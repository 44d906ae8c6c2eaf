//! What a chunk tells at once.

ghost use Rattle.std.specs.Prelude.{◌≡◌, length, is_some, IfSome, IsTrue};
ghost use Rattle.vx_model.specs.TyView.{ty};
ghost use Rattle.vx_column.specs.ColumnView.{column_cells};
ghost use Rattle.vx_model.specs.ChunkData.{piece_type, pieces_of, cells, joined_cells, is_sound, are_sound, is_simple, is_chunked};
ghost use Rattle.vx_chunk.specs.ChunkView.{node_piece};
ghost use Rattle.vx_chunk.specs.Encoded.{encoding_of};
ghost use Rattle.vx_chunk.specs.Parts.{keeps_cells};

use crate::node::{Chunk, Node};
use std::fmt;
use vx_column::Column;
use vx_model::{DType, EncodingId};

impl Chunk {
    /// How the rows are held.
    pub fn node(&self) -> &Node
        ensures seen { node_piece result.now ≡ self.now }
        ensures sound { IsTrue (is_sound self.now) }
    {
        &self.node
    }

    /// Does nothing; tells a caller's proof that the chunk meets its constructors' conditions.
    pub fn sound(&self)
        ensures { IsTrue (is_sound self.now) }
    {
        let _ = &self.node;
    }

    /// Rows.
    #[tactic(auto, using(crate::proofs::Lengths::length_rules))]
    pub fn len(&self) -> u64
        ensures rows { result ≡ length (cells self.now) }
        ensures sound { IsTrue (is_sound self.now) }
    {
        match &self.node {
            Node::Plain { column, .. } => column.len() as u64,
            Node::Constant { rows, .. } | Node::Struct { rows, .. } => *rows,
            Node::Dict { codes, .. } => codes.len(),
            Node::Chunked { parts, .. } => {
                let mut rows = 0;
                for part in parts {
                    rows += part.len();
                }
                rows
            }
            Node::List { offsets, .. } => (offsets.len() - 1) as u64,
            Node::Extension { storage, .. } => storage.len(),
        }
    }

    /// The type. A dictionary has its values' type.
    pub fn dtype(&self) -> &DType
        ensures { ty result.now ≡ piece_type self.now }
    {
        match &self.node {
            Node::Plain { dtype, .. } | Node::Constant { dtype, .. } => dtype,
            Node::Dict { values, .. } => values.dtype(),
            Node::Chunked { dtype, .. } | Node::List { dtype, .. } => dtype,
            Node::Struct { dtype, .. } | Node::Extension { dtype, .. } => dtype,
        }
    }

    /// The rows where they are held as a column: those of a plain chunk, and of an extension over such a chunk.
    pub fn as_column(&self) -> Option<&Column>
        ensures cells { IfSome result (λ c. column_cells c.now ≡ cells self.now) }
        ensures kept { is_some result ≡ keeps_cells self.now }
    {
        match &self.node {
            Node::Plain { column, .. } => Some(column),
            Node::Extension { storage, .. } => storage.as_column(),
            Node::Constant { .. } | Node::Dict { .. } | Node::Chunked { .. } => None,
            Node::List { .. } | Node::Struct { .. } => None,
        }
    }

    /// How its rows are held; the encoding of its segment.
    pub fn encoding(&self) -> EncodingId
        ensures { result ≡ encoding_of self.now }
    {
        match &self.node {
            Node::Plain { .. } => EncodingId::Plain,
            Node::Constant { .. } => EncodingId::Constant,
            Node::Dict { .. } => EncodingId::Dict,
            Node::Chunked { .. } => EncodingId::Chunked,
            Node::List { .. } => EncodingId::List,
            Node::Struct { .. } => EncodingId::Struct,
            Node::Extension { .. } => EncodingId::Extension,
        }
    }

    /// Whether the rows are held as plain cells, or as one cell.
    pub fn is_simple(&self) -> bool
        ensures { result ≡ is_simple self.now }
    {
        matches!(&self.node, Node::Plain { .. } | Node::Constant { .. })
    }

    /// Whether it is a list of chunks, one after the other.
    pub fn is_chunked(&self) -> bool
        ensures { result ≡ is_chunked self.now }
    {
        matches!(&self.node, Node::Chunked { .. })
    }
}

/// Does nothing; tells a caller's proof that each chunk meets its constructors' conditions.
#[tactic(auto, using(crate::proofs::Parts::sound_rules))]
pub fn all_sound(chunks: &[Chunk])
    ensures { IsTrue (are_sound (pieces_of chunks.now)) }
{
    for chunk in chunks {
        chunk.sound();
    }
}

/// The rows of all, exactly.
#[tactic(auto, using(crate::proofs::Lengths::length_rules))]
pub(crate) fn total_rows(chunks: &[Chunk]) -> u128
    ensures { result ≡ length (joined_cells (pieces_of chunks.now)) }
{
    let mut rows = 0;
    for chunk in chunks {
        rows += u128::from(chunk.len());
    }
    rows
}

impl fmt::Debug for Chunk {
    ghost use Rattle.std.specs.Prelude.{None};

    ghost debug_output = { λ c. None };

    /// The encoding, the type and the number of rows.
    fn fmt<W: fmt::Write>(&self, f: &mut fmt::Formatter<W>) -> fmt::Result {
        let encoding = self.encoding();
        let dtype = self.dtype();
        let rows = self.len();
        write!(f, "{encoding:?} {dtype} of {rows} rows")
    }
}
