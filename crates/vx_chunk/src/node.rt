//! How a chunk's rows are held.

ghost use Rattle.std.specs.Prelude.{◌≡◌, IsTrue};
ghost use Rattle.vx_model.specs.ChunkData.{is_sound};
ghost use Rattle.vx_chunk.specs.ChunkView.{node_piece};

use std::marker::Model;
use vx_column::Column;
use vx_model::{Cell, DType};

/// How rows are held. A list or a struct that isn't nullable has no flags.
#[derive(Drop)]
#[cycle(chunk)]
pub enum Node {
    /// The rows themselves, typed values or cells.
    Plain {
        dtype: DType,
        column: Column,
    },
    /// One cell, once a row.
    Constant {
        dtype: DType,
        cell: Cell,
        rows: u64,
    },
    /// Row i is the value whose place is code i.
    Dict {
        codes: Box<Chunk>,
        values: Box<Chunk>,
    },
    /// The rows of the parts, joined.
    Chunked {
        dtype: DType,
        parts: Vec<Chunk>,
    },
    /// Row i has the elements from offset i to offset i + 1.
    List {
        dtype: DType,
        elements: Box<Chunk>,
        offsets: Vec<u64>,
        valid: Vec<bool>,
    },
    /// Row i has cell i of each field.
    Struct {
        dtype: DType,
        fields: Vec<Chunk>,
        valid: Vec<bool>,
        rows: u64,
    },
    /// The storage's rows under a type of its own.
    Extension {
        dtype: DType,
        storage: Box<Chunk>,
    },
}

/// Rows of one type.
#[cycle(chunk)]
pub struct Chunk {
    pub(crate) node: Node,
}

impl Model for Chunk {
    ghost use Rattle.std.specs.Prelude.{IsTrue};
    ghost use Rattle.vx_model.specs.ChunkData.{ChunkData, is_sound};
    ghost use Rattle.vx_chunk.specs.ChunkCode.{piece_code};

    ghost Value = { ChunkData };

    ghost coded = { piece_code };

    ghost use Rattle.vx_chunk.specs.ChunkView.{node_piece};

    ghost view = { λ c. node_piece c.node };

    ghost invariant = { λ c. IsTrue (is_sound (node_piece c.node)) };

    ghost use Rattle.vx_chunk.specs.Depth.{depth};

    ghost size = { depth };

    ghost use Rattle.vx_chunk.specs.NodeDepth.{depth_falls};

    ghost size_decreases = { λ c h. depth_falls c.node };
}

// Written out, so that whoever drops one makes a call, and no proof goes through its nodes again.
impl Drop for Chunk {
    #[cycle(chunk)]
    fn drop(self) {
        let Chunk { node } = self;
        match node {
            Node::Chunked {
                dtype: _dtype,
                parts,
            } => drop(parts),
            Node::Struct {
                dtype: _dtype,
                fields,
                valid: _valid,
                rows: _,
            } => drop(fields),
            other => drop(other),
        }
    }
}

impl Chunk {
    /// How its rows were held.
    pub(crate) fn into_node(self) -> Node
        ensures piece { node_piece result ≡ self }
        ensures sound { IsTrue (is_sound (node_piece result)) }
    {
        let Chunk { node } = self;
        node
    }
}
