//! Some of a chunk's rows, in the same encoding.

ghost use Rattle.std.specs.Prelude.{◌≡◌, ◌≤◌, length, IsTrue, IfOk, IfErr};
ghost use Rattle.vx_model.specs.Words.{head_or};
ghost use Rattle.vx_model.specs.TyView.{ty};
ghost use Rattle.vx_model.specs.ChunkData.{pieces_of, piece_type, cells as cells_in, is_sound, are_offsets, plain_piece, dict_piece, list_piece, struct_piece, extension_piece};
ghost use Rattle.vx_column.specs.ColumnView.{column_cells};
ghost use Rattle.vx_chunk.specs.ChunkView.{node_piece};
ghost use Rattle.vx_chunk.specs.Encoded.{encoding_of};
ghost use Rattle.vx_chunk_cells.specs.Window.{window, rebased, last_of, Within};
ghost use Rattle.vx_chunk.specs.Rows.{have_rows};
ghost use Rattle.vx_chunk.specs.Slice.{sliced, sliced_parts, sliced_each};

use crate::error::ChunkError;
use crate::node::{Chunk, Node};
use std::alloc::{AllocError, Global};
use vx_chunk_cells::{flags_between, offsets_between, rebase};
use vx_column::Column;
use vx_model::DType;

impl Chunk {
    /// Rows `from` to `to`, the last not included. Typed values are shared; else what these rows need
    /// is copied, and the values of a dictionary.
    pub fn slice(&self, alloc: Global, from: u64, to: u64) -> Result<Chunk, ChunkError>
        requires order { from ≤ to }
        requires within { to ≤ length (cells_in self.now) }
        ensures cells { IfOk result (λ c. cells_in c ≡ window from to (cells_in self.now)) }
        ensures dtype { IfOk result (λ c. piece_type c ≡ piece_type self.now) }
        ensures encoding { IfOk result (λ c. encoding_of c ≡ encoding_of self.now) }
        ensures memory { IfErr result (λ e. e ≡ ChunkError.OutOfMemory) }
    {
        self.sound();
        Ok(cut(self, alloc, from, to)?)
    }
}

#[cycle(slice)]
#[tactic(auto, using(crate::proofs::SliceSteps::slice_rules))]
fn cut(chunk: &Chunk, alloc: Global, from: u64, to: u64) -> Result<Chunk, AllocError>
    requires order { from ≤ to }
    requires within { to ≤ length (cells_in chunk.now) }
    ensures { IfOk result (λ c. c ≡ sliced chunk.now from to) }
{
    let node = cut_node(&chunk.node, alloc, from, to)?;
    Ok(Chunk { node })
}

#[cycle(slice)]
#[tactic(auto, using(crate::proofs::SliceSteps::slice_rules))]
fn cut_node(node: &Node, alloc: Global, from: u64, to: u64) -> Result<Node, AllocError>
    requires sound { IsTrue (is_sound (node_piece node.now)) }
    requires order { from ≤ to }
    requires within { to ≤ length (cells_in (node_piece node.now)) }
    ensures { IfOk result (λ n. node_piece n ≡ sliced (node_piece node.now) from to) }
{
    match node {
        Node::Plain { dtype, column } => cut_plain(dtype, column, alloc, from, to),
        Node::Constant { dtype, cell, .. } => Ok(Node::Constant {
            cell: cell.clone()?,
            rows: to - from,
            dtype: dtype.clone()?,
        }),
        Node::Dict { codes, values } => {
            let codes = cut(codes, alloc, from, to)?;
            with_values(codes, values, alloc)
        }
        Node::Chunked { dtype, parts } => Ok(Node::Chunked {
            dtype: dtype.clone()?,
            parts: cut_parts(parts, alloc, from, to)?,
        }),
        Node::List {
            dtype,
            elements,
            offsets,
            valid,
        } => {
            let offsets = offsets_between(offsets, from, to);
            cut_list(
                dtype,
                elements,
                offsets,
                flags_between(valid, from, to),
                alloc,
            )
        }
        Node::Struct {
            dtype,
            fields,
            valid,
            ..
        } => {
            let fields = cut_each(fields, alloc, from, to)?;
            struct_of(dtype, fields, flags_between(valid, from, to), to - from)
        }
        Node::Extension { dtype, storage } => {
            let storage = cut(storage, alloc, from, to)?;
            extension_of(dtype, storage, alloc)
        }
    }
}

/// A list of these offsets, with the elements between the first and the last.
#[cycle(slice)]
#[tactic(auto, using(crate::proofs::SliceSteps::slice_rules))]
fn cut_list(
    dtype: &DType,
    elements: &Chunk,
    offsets: &[u64],
    valid: &[bool],
    alloc: Global,
) -> Result<Node, AllocError>
    requires { IsTrue (are_offsets (length (cells_in elements.now)) offsets.now) }
    ensures { IfOk result (λ n. node_piece n ≡ list_piece (ty dtype.now) (sliced elements.now (head_or 0 offsets.now) (last_of offsets.now)) (rebased (head_or 0 offsets.now) offsets.now) valid.now) }
{
    let first = offsets[0];
    let last = offsets[offsets.len() - 1];
    let elements = cut(elements, alloc, first, last)?;
    list_of(dtype, elements, offsets, valid, alloc)
}

/// The parts that have one of the rows, each cut to these.
#[cycle(slice)]
#[tactic(auto, using(crate::proofs::SliceSteps::slice_rules))]
fn cut_parts(parts: &[Chunk], alloc: Global, from: u64, to: u64) -> Result<Vec<Chunk>, AllocError>
    requires { from ≤ to }
    ensures { IfOk result (λ v. pieces_of v.items ≡ sliced_parts (pieces_of parts.now) from to) }
{
    let mut kept = Vec::new(alloc);
    let mut start = from;
    let mut end = to;
    for part in parts {
        let rows = part.len();
        let first = start.min(rows);
        let last = end.min(rows);
        if first < last {
            kept.push(cut(part, alloc, first, last)?)?;
        }
        start = start.saturating_sub(rows);
        end = end.saturating_sub(rows);
    }
    Ok(kept)
}

#[cycle(slice)]
#[tactic(auto, using(crate::proofs::SliceSteps::slice_rules))]
fn cut_each(fields: &[Chunk], alloc: Global, from: u64, to: u64) -> Result<Vec<Chunk>, AllocError>
    requires order { from ≤ to }
    requires within { IsTrue (have_rows to fields.now) }
    ensures { IfOk result (λ v. pieces_of v.items ≡ sliced_each (pieces_of fields.now) from to) }
{
    let mut cuts = Vec::with_capacity(alloc, fields.len())?;
    for field in fields {
        cuts.push(cut(field, alloc, from, to)?)?;
    }
    Ok(cuts)
}

/// Plain rows of a column.
fn cut_plain(
    dtype: &DType,
    column: &Column,
    alloc: Global,
    from: u64,
    to: u64,
) -> Result<Node, AllocError>
    requires order { from ≤ to }
    requires within { to ≤ length (column_cells column.now) }
    ensures { IfOk result (λ n. node_piece n ≡ plain_piece (ty dtype.now) (window from to (column_cells column.now))) }
{
    Ok(Node::Plain {
        dtype: dtype.clone()?,
        column: column.slice(alloc, from, to)?,
    })
}

/// The codes, and the values copied.
fn with_values(codes: Chunk, values: &Chunk, alloc: Global) -> Result<Node, AllocError>
    ensures { IfOk result (λ n. node_piece n ≡ dict_piece codes values.now) }
{
    Ok(Node::Dict {
        codes: Box::new(alloc, codes)?,
        values: Box::new(alloc, values.clone()?)?,
    })
}

/// Lists of the elements, with the offsets counted from the first.
fn list_of(
    dtype: &DType,
    elements: Chunk,
    offsets: &[u64],
    valid: &[bool],
    alloc: Global,
) -> Result<Node, AllocError>
    requires { Within (head_or 0 offsets.now) (last_of offsets.now) offsets.now }
    ensures { IfOk result (λ n. node_piece n ≡ list_piece (ty dtype.now) elements (rebased (head_or 0 offsets.now) offsets.now) valid.now) }
{
    Ok(Node::List {
        dtype: dtype.clone()?,
        elements: Box::new(alloc, elements)?,
        offsets: rebase(alloc, offsets)?,
        valid: Vec::from_slice(alloc, valid)?,
    })
}

/// So many structs of the fields.
fn struct_of(
    dtype: &DType,
    fields: Vec<Chunk>,
    valid: &[bool],
    rows: u64,
) -> Result<Node, AllocError>
    ensures { IfOk result (λ n. node_piece n ≡ struct_piece (ty dtype.now) (pieces_of fields.items) valid.now rows) }
{
    Ok(Node::Struct {
        dtype: dtype.clone()?,
        valid: Vec::from_slice(*fields.allocator(), valid)?,
        fields,
        rows,
    })
}

/// The storage under the type.
fn extension_of(dtype: &DType, storage: Chunk, alloc: Global) -> Result<Node, AllocError>
    ensures { IfOk result (λ n. node_piece n ≡ extension_piece (ty dtype.now) storage) }
{
    Ok(Node::Extension {
        dtype: dtype.clone()?,
        storage: Box::new(alloc, storage)?,
    })
}
