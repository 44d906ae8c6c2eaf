//! Copies of chunks. Typed values are shared.

ghost use Rattle.std.specs.Prelude.{◌≡◌, IfOk};
ghost use Rattle.vx_chunk.specs.ChunkView.{node_piece};

use crate::node::{Chunk, Node};
use std::alloc::AllocError;

impl Clone for Chunk {
    ghost is_clone = { λ c copy. copy ≡ c };

    fn clone(&self) -> Result<Chunk, AllocError> {
        copy(self)
    }
}

#[cycle(copy)]
#[tactic(auto, using(crate::proofs::Copies::copy_rules))]
fn copy(chunk: &Chunk) -> Result<Chunk, AllocError>
    ensures { IfOk result (λ c. c ≡ chunk.now) }
{
    let node = copy_node(&chunk.node)?;
    Ok(Chunk { node })
}

#[cycle(copy)]
#[tactic(auto, using(crate::proofs::Copies::copy_rules))]
fn copy_node(node: &Node) -> Result<Node, AllocError>
    ensures { IfOk result (λ n. node_piece n ≡ node_piece node.now) }
{
    match node {
        Node::Plain { dtype, column } => Ok(Node::Plain {
            column: column.clone()?,
            dtype: dtype.clone()?,
        }),
        Node::Constant { dtype, cell, rows } => Ok(Node::Constant {
            cell: cell.clone()?,
            rows: *rows,
            dtype: dtype.clone()?,
        }),
        Node::Dict { codes, values } => Ok(Node::Dict {
            codes: copy_box(codes)?,
            values: copy_box(values)?,
        }),
        Node::Chunked { dtype, parts } => Ok(Node::Chunked {
            parts: copy_all(parts)?,
            dtype: dtype.clone()?,
        }),
        Node::List {
            dtype,
            elements,
            offsets,
            valid,
        } => Ok(Node::List {
            elements: copy_box(elements)?,
            offsets: Vec::from_slice(*offsets.allocator(), offsets)?,
            valid: Vec::from_slice(*valid.allocator(), valid)?,
            dtype: dtype.clone()?,
        }),
        Node::Struct {
            dtype,
            fields,
            valid,
            rows,
        } => Ok(Node::Struct {
            fields: copy_all(fields)?,
            valid: Vec::from_slice(*valid.allocator(), valid)?,
            rows: *rows,
            dtype: dtype.clone()?,
        }),
        Node::Extension { dtype, storage } => Ok(Node::Extension {
            storage: copy_box(storage)?,
            dtype: dtype.clone()?,
        }),
    }
}

#[cycle(copy)]
fn copy_box(chunk: &Box<Chunk>) -> Result<Box<Chunk>, AllocError>
    ensures { IfOk result (λ c. c.value ≡ chunk.now.value) }
{
    Ok(Box::new(*Box::allocator(chunk), copy(chunk)?)?)
}

#[cycle(copy)]
#[tactic(auto, using(crate::proofs::Copies::copy_rules))]
pub(crate) fn copy_all(chunks: &Vec<Chunk>) -> Result<Vec<Chunk>, AllocError>
    ensures { IfOk result (λ v. v.items ≡ chunks.now.items) }
{
    let mut copies = Vec::with_capacity(*chunks.allocator(), chunks.len())?;
    for chunk in chunks {
        copies.push(copy(chunk)?)?;
    }
    Ok(copies)
}
