//! The elements of list chunks.

ghost use Rattle.std.specs.Prelude.{◌≡◌, ◌∷◌, ◌++◌, ◌<◌, ◌≤◌, ◌-◌, ◌*◌, ◌^◌, length, map, IsTrue, IfOk, IfErr, OnOk};
ghost use Rattle.vx_model.specs.Words.{head_or, tail};
ghost use Rattle.vx_model.specs.Ty.{is_list};
ghost use Rattle.vx_model.specs.TreeView.{tree};
ghost use Rattle.vx_model.specs.ChunkData.{piece_type, pieces_of, plain_piece, cells as cells_in, joined_cells, are_offsets};
ghost use Rattle.vx_chunk_cells.specs.Window.{window, last_of, counted};
ghost use Rattle.vx_chunk_cells.specs.Parts.{element_type};
ghost use Rattle.vx_layout_spec.specs.Parts.{flag_of as is_valid, all_elements, ends};
ghost use Rattle.vx_chunk.specs.Conditions.{IsTooLarge};
ghost use Rattle.vx_chunk.specs.Parts.{is_plain, keeps_elements};

use crate::error::ChunkError;
use crate::flags::flags;
use crate::node::{Chunk, Node};
use crate::rows::push_between;
use std::alloc::{AllocError, Global};
use vx_chunk_cells::{
    copied_elements, cover, items_of, push_copies_apart, push_counted, push_same_offset, span_len,
};
use vx_model::Cell;

impl Chunk {
    /// The elements of all rows of a list chunk, plain, those of invalid rows too; where each row's begin, and where
    /// the last row's end; and whether each row is valid, all true where the type isn't nullable.
    #[tactic(auto, using(crate::proofs::ElementSteps::span_rules))]
    pub fn list_parts(&self, alloc: Global) -> Result<(Chunk, Vec<u64>, Vec<bool>), ChunkError>
        requires { IsTrue (is_list (piece_type self.now)) }
        ensures elements { IfOk result (λ r. r.0 ≡ plain_piece (element_type (piece_type self.now)) (all_elements (cells_in self.now))) }
        ensures offsets { IfOk result (λ r. r.1.items ≡ 0 ∷ ends 0 (cells_in self.now)) }
        ensures valid { IfOk result (λ r. r.2.items ≡ map is_valid (cells_in self.now)) }
        ensures fits { IfOk result (λ r. length (all_elements (cells_in self.now)) < 2 ^ 64) }
        ensures refused { IfErr result (IsTooLarge (length (all_elements (cells_in self.now)))) }
    {
        self.sound();
        let count = element_count(self);
        if count > u128::from(u64::MAX) {
            return Err(ChunkError::TooLarge(count));
        }
        let mut elements = Vec::with_capacity(alloc, count as usize)?;
        let mut offsets = Vec::with_capacity(alloc, (self.len() as usize).saturating_add(1))?;
        offsets.push(0)?;
        push_lists_apart(self, &mut elements, &mut offsets)?;
        let valid = flags(self, alloc)?;
        let dtype = items_of(self.dtype()).clone()?;
        Ok((Chunk::typed(alloc, dtype, elements)?, offsets, valid))
    }

    /// The same parts. Plain elements of which each stands in a row are moved, with their offsets, where these begin at
    /// 0; else all is copied.
    pub fn into_list_parts(self, alloc: Global) -> Result<(Chunk, Vec<u64>, Vec<bool>), ChunkError>
        requires { IsTrue (is_list (piece_type self)) }
        ensures elements { IfOk result (λ r. r.0 ≡ plain_piece (element_type (piece_type self)) (all_elements (cells_in self))) }
        ensures offsets { IfOk result (λ r. r.1.items ≡ 0 ∷ ends 0 (cells_in self)) }
        ensures valid { IfOk result (λ r. r.2.items ≡ map is_valid (cells_in self)) }
        ensures fits { IfOk result (λ r. length (all_elements (cells_in self)) < 2 ^ 64) }
        ensures refused { IfErr result (IsTooLarge (length (all_elements (cells_in self)))) }
    {
        if !keeps_elements(&self) {
            let parts = self.list_parts(alloc);
            drop(self);
            return parts;
        }
        let Ok(valid) = flags(&self, alloc) else {
            drop(self);
            return Err(ChunkError::OutOfMemory);
        };
        let node = self.into_node();
        match node {
            Node::List {
                dtype,
                elements,
                offsets,
                ..
            } => {
                drop(dtype);
                Ok((Box::into_inner(elements), offsets, valid))
            }
            Node::Plain { .. } | Node::Constant { .. } | Node::Dict { .. } => unreachable!(),
            Node::Chunked { .. } | Node::Struct { .. } | Node::Extension { .. } => unreachable!(),
        }
    }
}

/// Whether the elements are plain, and just those of the rows, in their places.
fn keeps_elements(chunk: &Chunk) -> bool
    ensures { result ≡ keeps_elements chunk.now }
{
    match &chunk.node {
        Node::List {
            elements,
            offsets,
            ..
        } => is_plain(elements) && cover(offsets, elements.len()),
        Node::Plain { .. } | Node::Constant { .. } | Node::Dict { .. } => false,
        Node::Chunked { .. } | Node::Struct { .. } | Node::Extension { .. } => false,
    }
}

fn is_plain(chunk: &Chunk) -> bool
    ensures { result ≡ is_plain chunk.now }
{
    matches!(&chunk.node, Node::Plain { .. })
}

/// Elements of all rows.
#[cycle(counts)]
#[tactic(auto, using(crate::proofs::ElementSteps::element_rules))]
fn element_count(chunk: &Chunk) -> u128
    ensures count { result ≡ length (all_elements (cells_in chunk.now)) }
    ensures bound { result ≤ length (cells_in chunk.now) * (2 ^ 64 - 1) }
{
    match &chunk.node {
        Node::Plain { column, .. } => column.count_elements(),
        Node::Constant { cell, rows, .. } => copied_elements(cell, *rows),
        Node::Dict { .. } | Node::Struct { .. } => 0,
        Node::Chunked { parts, .. } => elements_in(parts),
        Node::List { offsets, .. } => span_len(offsets),
        Node::Extension { storage, .. } => element_count(storage),
    }
}

#[cycle(counts)]
#[tactic(auto, using(crate::proofs::ElementSteps::element_rules))]
fn elements_in(parts: &[Chunk]) -> u128
    requires { length (joined_cells (pieces_of parts.now)) < 2 ^ 64 }
    ensures count { result ≡ length (all_elements (joined_cells (pieces_of parts.now))) }
    ensures bound { result ≤ length (joined_cells (pieces_of parts.now)) * (2 ^ 64 - 1) }
{
    let mut total: u128 = 0;
    for part in parts {
        total += element_count(part);
    }
    total
}

/// The elements of all rows behind the elements, and where each row's end behind the offsets.
#[cycle(apart)]
#[tactic(auto, using(crate::proofs::ElementSteps::element_rules))]
fn push_lists_apart(
    chunk: &Chunk,
    elements: &mut Vec<Cell>,
    offsets: &mut Vec<u64>,
) -> Result<(), AllocError>
    ensures elements { OnOk result (map tree elements.new.items ≡ map tree elements.old.items ++ all_elements (cells_in chunk.now)) }
    ensures offsets { OnOk result (offsets.new.items ≡ offsets.old.items ++ ends (length elements.old.items) (cells_in chunk.now)) }
{
    match &chunk.node {
        Node::Plain { column, .. } => column.push_apart(elements, offsets),
        Node::Constant { cell, rows, .. } => push_copies_apart(cell, *rows, elements, offsets),
        Node::Dict { codes, .. } => {
            push_same_offset(elements.len() as u64, codes.len(), offsets)
        }
        Node::Chunked { parts, .. } => push_parts_apart(parts, elements, offsets),
        Node::List {
            elements: source,
            offsets: spans,
            ..
        } => push_spans(source, spans, elements, offsets),
        Node::Struct { rows, .. } => push_same_offset(elements.len() as u64, *rows, offsets),
        Node::Extension { storage, .. } => push_lists_apart(storage, elements, offsets),
    }
}

#[cycle(apart)]
#[tactic(auto, using(crate::proofs::ElementSteps::element_rules))]
fn push_parts_apart(
    parts: &[Chunk],
    elements: &mut Vec<Cell>,
    offsets: &mut Vec<u64>,
) -> Result<(), AllocError>
    ensures elements { OnOk result (map tree elements.new.items ≡ map tree elements.old.items ++ all_elements (joined_cells (pieces_of parts.now))) }
    ensures offsets { OnOk result (offsets.new.items ≡ offsets.old.items ++ ends (length elements.old.items) (joined_cells (pieces_of parts.now))) }
{
    for part in parts {
        push_lists_apart(part, elements, offsets)?;
    }
    Ok(())
}

/// The elements from the first place to the last, and the places but the first, counted from where these begin.
#[tactic(auto, using(crate::proofs::ElementSteps::span_rules))]
fn push_spans(
    source: &Chunk,
    places: &[u64],
    elements: &mut Vec<Cell>,
    offsets: &mut Vec<u64>,
) -> Result<(), AllocError>
    requires { IsTrue (are_offsets (length (cells_in source.now)) places.now) }
    ensures elements { OnOk result (map tree elements.new.items ≡ map tree elements.old.items ++ window (head_or 0 places.now) (last_of places.now) (cells_in source.now)) }
    ensures offsets { OnOk result (offsets.new.items ≡ offsets.old.items ++ counted (length elements.old.items) (head_or 0 places.now) (tail places.now)) }
{
    let base = elements.len() as u64;
    push_between(source, places[0], places[places.len() - 1], elements)?;
    push_counted(base, places, offsets)
}
