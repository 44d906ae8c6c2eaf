//! The rows of a chunk as cells.

ghost use Rattle.std.specs.Prelude.{◌≡◌, ◌++◌, ◌≤◌, ◌-◌, length, map, IsTrue, IfOk, IfErr, OnOk};
ghost use Rattle.vx_model.specs.TreeView.{tree};
ghost use Rattle.vx_model.specs.ChunkData.{pieces_of, cells as cells_in, joined_cells, list_rows, struct_rows, picked, is_simple, are_offsets};
ghost use Rattle.vx_chunk_cells.specs.Window.{window};
ghost use Rattle.vx_column.specs.ColumnView.{column_cells};
ghost use Rattle.vx_chunk.specs.Rows.{have_rows, column, value_at};

use crate::error::ChunkError;
use crate::node::{Chunk, Node};
use std::alloc::{AllocError, Global};
use vx_chunk_cells::{
    empty_rows, flags_from, offsets_between, push_copies, push_each, push_lists, push_structs,
};
use vx_column::{Column, place_of};
use vx_model::Cell;

impl Chunk {
    /// The rows as cells, a copy. Those below an invalid list or struct are kept.
    pub fn cells(&self, alloc: Global) -> Result<Vec<Cell>, ChunkError>
        ensures cells { IfOk result (λ v. map tree v.items ≡ cells_in self.now) }
        ensures memory { IfErr result (λ e. e ≡ ChunkError.OutOfMemory) }
    {
        Ok(cells_between(self, alloc, 0, self.len())?)
    }
}

/// The cells of rows `from` to `to`.
#[cycle(cells)]
#[tactic(auto, using(crate::proofs::RowSteps::row_rules))]
pub(crate) fn cells_between(
    chunk: &Chunk,
    alloc: Global,
    from: u64,
    to: u64,
) -> Result<Vec<Cell>, AllocError>
    requires order { from ≤ to }
    requires within { to ≤ length (cells_in chunk.now) }
    ensures { IfOk result (λ v. map tree v.items ≡ window from to (cells_in chunk.now)) }
{
    let mut cells = Vec::with_capacity(alloc, (to - from) as usize)?;
    push_between(chunk, from, to, &mut cells)?;
    Ok(cells)
}

#[cycle(cells)]
#[tactic(auto, using(crate::proofs::RowSteps::row_rules))]
pub(crate) fn push_between(
    chunk: &Chunk,
    from: u64,
    to: u64,
    out: &mut Vec<Cell>,
) -> Result<(), AllocError>
    requires order { from ≤ to }
    requires within { to ≤ length (cells_in chunk.now) }
    ensures { OnOk result (map tree out.new.items ≡ map tree out.old.items ++ window from to (cells_in chunk.now)) }
{
    match &chunk.node {
        Node::Plain { column, .. } => column.push_between(from, to, out),
        Node::Constant { cell, .. } => push_copies(cell, to - from, out),
        Node::Dict { codes, values } => push_values(codes, values, from, to, out),
        Node::Chunked { parts, .. } => push_parts(parts, from, to, out),
        Node::List {
            elements,
            offsets,
            valid,
            ..
        } => {
            let offsets = offsets_between(offsets, from, to);
            push_elements(elements, offsets, flags_from(valid, from), out)
        }
        Node::Struct { fields, valid, .. } => push_fields(
            fields,
            from,
            to,
            flags_from(valid, from),
            out,
        ),
        Node::Extension { storage, .. } => push_between(storage, from, to, out),
    }
}

#[cycle(cells)]
#[tactic(auto, using(crate::proofs::RowSteps::row_rules))]
fn push_parts(parts: &[Chunk], from: u64, to: u64, out: &mut Vec<Cell>) -> Result<(), AllocError>
    requires { from ≤ to }
    ensures { OnOk result (map tree out.new.items ≡ map tree out.old.items ++ window from to (joined_cells (pieces_of parts.now))) }
{
    let mut start = from;
    let mut end = to;
    for part in parts {
        let rows = part.len();
        push_between(part, start.min(rows), end.min(rows), out)?;
        start = start.saturating_sub(rows);
        end = end.saturating_sub(rows);
    }
    Ok(())
}

/// Lists of the elements between each offset and the next.
#[cycle(cells)]
#[tactic(auto, using(crate::proofs::RowSteps::row_rules))]
fn push_elements(
    elements: &Chunk,
    offsets: &[u64],
    valid: &[bool],
    out: &mut Vec<Cell>,
) -> Result<(), AllocError>
    requires { IsTrue (are_offsets (length (cells_in elements.now)) offsets.now) }
    ensures { OnOk result (map tree out.new.items ≡ map tree out.old.items ++ list_rows (cells_in elements.now) offsets.now valid.now) }
{
    let first = offsets[0];
    let last = offsets[offsets.len() - 1];
    let elements = cells_between(elements, *out.allocator(), first, last)?;
    push_lists(elements, offsets, valid, out)
}

/// Structs of the fields' rows `from` to `to`.
#[cycle(cells)]
#[tactic(auto, using(crate::proofs::RowSteps::row_rules))]
fn push_fields(
    fields: &[Chunk],
    from: u64,
    to: u64,
    valid: &[bool],
    out: &mut Vec<Cell>,
) -> Result<(), AllocError>
    requires order { from ≤ to }
    requires within { IsTrue (have_rows to fields.now) }
    ensures { OnOk result (map tree out.new.items ≡ map tree out.old.items ++ struct_rows (to - from) (map (column from to) fields.now) valid.now) }
{
    let alloc = *out.allocator();
    let mut rows = empty_rows(alloc, (to - from) as usize, fields.len())?;
    for field in fields {
        let column = cells_between(field, alloc, from, to)?;
        push_each(&mut rows, column)?;
    }
    push_structs(rows, valid, out)
}

/// The values at the codes of rows `from` to `to`.
#[tactic(auto, using(crate::proofs::RowSteps::row_rules))]
fn push_values(
    codes: &Chunk,
    values: &Chunk,
    from: u64,
    to: u64,
    out: &mut Vec<Cell>,
) -> Result<(), AllocError>
    requires codes { IsTrue (is_simple codes.now) }
    requires values { IsTrue (is_simple values.now) }
    requires order { from ≤ to }
    requires within { to ≤ length (cells_in codes.now) }
    ensures { OnOk result (map tree out.new.items ≡ map tree out.old.items ++ map (picked (cells_in values.now)) (window from to (cells_in codes.now))) }
{
    match &codes.node {
        Node::Plain { column, .. } => push_picked(values, column, from, to, out),
        Node::Constant { cell, .. } => {
            let alloc = *out.allocator();
            push_copies(&pick(values, alloc, place_of(cell))?, to - from, out)
        }
        Node::Dict { .. } | Node::Chunked { .. } | Node::List { .. } => unreachable!(),
        Node::Struct { .. } | Node::Extension { .. } => unreachable!(),
    }
}

/// The values at the codes of rows `from` to `to` of the column.
#[tactic(auto, using(crate::proofs::RowSteps::pick_rules))]
fn push_picked(
    values: &Chunk,
    codes: &Column,
    from: u64,
    to: u64,
    out: &mut Vec<Cell>,
) -> Result<(), AllocError>
    requires values { IsTrue (is_simple values.now) }
    requires order { from ≤ to }
    requires within { to ≤ length (column_cells codes.now) }
    ensures { OnOk result (map tree out.new.items ≡ map tree out.old.items ++ map (picked (cells_in values.now)) (window from to (column_cells codes.now))) }
{
    let alloc = *out.allocator();
    for row in from..to {
        out.push(pick(values, alloc, codes.place(row as usize))?)?;
    }
    Ok(())
}

/// The value at a place; null where there is none.
#[tactic(auto, using(crate::proofs::RowSteps::pick_rules))]
fn pick(values: &Chunk, alloc: Global, place: Option<u128>) -> Result<Cell, AllocError>
    requires { IsTrue (is_simple values.now) }
    ensures { IfOk result (λ c. tree c ≡ value_at (cells_in values.now) place) }
{
    let Some(place) = place else {
        return Ok(Cell::Null);
    };
    if place >= u128::from(values.len()) {
        return Ok(Cell::Null);
    }
    match &values.node {
        Node::Plain { column, .. } => column.get(alloc, place as usize),
        Node::Constant { cell, .. } => cell.clone(),
        Node::Dict { .. } | Node::Chunked { .. } | Node::List { .. } => unreachable!(),
        Node::Struct { .. } | Node::Extension { .. } => unreachable!(),
    }
}
