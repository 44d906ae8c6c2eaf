//! Sizes of chunks.

ghost use Rattle.std.specs.Prelude.{◌≡◌, ◌↔◌, ◌<◌, ◌≤◌, ◌^◌, ◌-◌, ◌*◌, min, length, map, IsTrue, IsOk, IfOk, IfErr};
ghost use Rattle.vx_model.specs.Words.{total_by, head_or};
ghost use Rattle.vx_model.specs.CellData.{cell_size as size_of};
ghost use Rattle.vx_model.specs.ChunkData.{piece_type, pieces_of, cells as cells_in, picked, row_size, held, held_parts, is_simple, are_offsets};
ghost use Rattle.vx_chunk_cells.specs.Window.{window, last_of};
ghost use Rattle.vx_column.specs.ColumnView.{column_cells};
ghost use Rattle.vx_chunk.specs.Conditions.{IsPast, IsFarPast};
ghost use Rattle.vx_chunk.specs.Rows.{have_rows, value_at};
ghost use Rattle.vx_chunk.specs.Sizes.{span_size, span_sizes, each_span_size};

use crate::error::ChunkError;
use crate::node::{Chunk, Node};
use vx_chunk_cells::{cell_size, null_byte, offsets_between, times};
use vx_column::{Column, place_of};
use vx_model::Cell;

impl Chunk {
    /// Bytes that the chunk takes as it is held, takes no memory: a constant's cell and a dictionary's values count
    /// once.
    pub fn nbytes(&self) -> Result<u64, ChunkError>
        ensures ok { IfOk result (λ n. n ≡ held self.now) }
        ensures fits { IsOk result ↔ (held self.now < 2 ^ 64) }
        ensures refused { IfErr result (IsFarPast (held self.now)) }
    {
        in_u64(held_bytes(self))
    }

    /// The sum of the rows' sizes, takes no memory: a constant's cell and a dictionary's values count once a row.
    pub fn row_size(&self) -> Result<u64, ChunkError>
        ensures ok { IfOk result (λ n. n ≡ row_size self.now) }
        ensures fits { IsOk result ↔ (row_size self.now < 2 ^ 64) }
        ensures refused { IfErr result (IsFarPast (row_size self.now)) }
    {
        in_u64(rows_bytes(self))
    }
}

fn in_u64(bytes: u128) -> Result<u64, ChunkError>
    ensures ok { IfOk result (λ n. n ≡ bytes) }
    ensures fits { IsOk result ↔ (bytes < 2 ^ 64) }
    ensures refused { IfErr result (IsPast bytes) }
{
    if bytes > u128::from(u64::MAX) {
        return Err(ChunkError::TooLarge(bytes));
    }
    Ok(bytes as u64)
}

/// The held size, at most the greatest u128.
#[cycle(held)]
#[tactic(auto, using(crate::proofs::SizeSteps::held_rules))]
fn held_bytes(chunk: &Chunk) -> u128
    ensures { result ≡ min (held chunk.now) (2 ^ 128 - 1) }
{
    match &chunk.node {
        Node::Plain { dtype, column } => column.size_between(dtype, 0, column.len() as u64),
        Node::Constant { dtype, cell, .. } => cell_size(dtype, cell),
        Node::Dict { codes, values } => held_bytes(codes).saturating_add(held_bytes(values)),
        Node::Chunked { parts, .. } => all_held(parts),
        Node::List {
            elements,
            offsets,
            valid,
            ..
        } => held_bytes(elements).saturating_add(8 * offsets.len() as u128 + valid.len() as u128),
        Node::Struct { fields, valid, .. } => all_held(fields).saturating_add(valid.len() as u128),
        Node::Extension { storage, .. } => held_bytes(storage),
    }
}

#[cycle(held)]
#[tactic(auto, using(crate::proofs::SizeSteps::held_rules))]
fn all_held(chunks: &[Chunk]) -> u128
    ensures { result ≡ min (held_parts (pieces_of chunks.now)) (2 ^ 128 - 1) }
{
    let mut total: u128 = 0;
    for chunk in chunks {
        total = total.saturating_add(held_bytes(chunk));
    }
    total
}

/// The row size, at most the greatest u128.
fn rows_bytes(chunk: &Chunk) -> u128
    ensures { result ≡ min (row_size chunk.now) (2 ^ 128 - 1) }
{
    span_bytes(chunk, 0, chunk.len())
}

/// The size of rows `from` to `to`, at most the greatest u128.
#[cycle(spans)]
#[tactic(auto, using(crate::proofs::SizeSteps::span_rules))]
fn span_bytes(chunk: &Chunk, from: u64, to: u64) -> u128
    requires order { from ≤ to }
    requires within { to ≤ length (cells_in chunk.now) }
    ensures { result ≡ min (span_size chunk.now from to) (2 ^ 128 - 1) }
{
    match &chunk.node {
        Node::Plain { dtype, column } => column.size_between(dtype, from, to),
        Node::Constant { dtype, cell, .. } => times(to - from, cell_size(dtype, cell)),
        Node::Dict { codes, values } => values_bytes(codes, values, from, to),
        Node::Chunked { parts, .. } => parts_bytes(parts, from, to),
        Node::List {
            dtype,
            elements,
            offsets,
            ..
        } => {
            let offsets = offsets_between(offsets, from, to);
            let heads = times(to - from, 8 + null_byte(dtype.is_nullable()));
            elements_bytes(elements, offsets).saturating_add(heads)
        }
        Node::Struct { dtype, fields, .. } => {
            let flags = times(to - from, null_byte(dtype.is_nullable()));
            fields_bytes(fields, from, to).saturating_add(flags)
        }
        Node::Extension { storage, .. } => span_bytes(storage, from, to),
    }
}

#[cycle(spans)]
#[tactic(auto, using(crate::proofs::SizeSteps::span_rules))]
fn parts_bytes(parts: &[Chunk], from: u64, to: u64) -> u128
    requires { from ≤ to }
    ensures { result ≡ min (span_sizes (pieces_of parts.now) from to) (2 ^ 128 - 1) }
{
    let mut total: u128 = 0;
    let mut start = from;
    let mut end = to;
    for part in parts {
        let rows = part.len();
        total = total.saturating_add(span_bytes(part, start.min(rows), end.min(rows)));
        start = start.saturating_sub(rows);
        end = end.saturating_sub(rows);
    }
    total
}

/// The elements from the first offset to the last.
#[cycle(spans)]
#[tactic(auto, using(crate::proofs::SizeSteps::span_rules))]
fn elements_bytes(elements: &Chunk, offsets: &[u64]) -> u128
    requires { IsTrue (are_offsets (length (cells_in elements.now)) offsets.now) }
    ensures { result ≡ min (span_size elements.now (head_or 0 offsets.now) (last_of offsets.now)) (2 ^ 128 - 1) }
{
    span_bytes(elements, offsets[0], offsets[offsets.len() - 1])
}

#[cycle(spans)]
#[tactic(auto, using(crate::proofs::SizeSteps::span_rules))]
fn fields_bytes(fields: &[Chunk], from: u64, to: u64) -> u128
    requires order { from ≤ to }
    requires within { IsTrue (have_rows to fields.now) }
    ensures { result ≡ min (each_span_size (pieces_of fields.now) from to) (2 ^ 128 - 1) }
{
    let mut total: u128 = 0;
    for field in fields {
        total = total.saturating_add(span_bytes(field, from, to));
    }
    total
}

/// The values at the codes of rows `from` to `to`.
#[tactic(auto, using(crate::proofs::SizeSteps::value_rules))]
fn values_bytes(codes: &Chunk, values: &Chunk, from: u64, to: u64) -> u128
    requires codes { IsTrue (is_simple codes.now) }
    requires values { IsTrue (is_simple values.now) }
    requires order { from ≤ to }
    requires within { to ≤ length (cells_in codes.now) }
    ensures { result ≡ min (total_by (size_of (piece_type values.now)) (map (picked (cells_in values.now)) (window from to (cells_in codes.now)))) (2 ^ 128 - 1) }
{
    match &codes.node {
        Node::Plain { column, .. } => picked_bytes(values, column, from, to),
        Node::Constant { cell, .. } => times(to - from, value_bytes(values, place_of(cell))),
        Node::Dict { .. } | Node::Chunked { .. } | Node::List { .. } => unreachable!(),
        Node::Struct { .. } | Node::Extension { .. } => unreachable!(),
    }
}

/// The values at the codes of rows `from` to `to` of the column.
#[tactic(auto, using(crate::proofs::SizeSteps::value_rules))]
fn picked_bytes(values: &Chunk, codes: &Column, from: u64, to: u64) -> u128
    requires values { IsTrue (is_simple values.now) }
    requires order { from ≤ to }
    requires within { to ≤ length (column_cells codes.now) }
    ensures { result ≡ min (total_by (size_of (piece_type values.now)) (map (picked (cells_in values.now)) (window from to (column_cells codes.now)))) (2 ^ 128 - 1) }
{
    if let Some(size) = values.dtype().element_size() {
        return times(to - from, u128::from(size));
    }
    let mut total: u128 = 0;
    for row in from..to {
        total = total.saturating_add(value_bytes(values, codes.place(row as usize)));
    }
    total
}

/// The value at a place; null where there is none.
#[tactic(auto, using(crate::proofs::SizeSteps::value_rules))]
fn value_bytes(values: &Chunk, place: Option<u128>) -> u128
    requires { IsTrue (is_simple values.now) }
    ensures { result ≡ min (size_of (piece_type values.now) (value_at (cells_in values.now) place)) (2 ^ 128 - 1) }
{
    let Some(place) = place else {
        return cell_size(values.dtype(), &Cell::Null);
    };
    if place >= u128::from(values.len()) {
        return cell_size(values.dtype(), &Cell::Null);
    }
    let place = place as u64;
    match &values.node {
        Node::Plain { dtype, column } => column.size_between(dtype, place, place + 1),
        Node::Constant { cell, .. } => cell_size(values.dtype(), cell),
        Node::Dict { .. } | Node::Chunked { .. } | Node::List { .. } => unreachable!(),
        Node::Struct { .. } | Node::Extension { .. } => unreachable!(),
    }
}
