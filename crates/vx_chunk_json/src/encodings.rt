//! A chunk of each encoding from its parts, where they meet the encoding's condition. A chunk that is refused is dropped by
//! a call: written out at each way out of a function, its end makes the proof ten times as long.

ghost use Rattle.std.specs.Prelude.{◌≡◌, Some, codes};
ghost use Rattle.serde_json.specs.View.{items_view, members_view};
ghost use Rattle.vx_model.specs.TyView.{ty};
ghost use Rattle.vx_json.specs.Members.{number_in};
ghost use Rattle.vx_json.specs.Lists.{each};
ghost use Rattle.vx_chunk_json.specs.Causes.{of_made};
ghost use Rattle.vx_chunk_json.specs.Cells.{cell_of, cell_in};
ghost use Rattle.vx_chunk_json.specs.Chunks.{plain_of, constant_of, dict_of, chunked_of, list_of, struct_of, extension_of, code_type, codes_in};
ghost use Rattle.vx_json.specs.Views.{Gives};

use crate::cells::{read_cell, read_cells};
use serde_json::{Map, Value};
use std::alloc::Global;
use vx_chunk::{Chunk, ChunkError};
use vx_chunk_cells::has_storage;
use vx_chunk_conditions::{are_parts, makes_dict, makes_list, makes_struct};
use vx_json::{JsonError, array_at, member, number_at};
use vx_model::{DType, Nullability, PType};

#[tactic(auto, using(crate::proofs::ChunkFits::fit_rules))]
pub(crate) fn read_plain(alloc: Global, dtype: &DType, values: &[Value]) -> Result<Chunk, JsonError>
    ensures { Gives (λ c. c) result (plain_of (ty dtype.now) (each (cell_of (ty dtype.now)) (items_view values.now))) }
{
    let cells = read_cells(alloc, dtype, values)?;
    Ok(Chunk::typed(alloc, dtype.clone()?, cells)?)
}

#[tactic(auto, using(crate::proofs::ChunkFits::fit_rules), unfolding(crate::specs::Chunks::constant_of))]
pub(crate) fn read_constant(
    alloc: Global,
    dtype: &DType,
    members: &Map<String, Value>,
) -> Result<Chunk, JsonError>
    ensures { Gives (λ c. c) result (constant_of (ty dtype.now) (cell_in (ty dtype.now) (codes "constant") (members_view members.now.entries)) (number_in (codes "rows") (members_view members.now.entries))) }
{
    let Some(value) = member(members, "constant") else {
        return Err(JsonError::Wrong);
    };
    let cell = read_cell(alloc, dtype, value)?;
    let Some(rows) = number_at(members, "rows") else {
        return Err(JsonError::Wrong);
    };
    Ok(Chunk::constant(dtype.clone()?, cell, rows))
}

/// The unsigned integer type of that name.
fn read_code_type(name: &str) -> Option<PType>
    ensures { result ≡ code_type name.now }
{
    match name {
        "u8" => Some(PType::U8),
        "u16" => Some(PType::U16),
        "u32" => Some(PType::U32),
        "u64" => Some(PType::U64),
        _ => None,
    }
}

/// A dictionary's codes.
#[tactic(auto, using(crate::proofs::ChunkFits::fit_rules))]
pub(crate) fn read_codes(alloc: Global, members: &Map<String, Value>) -> Result<Chunk, JsonError>
    ensures { Gives (λ c. c) result (codes_in (members_view members.now.entries)) }
{
    let Some(name) = member(members, "ptype") else {
        return Err(JsonError::Wrong);
    };
    let Some(name) = name.as_str() else {
        return Err(JsonError::Wrong);
    };
    let Some(ptype) = read_code_type(name) else {
        return Err(JsonError::Wrong);
    };
    let Some(values) = array_at(members, "dict") else {
        return Err(JsonError::Wrong);
    };
    let dtype = DType::Primitive(ptype, Nullability::NonNullable);
    read_plain(alloc, &dtype, values)
}

/// The chunk. Too many rows are a wrong value.
fn made(chunk: Result<Chunk, ChunkError>) -> Result<Chunk, JsonError>
    ensures { result ≡ of_made chunk }
{
    match chunk {
        Ok(chunk) => Ok(chunk),
        Err(ChunkError::TooLarge(_)) => Err(JsonError::Wrong),
        Err(ChunkError::OutOfMemory) => Err(JsonError::OutOfMemory),
    }
}

#[tactic(auto, unfolding(crate::specs::Chunks::dict_of))]
pub(crate) fn make_dict(alloc: Global, places: Chunk, values: Chunk) -> Result<Chunk, JsonError>
    ensures { Gives (λ c. c) result (dict_of (Some places) (Some values)) }
{
    if !makes_dict(&places, &values) {
        drop(places);
        drop(values);
        return Err(JsonError::Wrong);
    }
    made(Chunk::dict(alloc, places, values))
}

#[tactic(auto, unfolding(crate::specs::Chunks::chunked_of))]
pub(crate) fn make_chunked(dtype: &DType, parts: Vec<Chunk>) -> Result<Chunk, JsonError>
    ensures { Gives (λ c. c) result (chunked_of (ty dtype.now) (Some parts.items)) }
{
    if !are_parts(dtype, &parts) {
        return Err(JsonError::Wrong);
    }
    made(Chunk::chunked(dtype.clone()?, parts))
}

#[tactic(auto, unfolding(crate::specs::Chunks::list_of))]
pub(crate) fn make_list(
    alloc: Global,
    dtype: &DType,
    elements: Chunk,
    offsets: Vec<u64>,
    valid: Vec<bool>,
) -> Result<Chunk, JsonError>
    ensures { Gives (λ c. c) result (list_of (ty dtype.now) (Some elements) (Some offsets.items) (Some valid.items)) }
{
    if !makes_list(dtype, &elements, &offsets, &valid) {
        drop(elements);
        return Err(JsonError::Wrong);
    }
    match dtype.clone() {
        Ok(own) => made(Chunk::list(alloc, own, elements, offsets, valid)),
        Err(_) => {
            drop(elements);
            Err(JsonError::OutOfMemory)
        }
    }
}

#[tactic(auto, unfolding(crate::specs::Chunks::struct_of))]
pub(crate) fn make_struct(
    dtype: &DType,
    fields: Vec<Chunk>,
    valid: Vec<bool>,
    rows: u64,
) -> Result<Chunk, JsonError>
    ensures { Gives (λ c. c) result (struct_of (ty dtype.now) (Some fields.items) (Some valid.items) (Some rows)) }
{
    if !makes_struct(dtype, &fields, &valid, rows) {
        return Err(JsonError::Wrong);
    }
    Ok(Chunk::strukt(dtype.clone()?, fields, valid, rows))
}

#[tactic(auto, unfolding(crate::specs::Chunks::extension_of))]
pub(crate) fn make_extension(
    alloc: Global,
    dtype: &DType,
    storage: Chunk,
) -> Result<Chunk, JsonError>
    ensures { Gives (λ c. c) result (extension_of (ty dtype.now) (Some storage)) }
{
    if !has_storage(dtype, storage.dtype()) {
        drop(storage);
        return Err(JsonError::Wrong);
    }
    match dtype.clone() {
        Ok(own) => made(Chunk::extension(alloc, own, storage)),
        Err(_) => {
            drop(storage);
            Err(JsonError::OutOfMemory)
        }
    }
}
