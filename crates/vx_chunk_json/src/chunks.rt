//! Chunks.

ghost use Rattle.std.specs.Prelude.{◌≡◌, ℕ, List, codes, map, IfSome, IfNone, IfOk, false};
ghost use Rattle.serde_json.specs.Data.{object};
ghost use Rattle.serde_json.specs.View.{view, items_view, members_view};
ghost use Rattle.vx_model.specs.Ty.{Ty, tys_of};
ghost use Rattle.vx_model.specs.ChunkData.{ChunkData, piece_type, has_elements, has_fields, has_storage};
ghost use Rattle.vx_model.specs.TyView.{ty, field_ty};
ghost use Rattle.vx_json.specs.Lists.{each};
ghost use Rattle.vx_chunk_json.specs.Chunks.{has_parts as are_parts, inner_type, dict_of, chunked_of, extension_of, codes_in, chunk_of, chunk_at, chunks_at, list_at, struct_at, columns_at, columns_in};
ghost use Rattle.vx_chunk_cells.specs.Parts.{element_type, struct_fields};
ghost use Rattle.vx_json.specs.Views.{Gives};

use crate::encodings::{
    make_chunked, make_dict, make_extension, make_list, make_struct, read_codes, read_constant,
    read_plain,
};
use crate::lists::{flags_at, numbers_at};
use serde_json::{Map, Value};
use std::alloc::Global;
use vx_chunk::Chunk;
use vx_json::{JsonError, array_at, has_one, has_three, has_two, member, number_at, object_at};
use vx_model::{DType, StructField};

/// The chunk of the type that the value says. Too many rows are a wrong value.
#[tactic(auto, using(crate::proofs::ChunkTypes::type_rules))]
pub fn read_chunk(alloc: Global, dtype: &DType, value: &Value) -> Result<Chunk, JsonError>
    ensures exact { Gives (λ c. c) result (chunk_of (ty dtype.now) (view value.now)) }
    ensures typed { IfOk result (λ c. piece_type c ≡ ty dtype.now) }
{
    chunk_from(alloc, dtype, value)
}

#[cycle(chunks)]
#[tactic(auto, using(crate::proofs::ChunkSteps::chunk_rules))]
fn chunk_from(alloc: Global, dtype: &DType, value: &Value) -> Result<Chunk, JsonError>
    ensures { Gives (λ c. c) result (chunk_of (ty dtype.now) (view value.now)) }
{
    match value {
        Value::Array(values) => read_plain(alloc, dtype, values),
        Value::Object(members) => read_encoded(alloc, dtype, members),
        Value::Null | Value::Bool(_) | Value::Number(_) | Value::String(_) => Err(JsonError::Wrong),
    }
}

#[cycle(chunks)]
#[tactic(auto, using(crate::proofs::ChunkSteps::chunk_rules))]
fn read_encoded(
    alloc: Global,
    dtype: &DType,
    members: &Map<String, Value>,
) -> Result<Chunk, JsonError>
    ensures { Gives (λ c. c) result (chunk_of (ty dtype.now) (object (members_view members.now.entries))) }
{
    if has_two(members, "constant", "rows") {
        return read_constant(alloc, dtype, members);
    }
    if has_three(members, "dict", "ptype", "values") {
        return read_dict(alloc, dtype, members);
    }
    if has_one(members, "chunked") {
        return read_chunked(alloc, dtype, members);
    }
    if has_one(members, "list") {
        return read_list(alloc, dtype, members);
    }
    if has_one(members, "struct") {
        return read_struct(alloc, dtype, members);
    }
    if has_one(members, "ext") {
        return read_extension(alloc, dtype, members);
    }
    Err(JsonError::Wrong)
}

/// The chunk at the key.
#[cycle(chunks)]
#[tactic(auto, using(crate::proofs::ChunkSteps::chunk_rules))]
fn read_chunk_at(
    alloc: Global,
    dtype: &DType,
    members: &Map<String, Value>,
    key: &str,
) -> Result<Chunk, JsonError>
    ensures { Gives (λ c. c) result (chunk_at (ty dtype.now) key.now (members_view members.now.entries)) }
{
    match member(members, key) {
        Some(value) => chunk_from(alloc, dtype, value),
        None => Err(JsonError::Wrong),
    }
}

#[cycle(chunks)]
#[tactic(auto, using(crate::proofs::ChunkSteps::chunk_rules), unfolding(crate::specs::Chunks::dict_of))]
fn read_dict(alloc: Global, dtype: &DType, members: &Map<String, Value>) -> Result<Chunk, JsonError>
    ensures { Gives (λ c. c) result (dict_of (codes_in (members_view members.now.entries)) (chunk_at (ty dtype.now) (codes "values") (members_view members.now.entries))) }
{
    let places = read_codes(alloc, members)?;
    match read_chunk_at(alloc, dtype, members, "values") {
        Ok(values) => make_dict(alloc, places, values),
        Err(error) => {
            drop(places);
            Err(error)
        }
    }
}

#[cycle(chunks)]
#[tactic(auto, using(crate::proofs::ChunkSteps::chunk_rules), unfolding(crate::specs::Chunks::chunked_of))]
fn read_chunked(
    alloc: Global,
    dtype: &DType,
    members: &Map<String, Value>,
) -> Result<Chunk, JsonError>
    ensures { Gives (λ c. c) result (chunked_of (ty dtype.now) (chunks_at (ty dtype.now) (codes "chunked") (members_view members.now.entries))) }
{
    let Some(values) = array_at(members, "chunked") else {
        return Err(JsonError::Wrong);
    };
    let parts = read_chunks(alloc, dtype, values)?;
    make_chunked(dtype, parts)
}

/// The chunks of one type.
#[cycle(chunks)]
#[tactic(auto, using(crate::proofs::ChunkSteps::list_rules))]
fn read_chunks(alloc: Global, dtype: &DType, values: &[Value]) -> Result<Vec<Chunk>, JsonError>
    ensures { Gives (λ v. v.items) result (each (chunk_of (ty dtype.now)) (items_view values.now)) }
{
    let mut parts = Vec::with_capacity(alloc, values.len())?;
    for value in values {
        parts.push(chunk_from(alloc, dtype, value)?)?;
    }
    Ok(parts)
}

/// The type of a list's elements.
#[tactic(auto, using(vx_model::proofs::Views::view_rules))]
fn element_of(dtype: &DType) -> Option<&DType>
    ensures some { IfSome result (λ t. ty t.now ≡ element_type (ty dtype.now)) }
    ensures none { IfNone result ((t : Ty) → has_elements (ty dtype.now) t ≡ false) }
{
    match dtype {
        DType::List(items, _) => Some(items),
        DType::Bool(_) | DType::Primitive(..) | DType::Utf8(_) | DType::Binary(_) => None,
        DType::Struct(..) | DType::Extension(_) => None,
    }
}

/// The fields of a struct.
#[tactic(auto, using(vx_model::proofs::Views::view_rules))]
fn fields_of(dtype: &DType) -> Option<&[StructField]>
    ensures some { IfSome result (λ fs. tys_of (map field_ty fs.now) ≡ struct_fields (ty dtype.now)) }
    ensures none { IfNone result ((ps : List ChunkData) (n : ℕ) → has_fields (ty dtype.now) ps n ≡ false) }
{
    match dtype {
        DType::Struct(fields, _) => Some(&fields.fields),
        DType::Bool(_) | DType::Primitive(..) | DType::Utf8(_) | DType::Binary(_) => None,
        DType::List(..) | DType::Extension(_) => None,
    }
}

/// The type of an extension's storage.
#[tactic(auto, using(vx_model::proofs::Views::view_rules))]
fn storage_of(dtype: &DType) -> Option<&DType>
    ensures some { IfSome result (λ t. ty t.now ≡ inner_type (ty dtype.now)) }
    ensures none { IfNone result ((t : Ty) → has_storage (ty dtype.now) t ≡ false) }
{
    match dtype {
        DType::Extension(ext) => Some(&ext.storage),
        DType::Bool(_) | DType::Primitive(..) | DType::Utf8(_) | DType::Binary(_) => None,
        DType::List(..) | DType::Struct(..) => None,
    }
}

/// Whether the keys are these two, and `valid` exactly where the type is nullable.
fn has_parts(members: &Map<String, Value>, nullable: bool, first: &str, second: &str) -> bool
    ensures { result ≡ are_parts nullable first.now second.now (members_view members.now.entries) }
{
    if nullable {
        has_three(members, first, second, "valid")
    } else {
        has_two(members, first, second)
    }
}

#[cycle(chunks)]
#[tactic(auto, using(crate::proofs::ChunkSteps::chunk_rules), unfolding(crate::specs::Chunks::list_of))]
fn read_list(alloc: Global, dtype: &DType, members: &Map<String, Value>) -> Result<Chunk, JsonError>
    ensures { Gives (λ c. c) result (list_at (ty dtype.now) (codes "list") (members_view members.now.entries)) }
{
    let Some(items) = element_of(dtype) else {
        return Err(JsonError::Wrong);
    };
    let Some(parts) = object_at(members, "list") else {
        return Err(JsonError::Wrong);
    };
    let nullable = dtype.is_nullable();
    if !has_parts(parts, nullable, "elements", "offsets") {
        return Err(JsonError::Wrong);
    }
    let elements = read_chunk_at(alloc, items, parts, "elements")?;
    match (
        numbers_at(alloc, parts, "offsets"),
        flags_at(alloc, parts, nullable),
    ) {
        (Ok(offsets), Ok(valid)) => make_list(alloc, dtype, elements, offsets, valid),
        (Err(error), _) => {
            drop(elements);
            Err(error)
        }
        (Ok(_), Err(error)) => {
            drop(elements);
            Err(error)
        }
    }
}

#[cycle(chunks)]
#[tactic(auto, using(crate::proofs::ChunkSteps::chunk_rules), unfolding(crate::specs::Chunks::struct_of))]
fn read_struct(
    alloc: Global,
    dtype: &DType,
    members: &Map<String, Value>,
) -> Result<Chunk, JsonError>
    ensures { Gives (λ c. c) result (struct_at (ty dtype.now) (codes "struct") (members_view members.now.entries)) }
{
    let Some(types) = fields_of(dtype) else {
        return Err(JsonError::Wrong);
    };
    let Some(parts) = object_at(members, "struct") else {
        return Err(JsonError::Wrong);
    };
    let nullable = dtype.is_nullable();
    if !has_parts(parts, nullable, "fields", "rows") {
        return Err(JsonError::Wrong);
    }
    let fields = read_columns_at(alloc, types, parts, "fields")?;
    let valid = flags_at(alloc, parts, nullable)?;
    let Some(rows) = number_at(parts, "rows") else {
        return Err(JsonError::Wrong);
    };
    make_struct(dtype, fields, valid, rows)
}

/// A chunk a field, in order, at the key.
#[cycle(chunks)]
#[tactic(auto, using(crate::proofs::ChunkSteps::chunk_rules))]
fn read_columns_at(
    alloc: Global,
    types: &[StructField],
    members: &Map<String, Value>,
    key: &str,
) -> Result<Vec<Chunk>, JsonError>
    ensures { Gives (λ v. v.items) result (columns_at (tys_of (map field_ty types.now)) key.now (members_view members.now.entries)) }
{
    match array_at(members, key) {
        Some(values) => read_columns(alloc, types, values),
        None => Err(JsonError::Wrong),
    }
}

/// A chunk a field, in order.
#[cycle(chunks)]
#[tactic(auto, using(crate::proofs::ChunkSteps::column_rules))]
fn read_columns(
    alloc: Global,
    types: &[StructField],
    values: &[Value],
) -> Result<Vec<Chunk>, JsonError>
    ensures { Gives (λ v. v.items) result (columns_in (tys_of (map field_ty types.now)) (items_view values.now)) }
{
    if types.len() != values.len() {
        return Err(JsonError::Wrong);
    }
    let mut columns = Vec::with_capacity(alloc, types.len())?;
    for i in 0..types.len() {
        columns.push(chunk_from(alloc, &types[i].dtype, &values[i])?)?;
    }
    Ok(columns)
}

#[cycle(chunks)]
#[tactic(auto, using(crate::proofs::ChunkSteps::chunk_rules), unfolding(crate::specs::Chunks::extension_of))]
fn read_extension(
    alloc: Global,
    dtype: &DType,
    members: &Map<String, Value>,
) -> Result<Chunk, JsonError>
    ensures { Gives (λ c. c) result (extension_of (ty dtype.now) (chunk_at (inner_type (ty dtype.now)) (codes "ext") (members_view members.now.entries))) }
{
    let Some(inner) = storage_of(dtype) else {
        return Err(JsonError::Wrong);
    };
    let storage = read_chunk_at(alloc, inner, members, "ext")?;
    make_extension(alloc, dtype, storage)
}
