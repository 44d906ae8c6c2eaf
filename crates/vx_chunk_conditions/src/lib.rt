//! Tests of what the constructors of chunks ask.
#![tactic(auto)]

ghost use Rattle.std.specs.Prelude.{◌≡◌, ◌&&◌, not, map, IsTrue};
ghost use Rattle.vx_model.specs.Words.{all_by};
ghost use Rattle.vx_model.specs.Ty.{tys_of, ty_eq};
ghost use Rattle.vx_model.specs.TyView.{ty, field_ty};
ghost use Rattle.vx_model.specs.ChunkData.{piece_type, cells as cells_in, is_simple, is_chunked, is_code as is_place, are_parts as are_parts_of, has_fields as of_fields, match_fields as match_types};
ghost use Rattle.vx_chunk.specs.Conditions.{makes_dict as dict_of, makes_list as list_of, makes_struct as struct_of, are_of_type as all_of_type};

use vx_chunk::{Chunk, Node};
use vx_chunk_cells::{are_flags, are_offsets, has_elements, is_code, is_code_type, is_dict_type};
use vx_model::{DType, StructField};

/// Whether each of the codes is below the number of values.
#[tactic(auto, using(vx_chunk_cells::proofs::CodeSteps::code_rules))]
pub fn are_codes(codes: &Chunk, count: u64) -> bool
    requires { IsTrue (is_simple codes.now) }
    ensures { result ≡ all_by (is_place count) (cells_in codes.now) }
{
    match codes.node() {
        Node::Plain { column, .. } => column.are_places(count),
        Node::Constant { cell, rows, .. } => *rows == 0 || is_code(cell, count),
        Node::Dict { .. } | Node::Chunked { .. } | Node::List { .. } => unreachable!(),
        Node::Struct { .. } | Node::Extension { .. } => unreachable!(),
    }
}

/// Whether the two make a dictionary.
#[tactic(auto, using(vx_chunk_cells::proofs::CodeSteps::code_rules))]
pub fn makes_dict(codes: &Chunk, values: &Chunk) -> bool
    ensures { result ≡ dict_of codes.now values.now }
{
    codes.is_simple()
        && values.is_simple()
        && is_code_type(codes.dtype())
        && is_dict_type(values.dtype())
        && are_codes(codes, values.len())
}

/// Whether all have the type and none is chunked.
#[tactic(auto, using(crate::proofs::Parts::part_rules))]
pub fn are_parts(dtype: &DType, parts: &[Chunk]) -> bool
    ensures { result ≡ are_parts_of (ty dtype.now) parts.now }
{
    for part in parts {
        if !is_part(part, dtype) {
            return false;
        }
    }
    true
}

fn is_part(chunk: &Chunk, dtype: &DType) -> bool
    ensures { result ≡ (ty_eq (piece_type chunk.now) (ty dtype.now) && not (is_chunked chunk.now)) }
{
    has_type(chunk, dtype) && !chunk.is_chunked()
}

/// Whether the chunk has the type.
pub fn has_type(chunk: &Chunk, dtype: &DType) -> bool
    ensures { result ≡ ty_eq (piece_type chunk.now) (ty dtype.now) }
{
    *chunk.dtype() == *dtype
}

/// Whether all have the type.
#[tactic(auto, using(crate::proofs::Parts::part_rules))]
pub fn are_of_type(dtype: &DType, chunks: &[Chunk]) -> bool
    ensures { result ≡ all_of_type (ty dtype.now) chunks.now }
{
    for chunk in chunks {
        if !has_type(chunk, dtype) {
            return false;
        }
    }
    true
}

/// Whether the type is a struct, and each field has a chunk of its type with so many rows.
#[tactic(auto, using(vx_model::proofs::Views::view_rules))]
pub fn has_fields(dtype: &DType, fields: &[Chunk], rows: u64) -> bool
    ensures { result ≡ of_fields (ty dtype.now) fields.now rows }
{
    match dtype {
        DType::Struct(types, _) => match_fields(&types.fields, fields, rows),
        DType::Bool(_) | DType::Primitive(..) | DType::Utf8(_) | DType::Binary(_) => false,
        DType::List(..) | DType::Extension(_) => false,
    }
}

/// Whether each field has a chunk of its type with so many rows.
#[tactic(auto, using(crate::proofs::Parts::field_rules))]
pub fn match_fields(types: &[StructField], fields: &[Chunk], rows: u64) -> bool
    ensures { result ≡ match_types (tys_of (map field_ty types.now)) fields.now rows }
{
    if types.len() != fields.len() {
        return false;
    }
    for i in 0..types.len() {
        if !has_type(&fields[i], &types[i].dtype) || fields[i].len() != rows {
            return false;
        }
    }
    true
}

/// Whether these make a list chunk.
pub fn makes_list(dtype: &DType, elements: &Chunk, offsets: &[u64], valid: &[bool]) -> bool
    ensures { result ≡ list_of (ty dtype.now) elements.now offsets.now valid.now }
{
    has_elements(dtype, elements.dtype())
        && are_offsets(offsets, elements.len())
        && are_flags(dtype, (offsets.len() as u64).saturating_sub(1), valid)
}

/// Whether these make a struct chunk.
pub fn makes_struct(dtype: &DType, fields: &[Chunk], valid: &[bool], rows: u64) -> bool
    ensures { result ≡ struct_of (ty dtype.now) fields.now valid.now rows }
{
    has_fields(dtype, fields, rows) && are_flags(dtype, rows, valid)
}
