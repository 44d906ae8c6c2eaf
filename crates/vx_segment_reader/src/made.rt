//! Chunks of parts that were read. Each tests what its parts must be together. What is refused is dropped by a call: where a
//! chunk's end is written out at each way out of a function, its proof takes ten times as long.

ghost use Rattle.std.specs.Prelude.{◌≡◌, ◌-◌, ◌==◌, length, IsTrue};
ghost use Rattle.vx_model.specs.TyView.{ty};
ghost use Rattle.vx_model.specs.ChunkData.{piece_type, cells, joined_cells, pieces_of, dict_piece, chunked_piece, list_piece, extension_piece, is_simple, is_code_type, is_dict_type, are_parts, are_offsets as offsets_fit, are_flags, has_elements, has_storage};
ghost use Rattle.vx_segment_spec.specs.Pieces.{are_codes as fit_codes, made_at};
ghost use Rattle.vx_segment_reader.specs.Views.{Gives, rest as left};

use crate::error::DecodeError;
use crate::rest::Rest;
use std::alloc::Global;
use vx_chunk::Chunk;
use vx_chunk_cells::are_offsets;
use vx_chunk_conditions::are_codes;
use vx_model::DType;

/// Whether there is a code a row, each below the number of values.
fn fit_rows(rows: u64, codes: &Chunk, values: &Chunk) -> bool
    requires { IsTrue (is_simple codes.now) }
    ensures { result ≡ fit_codes rows codes.now values.now }
{
    codes.len() == rows && are_codes(codes, values.len())
}

pub(crate) fn made_dict<'a>(
    alloc: Global,
    k: u64,
    rows: u64,
    codes: Chunk,
    values: Chunk,
    rest: Rest<'a>,
) -> Result<(Chunk, Rest<'a>), DecodeError>
    requires codes { IsTrue (is_simple codes) }
    requires values { IsTrue (is_simple values) }
    requires code_type { IsTrue (is_code_type (piece_type codes)) }
    requires dict_type { IsTrue (is_dict_type (piece_type values)) }
    ensures { Gives (λ x. (x.0, left x.1)) result (made_at k (fit_codes rows codes values) (dict_piece codes values) (left rest.entry)) }
{
    if !fit_rows(rows, &codes, &values) {
        drop(codes);
        drop(values);
        return Err(DecodeError::BadType(k));
    }
    match Chunk::dict(alloc, codes, values) {
        Ok(chunk) => Ok((chunk, rest)),
        Err(_) => Err(DecodeError::OutOfMemory),
    }
}

/// Of parts that have so many rows.
pub(crate) fn made_chunked<'a>(
    dtype: &DType,
    k: u64,
    rows: u64,
    parts: Vec<Chunk>,
    rest: Rest<'a>,
) -> Result<(Chunk, Rest<'a>), DecodeError>
    requires { IsTrue (are_parts (ty dtype.now) parts.items) }
    ensures { Gives (λ x. (x.0, left x.1)) result (made_at k (length (joined_cells (pieces_of parts.items)) == rows) (chunked_piece (ty dtype.now) (pieces_of parts.items)) (left rest.entry)) }
{
    let Ok(chunk) = Chunk::chunked(dtype.clone()?, parts) else {
        return Err(DecodeError::BadType(k));
    };
    if chunk.len() != rows {
        drop(chunk);
        return Err(DecodeError::BadType(k));
    }
    Ok((chunk, rest))
}

/// Of offsets that are those of the elements.
pub(crate) fn made_list<'a>(
    alloc: Global,
    dtype: &DType,
    k: u64,
    elements: Chunk,
    offsets: Vec<u64>,
    valid: Vec<bool>,
    rest: Rest<'a>,
) -> Result<(Chunk, Rest<'a>), DecodeError>
    requires elements { IsTrue (has_elements (ty dtype.now) (piece_type elements)) }
    requires flags { IsTrue (are_flags (ty dtype.now) (length offsets.items - 1) valid.items) }
    ensures { Gives (λ x. (x.0, left x.1)) result (made_at k (offsets_fit (length (cells elements)) offsets.items) (list_piece (ty dtype.now) elements offsets.items valid.items) (left rest.entry)) }
{
    if !are_offsets(&offsets, elements.len()) {
        drop(elements);
        return Err(DecodeError::BadType(k));
    }
    let Ok(own) = dtype.clone() else {
        drop(elements);
        return Err(DecodeError::OutOfMemory);
    };
    match Chunk::list(alloc, own, elements, offsets, valid) {
        Ok(chunk) => Ok((chunk, rest)),
        Err(_) => Err(DecodeError::OutOfMemory),
    }
}

/// Of a storage that has so many rows.
pub(crate) fn made_extension<'a>(
    alloc: Global,
    dtype: &DType,
    k: u64,
    rows: u64,
    storage: Chunk,
    rest: Rest<'a>,
) -> Result<(Chunk, Rest<'a>), DecodeError>
    requires { IsTrue (has_storage (ty dtype.now) (piece_type storage)) }
    ensures { Gives (λ x. (x.0, left x.1)) result (made_at k (length (cells storage) == rows) (extension_piece (ty dtype.now) storage) (left rest.entry)) }
{
    if storage.len() != rows {
        drop(storage);
        return Err(DecodeError::BadType(k));
    }
    let Ok(own) = dtype.clone() else {
        drop(storage);
        return Err(DecodeError::OutOfMemory);
    };
    match Chunk::extension(alloc, own, storage) {
        Ok(chunk) => Ok((chunk, rest)),
        Err(_) => Err(DecodeError::OutOfMemory),
    }
}
