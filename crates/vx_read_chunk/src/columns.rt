//! Chunks put together of others.

ghost use Rattle.std.specs.Prelude.{◌≡◌, map, Some, IfOk, IfSome};
ghost use Rattle.vx_model.specs.ChunkData.{row_values};
ghost use Rattle.vx_model.specs.Words.{joined_by};
ghost use Rattle.vx_layout_spec.specs.Rows.{fields_rows};
ghost use Rattle.vx_read_chunk.specs.Held.{parts_rows};

use crate::held::HeldPart;
use std::alloc::{AllocError, Global};
use vx_chunk::Chunk;
use vx_chunk_conditions::{are_of_type, makes_struct};
use vx_model::DType;

/// One chunk of the rows of the parts, where these are chunks of one type, at least one.
#[tactic(auto, using(crate::proofs::ColumnSteps::column_rules))]
pub(crate) fn one_chunk(alloc: Global, parts: Vec<HeldPart>) -> Result<Option<Chunk>, AllocError>
    ensures { IfOk result (λ o. IfSome o (λ c. row_values c ≡ parts_rows parts)) }
{
    match chunks_in(alloc, parts)? {
        Some(chunks) => joined(alloc, chunks),
        None => Ok(None),
    }
}

/// The chunks that the parts are, where each is one.
#[tactic(auto, using(crate::proofs::ColumnSteps::column_rules))]
fn chunks_in(alloc: Global, parts: Vec<HeldPart>) -> Result<Option<Vec<Chunk>>, AllocError>
    ensures { IfOk result (λ o. IfSome o (λ v. joined_by row_values v.items ≡ parts_rows parts)) }
{
    let mut chunks = Vec::with_capacity(alloc, parts.len())?;
    for part in parts {
        match part {
            HeldPart::Chunk(chunk) => chunks.push(chunk)?,
            HeldPart::Values(_) => return Ok(None),
        }
    }
    Ok(Some(chunks))
}

/// The rows of the chunks, joined, where these are of one type. One chunk stays as it is.
#[tactic(auto, using(crate::proofs::ColumnSteps::column_rules))]
fn joined(alloc: Global, mut chunks: Vec<Chunk>) -> Result<Option<Chunk>, AllocError>
    ensures { IfOk result (λ o. IfSome o (λ c. row_values c ≡ joined_by row_values chunks.items)) }
{
    if chunks.is_empty() {
        return Ok(None);
    }
    if chunks.len() == 1 {
        return Ok(Some(chunks.remove(0)));
    }
    let dtype = chunks[0].dtype().clone()?;
    if !are_of_type(&dtype, &chunks) {
        return Ok(None);
    }
    match Chunk::concat(alloc, dtype, chunks) {
        Ok(chunk) => Ok(Some(chunk)),
        Err(_) => Err(AllocError),
    }
}

/// So many structs of the type, of a chunk a field, where these make some and the type isn't nullable.
#[tactic(auto, using(crate::proofs::ColumnSteps::struct_rules))]
pub(crate) fn struct_chunk(
    alloc: Global,
    dtype: &DType,
    columns: Vec<Chunk>,
    row_count: u64,
) -> Result<Option<Chunk>, AllocError>
    ensures { IfOk result (λ o. IfSome o (λ c. fields_rows row_count (map row_values columns.items) ≡ Some (row_values c))) }
{
    if !makes_struct(dtype, &columns, &[], row_count) {
        return Ok(None);
    }
    let dtype = dtype.clone()?;
    Ok(Some(Chunk::strukt(dtype, columns, Vec::new(alloc), row_count)))
}
