//! What a case's object says.

use anyhow::Context;
use serde_json::Value;
use std::alloc::Global;
use vx_case_lines::bytes_of;
use vx_chunk::Chunk;
use vx_chunk_json::{read_batch, read_type};
use vx_encodings::all_encodings;
use vx_model::DType;
use vx_segment_reader::decode_segment;

pub(crate) fn dtype_in(alloc: Global, given: &Value) -> anyhow::Result<DType> {
    let value = given.get("schema").context("no schema")?;
    Ok(read_type(alloc, value)?)
}

pub(crate) fn bytes_in(alloc: Global, given: &Value) -> anyhow::Result<Vec<u8>> {
    let value = given.get("bytes").context("no batch and no bytes")?;
    let text = value.as_str().context("bytes are a text")?;
    bytes_of(alloc, text)
}

/// The batch, or what the bytes are read as.
pub(crate) fn chunk_in(alloc: Global, given: &Value) -> anyhow::Result<Chunk> {
    let dtype = dtype_in(alloc, given)?;
    let chunk = chunk_of(alloc, given, &dtype);
    drop(dtype);
    chunk
}

fn chunk_of(alloc: Global, given: &Value, dtype: &DType) -> anyhow::Result<Chunk> {
    match given.get("batch") {
        Some(batch) => Ok(read_batch(alloc, dtype, batch)?),
        None => decoded(alloc, given, dtype),
    }
}

fn decoded(alloc: Global, given: &Value, dtype: &DType) -> anyhow::Result<Chunk> {
    let bytes = bytes_in(alloc, given)?;
    let ctx = all_encodings(alloc)?;
    Ok(decode_segment(alloc, &ctx, dtype, &bytes)?)
}
