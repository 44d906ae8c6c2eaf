//! Layouts, nodes and metadata as bytes.

use crate::children::tell_places;
use crate::given::bytes_in;
use crate::nodes::node_in;
use crate::scopes::{ids, session};
use crate::shown::tell_slots;
use anyhow::{Result, bail};
use bytes::Bytes;
use std::alloc::{AllocError, Global};
use std::thread::Threads;
use vx_case_lines::{Answer, cut};
use vx_encodings::all_encodings;
use vx_layout::{
    DictLayoutMetadata, FlatLayoutMetadata, Layout, LayoutContext, LegacyStatsMetadata, Limits,
    ListLayoutMetadata, RawNode, Session, ZonedMetadata, layout_bytes, layout_from_flatbuffer,
    read_nodes, through_a_thread, write_node,
};
use vx_model::{DType, PType};

fn push_bytes(answer: &mut Answer, bytes: &[u8]) {
    answer.push_str("x");
    answer.push_hex(bytes);
}

/// Of the words `viewed`, `sent` and `again`: of what is read from the layout's bytes.
pub(crate) fn tell_viewed(
    rt: &impl Threads,
    alloc: Global,
    answer: &mut Answer,
    word: &str,
    layout: &Layout,
) {
    match reread(alloc, layout) {
        Ok(read) => match word {
            "again" => push_again(alloc, answer, layout, read),
            "sent" => push_chunks(answer, through_a_thread(rt, read)),
            _ => push_chunks(answer, read),
        },
        Err(error) => answer.push(error),
    }
}

/// The slots of what is read, where it has the layout's bytes.
fn push_again(alloc: Global, answer: &mut Answer, layout: &Layout, read: Layout) {
    match have_same_bytes(alloc, layout, &read) {
        Ok(true) => tell_slots(alloc, answer, &read),
        Ok(false) => answer.push_str("other bytes"),
        Err(error) => answer.push(error),
    }
    drop(read);
}

fn have_same_bytes(alloc: Global, one: &Layout, other: &Layout) -> Result<bool> {
    let bytes = spelled(alloc, one)?;
    Ok(spelled(alloc, other)?.as_slice() == bytes.as_slice())
}

/// What is read from the layout's bytes.
pub(crate) fn reread(alloc: Global, layout: &Layout) -> Result<Layout> {
    let bytes = spelled(alloc, layout)?;
    let read = parsed(alloc, layout.dtype(), &bytes);
    drop(bytes);
    read
}

/// What the children of a chunked layout are.
fn push_chunks(answer: &mut Answer, layout: Layout) {
    match &layout {
        Layout::Chunked(chunked) => tell_places(answer, chunked.children(), layout.dtype()),
        _ => answer.push_str("not chunked"),
    }
    drop(layout);
}

fn spelled(alloc: Global, layout: &Layout) -> Result<Vec<u8>> {
    let ids = ids(alloc)?;
    let bytes = layout_bytes(alloc, layout, &ids);
    drop(ids);
    Ok(bytes?)
}

/// What the bytes of a layout of the type are, where each kind is registered.
fn parsed(alloc: Global, dtype: &DType, bytes: &[u8]) -> Result<Layout> {
    let ids = ids(alloc)?;
    let session = session(alloc)?;
    let parsed = parsed_in(alloc, dtype, bytes, &ids, &session);
    drop(session);
    drop(ids);
    parsed
}

fn parsed_in(
    alloc: Global,
    dtype: &DType,
    bytes: &[u8],
    ids: &LayoutContext,
    session: &Session,
) -> Result<Layout> {
    let encodings = all_encodings(alloc)?;
    let bytes = Bytes::copy_from_slice(alloc, bytes)?;
    let limits = Limits::default();
    Ok(layout_from_flatbuffer(alloc, bytes, dtype, ids, &encodings, session, limits)?)
}

/// The bytes of the node, and in a line of its own what is read from them.
pub(crate) fn tell_node(alloc: Global, answer: &mut Answer, word: &str) {
    match node_bytes(alloc, word) {
        Ok(bytes) => {
            push_bytes(answer, &bytes);
            match nodes_of(alloc, bytes) {
                Ok(node) => {
                    let segments = node.segments.as_slice();
                    write!(answer, "\n{} {} {segments:?} ", node.index, node.rows);
                    answer.push(node.children.len());
                    drop(node);
                }
                Err(error) => answer.push(error),
            }
        }
        Err(error) => answer.push(error),
    }
}

fn node_bytes(alloc: Global, word: &str) -> Result<Vec<u8>> {
    let node = node_in(alloc, word)?;
    let bytes = write_node(alloc, &node);
    drop(node);
    Ok(bytes?)
}

/// What is read from the bytes.
fn nodes_of(alloc: Global, bytes: Vec<u8>) -> Result<RawNode> {
    let bytes = Bytes::from_vec(bytes)?;
    Ok(read_nodes(alloc, bytes, Limits::default())?)
}

pub(crate) fn tell_metadata(alloc: Global, answer: &mut Answer, args: &str) {
    let (kind, bytes) = cut(args);
    match serialized(alloc, kind, bytes) {
        Ok(bytes) => {
            push_bytes(answer, &bytes);
            drop(bytes);
        }
        Err(error) => answer.push(error),
    }
}

fn serialized(alloc: Global, kind: &str, word: &str) -> Result<Vec<u8>> {
    let bytes = bytes_in(alloc, word)?;
    let again = serialized_as(alloc, kind, &bytes);
    drop(bytes);
    again
}

fn serialized_as(alloc: Global, kind: &str, bytes: &[u8]) -> Result<Vec<u8>> {
    match kind {
        "vortex.flat" => Ok(FlatLayoutMetadata::deserialize(alloc, bytes)?.serialize(alloc)?),
        "vortex.dict" => Ok(DictLayoutMetadata::deserialize(alloc, bytes)?.serialize(alloc)?),
        "vortex.list" => Ok(ListLayoutMetadata::deserialize(alloc, bytes)?.serialize(alloc)?),
        "vortex.zoned" => zoned(alloc, bytes),
        "vortex.stats" => Ok(LegacyStatsMetadata::deserialize(alloc, bytes)?.serialize(alloc)?),
        _ => bail!("no metadata"),
    }
}

fn zoned(alloc: Global, bytes: &[u8]) -> Result<Vec<u8>> {
    let read = ZonedMetadata::deserialize(alloc, bytes)?;
    if !read.is_short() {
        drop(read);
        bail!("too long");
    }
    Ok(read.serialize(alloc)?)
}

/// `u32` is the type that is left.
pub(crate) fn tell_codes(alloc: Global, answer: &mut Answer, word: &str) {
    let ptype = match word {
        "u8" => PType::U8,
        "u16" => PType::U16,
        _ => PType::U32,
    };
    match DictLayoutMetadata::new(ptype).serialize(alloc) {
        Ok(bytes) => {
            push_bytes(answer, &bytes);
            drop(bytes);
        }
        Err(error) => answer.push(error),
    }
}
