//! What the words of a case say: types, leaves and bytes.

use anyhow::Result;
use std::alloc::{AllocError, Global};
use vx_case_lines::{bytes_of, number};
use vx_encodings::all_encodings;
use vx_layout_tree::{FlatLayout, Layout};
use vx_model::{Blob, DType, Nullability, PType, SegmentId};

pub(crate) const NUMBERS: DType = DType::Primitive(PType::U8, Nullability::NonNullable);

pub(crate) const TEXTS: DType = DType::Utf8(Nullability::NonNullable);

pub(crate) const MAYBE: DType = DType::Primitive(PType::I8, Nullability::Nullable);

pub(crate) const FLAGS: DType = DType::Bool(Nullability::NonNullable);

/// `utf8` is the one that is left.
pub(crate) fn dtype_in(word: &str) -> DType {
    match word {
        "u8" => NUMBERS,
        "i8?" => MAYBE,
        "bool" => FLAGS,
        _ => TEXTS,
    }
}

pub(crate) fn bytes_in(alloc: Global, word: &str) -> Result<Vec<u8>> {
    bytes_of(alloc, word.strip_prefix("x").unwrap_or(word))
}

/// So many rows, and their segment.
pub(crate) fn place(text: &str) -> (u64, SegmentId) {
    let (rows, segment) = text.split_once(':').unwrap_or((text, ""));
    (number(rows), SegmentId(segment.parse::<u32>().unwrap_or(0)))
}

/// The leaf with an array tree; without one where the text is empty.
pub(crate) fn leaf_with(alloc: Global, word: &str, tree: &str) -> Result<Layout> {
    let (dtype, text) = word.split_once(':').unwrap_or((word, ""));
    let (rows, segment) = place(text);
    let tree = if tree.is_empty() {
        None
    } else {
        Some(Blob::from(bytes_in(alloc, tree)?))
    };
    let encodings = all_encodings(alloc)?;
    let dtype = dtype_in(dtype);
    Ok(FlatLayout::new_with_metadata(rows, dtype, segment, encodings, tree).into_layout())
}

pub(crate) fn leaves(alloc: Global, text: &str) -> Result<Vec<Layout>> {
    let mut leaves = Vec::new(alloc);
    match push_leaves(alloc, &mut leaves, text) {
        Ok(()) => Ok(leaves),
        Err(error) => {
            drop(leaves);
            Err(error)
        }
    }
}

fn push_leaves(alloc: Global, leaves: &mut Vec<Layout>, text: &str) -> Result<()> {
    for word in text.split_whitespace() {
        push(leaves, leaf_with(alloc, word, "")?)?;
    }
    Ok(())
}

/// Puts the item behind the others.
pub(crate) fn push<T: Drop>(items: &mut Vec<T>, item: T) -> Result<(), AllocError> {
    items.push(item)?;
    Ok(())
}
