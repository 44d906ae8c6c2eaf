//! The layout that a case names, and layouts that kinds build of parts.

use crate::given::{bytes_in, dtype_in};
use crate::layouts::layout_in;
use crate::nodes::children_in;
use crate::scopes::kind_in;
use anyhow::Result;
use std::alloc::Global;
use vx_case_lines::{cut, number};
use vx_encodings::all_encodings;
use vx_layout::{Layout, LayoutDeserializeArgs, LayoutEncodingExt, LayoutParts};
use vx_session::LayoutBuildContext;

pub(crate) fn layout(alloc: Global, text: &str) -> Result<Layout> {
    match cut(text) {
        ("build", rest) => built(alloc, rest),
        _ => layout_in(alloc, text),
    }
}

/// The layout that the kind builds of the metadata and the parts.
fn built(alloc: Global, args: &str) -> Result<Layout> {
    let (kind, rest) = cut(args);
    let (metadata, rest) = cut(rest);
    let kind = kind_in(alloc, kind)?;
    let metadata = bytes_in(alloc, metadata)?;
    let args = given(alloc, rest)?;
    Ok(kind.build(alloc, args, &metadata)?)
}

/// The parts, and a context without aggregates.
fn given(alloc: Global, text: &str) -> Result<LayoutDeserializeArgs> {
    let (dtype, rest) = cut(text);
    let (rows, rest) = cut(rest);
    let context = LayoutBuildContext {
        array_ctx: all_encodings(alloc)?,
        aggregates: Vec::new(alloc),
        allow_unknown: false,
    };
    let children = children_in(alloc, rest)?;
    let parts = LayoutParts::new(dtype_in(dtype), number(rows), Vec::new(alloc), children);
    Ok(LayoutDeserializeArgs { parts, context })
}
