//! What layouts are built in.

use crate::given::push;
use anyhow::{Context, Result, bail};
use std::alloc::{AllocError, Global};
use vx_encodings::all_encodings;
use vx_model::{ArrayContext, Text};
use vx_session::{LayoutContext, LayoutEncoding, LayoutSession, Scope, Session};

const IDS: &str =
    "vortex.flat vortex.chunked vortex.struct vortex.list vortex.dict vortex.zoned vortex.stats";

fn texts(alloc: Global, words: &str) -> Result<Vec<Text>, AllocError> {
    let mut texts = Vec::new(alloc);
    for word in words.split_whitespace() {
        push(&mut texts, Text::from_str(alloc, word)?)?;
    }
    Ok(texts)
}

/// The ids of all kinds.
pub(crate) fn ids(alloc: Global) -> Result<LayoutContext> {
    let ids = texts(alloc, IDS)?;
    match LayoutContext::is_context(alloc, &ids) {
        Ok(true) => Ok(LayoutContext::new(ids)),
        Ok(false) => {
            drop(ids);
            bail!("an id is there twice")
        }
        Err(error) => {
            drop(ids);
            Err(error.into())
        }
    }
}

/// All kinds and the maximum.
pub(crate) fn session(alloc: Global) -> Result<Session, AllocError> {
    Ok(Session {
        layouts: LayoutSession::default(alloc)?,
        aggregates: texts(alloc, "vortex.max")?,
        allow_unknown: false,
    })
}

/// The same, with the ids of all kinds.
pub(crate) fn scope(alloc: Global) -> Result<Scope> {
    let ids = ids(alloc)?;
    let encodings = all_encodings(alloc)?;
    scope_of(alloc, &ids, &encodings)
}

fn scope_of(alloc: Global, ids: &LayoutContext, encodings: &ArrayContext) -> Result<Scope> {
    let session = session(alloc)?;
    let scope = Scope::new(ids, encodings, &session, false);
    drop(session);
    Ok(scope?)
}

/// The kind that has the id.
pub(crate) fn kind_in(alloc: Global, id: &str) -> Result<LayoutEncoding> {
    let layouts = LayoutSession::default(alloc)?;
    let kind = layouts.registry().find(id);
    drop(layouts);
    kind.context("no such kind")
}
