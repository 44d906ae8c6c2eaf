//! Layouts and their bytes.

ghost use Rattle.std.specs.Prelude.{◌≤◌};

use anyhow::{Result, ensure};
use bytes::Bytes;
use std::alloc::{AllocError, Global};
use vx_case_lines::Answer;
use vx_job::{TreeJob, read_tree_job};
use vx_layout_codec::{layout_bytes, layout_from_flatbuffer_with_options};
use vx_layout_tree::{Layout, LayoutError};
use vx_model::Text;
use vx_session::{LayoutContext, LayoutSession, Session};

/// The ids of all kinds.
pub(crate) const KINDS: &str =
    "vortex.flat vortex.chunked vortex.struct vortex.list vortex.dict vortex.zoned vortex.stats";

/// The ids of chunks of flat layouts.
pub(crate) const CHUNKS: &str = "vortex.chunked vortex.flat";

/// The ids of all aggregates.
const AGGREGATES: &str =
    "vortex.max vortex.min vortex.bounded_max vortex.bounded_min vortex.null_count vortex.sum vortex.bloom_filter.sbbf";

fn texts(alloc: Global, words: &str) -> Result<Vec<Text>, AllocError> {
    let mut texts = Vec::new(alloc);
    for word in words.split_whitespace() {
        texts.push(Text::from_str(alloc, word)?)?;
    }
    Ok(texts)
}

/// The ids by their places.
pub(crate) fn context_of(alloc: Global, ids: &str) -> Result<LayoutContext> {
    let ids = texts(alloc, ids)?;
    ensure!(
        LayoutContext::is_context(alloc, &ids)?,
        "an id is there twice"
    );
    Ok(LayoutContext::new(ids))
}

/// All kinds and all aggregates, and others too where they may be kept.
fn session(alloc: Global, allow_unknown: bool) -> Result<Session, AllocError> {
    let aggregates = texts(alloc, AGGREGATES)?;
    let layouts = LayoutSession::default(alloc)?;
    Ok(Session {
        layouts,
        aggregates,
        allow_unknown,
    })
}

/// The layout that the job's bytes are.
pub(crate) fn layout_of(alloc: Global, job: &TreeJob) -> Result<Layout, LayoutError>
    requires { job.now.options.limits.depth ≤ 1024 }
{
    let session = session(alloc, job.options.allow_unknown)?;
    let layout = layout_in(alloc, job, &session);
    drop(session);
    layout
}

fn layout_in(alloc: Global, job: &TreeJob, session: &Session) -> Result<Layout, LayoutError>
    requires { job.now.options.limits.depth ≤ 1024 }
{
    let bytes = Bytes::copy_from_slice(alloc, &job.bytes)?;
    layout_from_flatbuffer_with_options(
        alloc,
        bytes,
        &job.dtype,
        &job.layouts,
        &job.options.encodings,
        session,
        job.options.limits,
        job.options.allow_unknown,
    )
}

/// The layout of chunks of integers that the hex text is.
pub(crate) fn chunks_of(alloc: Global, digits: &str) -> Result<Layout> {
    let text = format!(in alloc;
        r#"{{"dtype": "i64", "bytes": "{digits}", "layouts": ["vortex.chunked", "vortex.flat"]}}"#
    )?;
    let job = read_tree_job(alloc, text.as_bytes())?;
    let layout = layout_of(alloc, &job);
    drop(job);
    Ok(layout?)
}

/// The bytes that the layout is spelled as.
pub(crate) fn tell_bytes(alloc: Global, answer: &mut Answer, layout: &Layout, ids: &LayoutContext) {
    match layout_bytes(alloc, layout, ids) {
        Ok(bytes) => {
            answer.push_hex(&bytes);
            drop(bytes);
        }
        Err(error) => answer.push(error),
    }
}
