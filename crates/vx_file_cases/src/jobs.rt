//! Jobs that cases say in a few words.

use std::alloc::{AllocError, Global};
use vx_job::{Job, JobError, read_job};

/// The type of 64-bit integers.
pub(crate) const INTEGERS: &str = "\"i64\"";

pub(crate) const FLAT: &str = "\"flat\"";

/// Chunks of flat layouts.
pub(crate) const CHUNKED: &str = "{\"chunked\": \"flat\"}";

/// The parts of a job, in the words of jobs.
#[derive(Clone, Copy)]
pub(crate) struct Parts<'a> {
    pub schema: &'a str,
    pub strategy: &'a str,
    /// With ` / ` between them.
    pub batches: &'a str,
    pub next: &'a str,
    /// The calls of the source and of the sink that fail; `-` or nothing for none.
    pub source: &'a str,
    pub sink: &'a str,
}

impl<'a> Parts<'a> {
    /// Of a write whose first segment has the number 0, and which nothing fails.
    pub(crate) fn new(schema: &'a str, strategy: &'a str, batches: &'a str) -> Parts<'a> {
        Parts {
            schema,
            strategy,
            batches,
            next: "0",
            source: "-",
            sink: "-",
        }
    }
}

fn calls(text: &str) -> &str {
    text.strip_prefix('-').unwrap_or(text)
}

fn text_of(alloc: Global, parts: Parts) -> Result<String, AllocError> {
    let batches = parts.batches.replace(alloc, " / ", ", ")?;
    let Parts {
        schema,
        strategy,
        next,
        ..
    } = parts;
    let source = calls(parts.source);
    let sink = calls(parts.sink);
    format!(in alloc;
        r#"{{"schema": {schema}, "strategy": {strategy}, "batches": [{batches}], "next": {next}, "faults": {{"source": [{source}], "sink": [{sink}], "compress": []}}}}"#
    )
}

pub(crate) fn job_of(alloc: Global, parts: Parts) -> Result<Job, JobError> {
    let text = text_of(alloc, parts)?;
    read_job(alloc, text.as_bytes())
}
