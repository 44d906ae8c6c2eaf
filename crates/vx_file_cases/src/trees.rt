//! Layouts that the program's `tree` takes.

ghost use Rattle.std.specs.Prelude.{◌≤◌};

use crate::layouts::{layout_of, tell_bytes};
use crate::reading::push_fault;
use anyhow::Result;
use std::alloc::Global;
use vx_case_lines::{Answer, bytes_of, halves};
use vx_job::{TreeJob, read_tree_job};
use vx_layout_tree::Layout;
use vx_model::Blob;
use vx_read::{SegmentMap, read_rows};

/// Of the words `layout` and `parsed`.
pub(crate) fn tell(alloc: Global, answer: &mut Answer, word: &str, given: &str) {
    let (job, segments) = halves(given);
    match read_tree_job(alloc, job.as_bytes()) {
        Ok(job) => {
            tell_job(alloc, answer, word, &job, segments);
            drop(job);
        }
        Err(error) => answer.push(error),
    }
}

fn tell_job(alloc: Global, answer: &mut Answer, word: &str, job: &TreeJob, segments: &str)
    requires { job.now.options.limits.depth ≤ 1024 }
{
    match layout_of(alloc, job) {
        Ok(layout) => {
            if word == "layout" {
                tell_bytes(alloc, answer, &layout, &job.layouts);
            } else {
                tell_rows(alloc, answer, &layout, segments);
            }
            drop(layout);
        }
        Err(error) => answer.push(error),
    }
}

/// The segments that the parts are, from 0 on.
fn segments_in(alloc: Global, parts: &str) -> Result<SegmentMap> {
    let mut list = Vec::new(alloc);
    for part in parts.split(" / ") {
        list.push(Blob::from(bytes_of(alloc, part)?))?;
    }
    Ok(SegmentMap { first: 0, list })
}

/// The rows of the layout, or why there are none.
fn tell_rows(alloc: Global, answer: &mut Answer, layout: &Layout, parts: &str) {
    match segments_in(alloc, parts) {
        Ok(segments) => {
            match read_rows(alloc, layout, &segments) {
                Ok(rows) => answer.push_debug(rows),
                Err(error) => push_fault(answer, error),
            }
            drop(segments);
        }
        Err(error) => answer.push(error),
    }
}
