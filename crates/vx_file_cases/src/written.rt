//! What writes of jobs come to.

ghost use Rattle.std.specs.Prelude.{◌≡◌};
ghost use Rattle.vx_sink.specs.ContextView.{counted};

use crate::jobs::{CHUNKED, INTEGERS, Parts, job_of};
use crate::layouts::{CHUNKS, KINDS, context_of, tell_bytes};
use anyhow::Result;
use std::alloc::{AllocError, Global};
use std::mem;
use vx_case_lines::{Answer, boxed, cut, halves, number};
use vx_encodings::all_encodings;
use vx_job::{Job, JobError, read_job};
use vx_layout_tree::Layout;
use vx_model::Blob;
use vx_session::LayoutContext;
use vx_sink::{LayoutWriterContext, ListSource, MemorySink};
use vx_table_compressor::TableCompressor;
use vx_write::{Refused, Written, write_stream};

/// A layout and its segments.
#[derive(Drop)]
pub(crate) struct File {
    pub layout: Layout,
    pub segments: Vec<Blob>,
}

/// What a write is made over.
#[derive(Drop)]
struct Objects {
    source: ListSource,
    sink: MemorySink,
    compressor: TableCompressor,
}

fn take<T>(alloc: Global, list: &mut Vec<T>) -> Vec<T> {
    mem::replace(list, Vec::new(alloc))
}

/// Those of the job, of which its batches are taken.
fn objects_of(alloc: Global, job: &mut Job) -> Result<Box<Objects>, AllocError> {
    let dtype = job.schema.clone()?;
    let batches = take(alloc, &mut job.batches);
    let objects = Objects {
        source: ListSource::new(dtype, batches, take(alloc, &mut job.faults.source)),
        sink: MemorySink::new(job.next, take(alloc, &mut job.faults.sink)),
        compressor: TableCompressor::new(take(alloc, &mut job.faults.compress)),
    };
    boxed(alloc, objects)
}

fn write(
    alloc: Global,
    job: &Job,
    ctx: &mut LayoutWriterContext,
    objects: &mut Objects,
) -> Result<Written, Refused>
    ensures { counted ctx.new ≡ counted ctx.old }
{
    write_stream(
        alloc,
        &job.strategy,
        ctx,
        &mut objects.source,
        &mut objects.sink,
        &job.schedule,
        &mut objects.compressor,
    )
}

/// What the batches of the job are written as.
pub(crate) fn file_of(alloc: Global, parts: Parts) -> Result<File> {
    let mut job = job_of(alloc, parts)?;
    let file = file_by(alloc, &mut job);
    drop(job);
    file
}

fn file_by(alloc: Global, job: &mut Job) -> Result<File> {
    let mut ctx = LayoutWriterContext::new(all_encodings(alloc)?);
    let mut objects = objects_of(alloc, job)?;
    match write(alloc, job, &mut ctx, &mut objects) {
        Ok(written) => {
            let layout = written.layout;
            let segments = Box::into_inner(objects).sink.into_segments();
            Ok(File { layout, segments })
        }
        Err(refused) => Err(refused.error.into()),
    }
}

/// How the write ends, behind how many steps, and, where there are ids, the bytes of the layout.
fn push_ending(
    alloc: Global,
    answer: &mut Answer,
    job: &Job,
    ids: Option<&LayoutContext>,
    ctx: &mut LayoutWriterContext,
    objects: &mut Objects,
)
    ensures { counted ctx.new ≡ counted ctx.old }
{
    match write(alloc, job, ctx, objects) {
        Ok(written) => {
            write!(answer, "Ok behind {} steps", written.trace.len());
            if let Some(ids) = ids {
                answer.push_str(", layout ");
                tell_bytes(alloc, answer, &written.layout, ids);
            }
            drop(written);
        }
        Err(refused) => {
            write!(
                answer,
                "{} behind {} steps",
                &refused.error,
                refused.trace.len()
            );
            drop(refused);
        }
    }
}

/// The same where so many bytes are counted before it, and how many are counted behind it.
fn push_counted(
    alloc: Global,
    answer: &mut Answer,
    before: u64,
    job: &Job,
    ids: Option<&LayoutContext>,
    mut ctx: LayoutWriterContext,
    objects: &mut Objects,
) {
    let Ok(reservation) = ctx.reserve_buffered_bytes(before) else {
        answer.push_str("so many bytes are too many");
        return;
    };
    push_ending(alloc, answer, job, ids, &mut ctx, objects);
    let counted = ctx.buffered_bytes();
    ctx.release_buffered_bytes(reservation);
    write!(answer, ", {counted} bytes counted");
}

fn push_segments(answer: &mut Answer, segments: &[Blob]) {
    answer.push_str(", segments");
    for segment in segments {
        answer.push_str(" ");
        answer.push_hex(segment.as_slice());
    }
}

/// What the job's write comes to, where so many bytes are counted before it; of a whole one the bytes too.
fn tell_write(
    alloc: Global,
    answer: &mut Answer,
    before: u64,
    job: &mut Job,
    is_whole: bool,
) -> Result<()> {
    let ids = context_of(alloc, KINDS)?;
    let ctx = LayoutWriterContext::new(all_encodings(alloc)?);
    let mut objects = objects_of(alloc, job)?;
    if is_whole {
        push_counted(alloc, answer, before, job, Some(&ids), ctx, &mut objects);
        push_segments(answer, objects.sink.segments());
    } else {
        push_counted(alloc, answer, before, job, None, ctx, &mut objects);
    }
    Ok(())
}

fn tell_job(
    alloc: Global,
    answer: &mut Answer,
    before: &str,
    job: Result<Job, JobError>,
    is_whole: bool,
) {
    match job {
        Ok(mut job) => {
            if let Err(error) = tell_write(alloc, answer, number(before), &mut job, is_whole) {
                answer.push(error);
            }
            drop(job);
        }
        Err(error) => answer.push(error),
    }
}

/// Of the word `written`.
pub(crate) fn tell(alloc: Global, answer: &mut Answer, given: &str) {
    let (before, text) = cut(given);
    tell_job(
        alloc,
        answer,
        before,
        read_job(alloc, text.as_bytes()),
        true,
    );
}

/// Of the word `counted`.
pub(crate) fn tell_counted(alloc: Global, answer: &mut Answer, given: &str) {
    let (before, rest) = cut(given);
    let (source, rest) = cut(rest);
    let (sink, rest) = cut(rest);
    let (by, batches) = halves(rest);
    let parts = Parts {
        source,
        sink,
        ..Parts::new(INTEGERS, by, batches)
    };
    tell_job(alloc, answer, before, job_of(alloc, parts), false);
}

/// Of the word `spelled`.
pub(crate) fn tell_spelled(alloc: Global, answer: &mut Answer, batches: &str) {
    match file_of(alloc, Parts::new(INTEGERS, CHUNKED, batches)) {
        Ok(file) => {
            match context_of(alloc, CHUNKS) {
                Ok(ids) => {
                    tell_bytes(alloc, answer, &file.layout, &ids);
                    drop(ids);
                }
                Err(error) => answer.push(error),
            }
            drop(file);
        }
        Err(error) => answer.push(error),
    }
}
