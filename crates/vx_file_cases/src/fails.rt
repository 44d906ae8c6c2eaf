//! Writes from and to these objects, one of which fails in mid-stream.

use crate::jobs::{CHUNKED, INTEGERS, Parts, job_of};
use crate::own_objects::{Broken, Counter, Fault, Stack};
use std::alloc::Global;
use vx_case_lines::{Answer, cut, number};
use vx_encodings::all_encodings;
use vx_job::Job;
use vx_sink::LayoutWriterContext;
use vx_strategy::Strategy;
use vx_write::{Refused, WriteError, write_stream};

/// Of the word `fails`: the batches 2 and 1.
pub(crate) fn tell(alloc: Global, answer: &mut Answer, given: &str) {
    match job_of(alloc, Parts::new(INTEGERS, CHUNKED, "[1] / [2]")) {
        Ok(job) => tell_job(alloc, answer, job, given),
        Err(error) => answer.push(error),
    }
}

fn tell_job(alloc: Global, answer: &mut Answer, job: Job, given: &str) {
    let (which, call) = cut(given);
    let (of_source, of_sink) = if which == "source" {
        (number(call), u64::MAX)
    } else {
        (u64::MAX, number(call))
    };
    let Job {
        schema: dtype,
        strategy,
        batches,
        ..
    } = job;
    let mut source = Stack {
        dtype,
        batches,
        fault: Fault::after(of_source),
    };
    let mut sink = Counter::new(of_sink);
    push_ending(alloc, answer, &strategy, &mut source, &mut sink);
    drop(strategy);
    let left = source.batches.len();
    drop(source);
    write!(answer, ", {} segments, {left} batches left", sink.next);
}

/// How the write to the sink ends.
fn push_ending(
    alloc: Global,
    answer: &mut Answer,
    by: &Strategy,
    source: &mut Stack,
    sink: &mut Counter,
) {
    match all_encodings(alloc) {
        Ok(encodings) => {
            let mut ctx = LayoutWriterContext::new(encodings);
            let mut compressor = Broken { faults: 0 };
            match write_stream(alloc, by, &mut ctx, source, sink, &[], &mut compressor) {
                Ok(written) => {
                    drop(written);
                    answer.push_str("Ok");
                }
                Err(refused) => answer.push_str(name(refused)),
            }
        }
        Err(error) => answer.push(error),
    }
}

/// The name of the refusal's error.
fn name(refused: Refused) -> &'static str {
    let name = match &refused.error {
        WriteError::SourceFault => "SourceFault",
        WriteError::SinkFault => "SinkFault",
        _ => "another",
    };
    drop(refused);
    name
}
