//! Writes by columns, against the writes by one machine.

ghost use Rattle.std.specs.Prelude.{◌≡◌, Some, vec_len, IfOk};
ghost use Rattle.vx_model.specs.TyView.{ty};
ghost use Rattle.vx_strategy.specs.StrategyView.{strategy_data};
ghost use Rattle.vx_write.specs.ColumnCount.{column_count};

use crate::columns_jobs::{COMPRESSED, PLAIN, job_of};
use crate::meeting::Meeting;
use std::alloc::{AllocError, Global};
use std::process::Abort;
use std::sync::Wait;
use std::test::Fail;
use std::thread::Threads;
use vx_display::LayoutDisplay;
use vx_gate::{Gate, NoGate};
use vx_job::Job;
use vx_layout_tree::Layout;
use vx_model::{Blob, Text};
use vx_sink::{LayoutWriterContext, ListSource, MemorySink};
use vx_table_compressor::TableCompressor;
use vx_write::{Refused, Written, column_count, write_stream};
use vx_write_answer::WriteError;
use vx_write_columns::write_columns;

/// The layout and the segments, or the error and those that stand.
type Divided = (Result<Layout, WriteError>, Vec<Blob>);

/// The same, of the layout its text.
type Outcome = (Result<Text, WriteError>, Vec<Blob>);

/// The layout is gone where its text is asked for.
fn shown(alloc: Global, layout: Layout) -> Result<Text, AllocError> {
    let text = layout.display_tree_verbose(alloc, true);
    drop(layout);
    text
}

fn outcome_of(alloc: Global, divided: Divided) -> Result<Outcome, Fail> {
    let (written, segments) = divided;
    match written {
        Ok(layout) => Ok((Ok(shown(alloc, layout)?), segments)),
        Err(error) => Ok((Err(error), segments)),
    }
}

/// By one machine.
fn streamed(alloc: Global, job: &str) -> Result<Outcome, Fail> {
    outcome_of(alloc, stream(alloc, job_of(alloc, job)?))
}

fn stream(alloc: Global, job: Job) -> Divided {
    let faults = job.faults;
    let mut ctx = LayoutWriterContext::new(job.encodings);
    let mut source = ListSource::new(job.schema, job.batches, faults.source);
    let mut sink = MemorySink::new(job.next, faults.sink);
    let mut compressor = TableCompressor::new(faults.compress);
    let written = write_stream(
        alloc,
        &job.strategy,
        &mut ctx,
        &mut source,
        &mut sink,
        &job.schedule,
        &mut compressor,
    );
    (layout_of(written), sink.into_segments())
}

fn layout_of(written: Result<Written, Refused>) -> Result<Layout, WriteError> {
    match written {
        Ok(written) => Ok(written.layout),
        Err(refused) => Err(refused.error),
    }
}

/// By two columns.
fn divided<G: Gate + Sync, R: Threads + Wait + Sync>(
    rt: &R,
    alloc: Global,
    job: &str,
    fail: Vec<u64>,
    gate: &G,
) -> Result<Outcome, Fail> {
    let compressors = two_compressors(alloc)?;
    let job = job_of_two(alloc, job)?;
    outcome_of(alloc, divide(rt, alloc, job, fail, compressors, gate))
}

/// The job of a write by two columns.
fn job_of_two(alloc: Global, text: &str) -> Result<Job, Fail>
    ensures { IfOk result (λ j. column_count (strategy_data j.strategy) (ty j.schema) ≡ Some 2) }
{
    let job = job_of(alloc, text)?;
    match column_count(&job.strategy, &job.schema) {
        Some(2) => Ok(job),
        _ => Err("a job of two columns".into()),
    }
}

fn divide<G: Gate + Sync, R: Threads + Wait + Sync>(
    rt: &R,
    alloc: Global,
    job: Job,
    fail: Vec<u64>,
    compressors: Vec<TableCompressor>,
    gate: &G,
) -> Divided
    requires columns { column_count (strategy_data job.strategy) (ty job.schema) ≡ Some 2 }
    requires two { vec_len compressors ≡ 2 }
{
    let faults = job.faults;
    let mut ctx = LayoutWriterContext::new(job.encodings);
    let mut source = ListSource::new(job.schema, job.batches, faults.source);
    let sink = MemorySink::new(job.next, fail);
    let written = write_columns(
        rt,
        alloc,
        &job.strategy,
        &mut ctx,
        &mut source,
        sink,
        compressors,
        gate,
    );
    parted(written)
}

/// What a write by columns gives back.
type Returned = Result<
    (Layout, MemorySink, Vec<TableCompressor>),
    (WriteError, MemorySink, Vec<TableCompressor>),
>;

fn parted(written: Returned) -> Divided {
    match written {
        Ok((layout, sink, _compressors)) => (Ok(layout), sink.into_segments()),
        Err((error, sink, _compressors)) => (Err(error), sink.into_segments()),
    }
}

fn two_compressors(alloc: Global) -> Result<Vec<TableCompressor>, Fail>
    ensures { IfOk result (λ v. vec_len v ≡ 2) }
{
    let first = TableCompressor::new(Vec::new(alloc));
    let second = TableCompressor::new(Vec::new(alloc));
    Ok(vec![in alloc; first, second]?)
}

fn is_text(found: &Result<Text, WriteError>, wanted: &str) -> bool {
    match found {
        Ok(text) => text.as_str() == wanted,
        Err(_) => false,
    }
}

fn same_bytes(a: &[Blob], b: &[Blob]) -> bool {
    if a.len() != b.len() {
        return false;
    }
    for i in 0..a.len() {
        if a[i].as_slice() != b[i].as_slice() {
            return false;
        }
    }
    true
}

/// The numbers of the two columns' segments.
const LAID: &str = "vortex.struct, dtype: {a=i64, b=i64}, children: 2, rows: 3
├── a: vortex.chunked, dtype: i64, children: 2, rows: 3
│   ├── [0]: vortex.flat, dtype: i64, rows: 2, segment: 0
│   └── [1]: vortex.flat, dtype: i64, rows: 1, segment: 2
└── b: vortex.chunked, dtype: i64, children: 2, rows: 3
    ├── [0]: vortex.flat, dtype: i64, rows: 2, segment: 1
    └── [1]: vortex.flat, dtype: i64, rows: 1, segment: 3
";

/// Whether the layout's text is `LAID`, and the segments.
fn laid(outcome: Outcome) -> (bool, Vec<Blob>) {
    let (told, segments) = outcome;
    (is_text(&told, LAID), segments)
}

/// Layout and segments are those of the write by one machine.
pub(crate) fn two_columns_as_one_machine<R: Abort + Threads + Wait + Sync>(
    rt: &R,
    alloc: Global,
) -> Result<(), Fail> {
    let (is_laid, stored) = laid(streamed(alloc, PLAIN)?);
    assert!(rt; is_laid);
    let (is_laid, segments) = laid(divided(rt, alloc, PLAIN, Vec::new(alloc), &NoGate)?);
    assert!(rt; is_laid);
    assert!(rt; segments.len() == 4);
    assert!(rt; same_bytes(&stored, &segments));
    Ok(())
}

/// The sink fails at its second append: one segment stands.
pub(crate) fn a_sink_that_fails<R: Abort + Threads + Wait + Sync>(
    rt: &R,
    alloc: Global,
) -> Result<(), Fail> {
    let fail = vec![in alloc; 1]?;
    let (found, segments) = divided(rt, alloc, PLAIN, fail, &NoGate)?;
    assert!(rt; matches!(&found, Err(WriteError::SinkFault)));
    assert!(rt; segments.len() == 1);
    Ok(())
}

/// Neither column's first call of its compressor goes on until the other's has begun: they run beside each other.
pub(crate) fn columns_beside_each_other<R: Abort + Threads + Wait + Sync>(
    rt: &R,
    alloc: Global,
) -> Result<(), Fail> {
    let gate = Meeting::new(rt, 10_000_000);
    let (found, segments) = divided(rt, alloc, COMPRESSED, Vec::new(alloc), &gate)?;
    assert!(rt; found.is_ok());
    assert!(rt; segments.len() == 4);
    let seen = gate.into_seen();
    assert!(rt; seen.first_saw);
    assert!(rt; seen.second_saw);
    assert!(rt; !seen.gave_up);
    Ok(())
}
