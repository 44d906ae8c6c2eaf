//! A write of eight columns, by one machine and column by column.

use anyhow::{Result, bail, ensure};
use std::alloc::Global;
use std::sync::Wait;
use std::thread::Threads;
use std::time::Instant;
use vx_gate::NoGate;
use vx_job::{Job, read_job};
use vx_layout_tree::Layout;
use vx_model::Blob;
use vx_sink::{BatchSource, LayoutWriterContext, ListSource, MemorySink};
use vx_strategy::Strategy;
use vx_table_compressor::TableCompressor;
use vx_write::{WriteError, column_count, write_stream};
use vx_write_columns::write_columns;

const COLUMNS: u64 = 8;

/// The rows of a batch.
#[derive(Clone, Copy)]
pub(crate) struct Size {
    pub batches: u64,
    pub rows: u64,
}

/// Segments that were written, and how many nanoseconds that took.
#[derive(Drop)]
struct Written {
    segments: Vec<Blob>,
    nanos: u128,
}

/// What a write by columns comes to.
type Divided = Result<
    (Layout, MemorySink, Vec<TableCompressor>),
    (WriteError, MemorySink, Vec<TableCompressor>),
>;

/// A column's rows in a batch, each one of 251 numbers.
fn push_column(alloc: Global, text: &mut String, column: u64, from: u64, rows: u64) -> Result<()> {
    text.push_str("[")?;
    for row in 0..rows {
        let value = from.wrapping_add(row).wrapping_mul(37).wrapping_add(column) % 251;
        let comma = comma_before(row);
        let item = format!(in alloc; "{comma}{value}")?;
        text.push_str(item.as_str())?;
    }
    text.push_str("]")?;
    Ok(())
}

/// What stands before the item of this place.
fn comma_before(place: u64) -> &'static str {
    if place == 0 { "" } else { "," }
}

fn push_batch(alloc: Global, text: &mut String, from: u64, rows: u64) -> Result<()> {
    text.push_str("{\"struct\":{\"fields\":[")?;
    for column in 0..COLUMNS {
        text.push_str(comma_before(column))?;
        push_column(alloc, text, column, from, rows)?;
    }
    let end = format!(in alloc; "],\"rows\":{rows}}}}}")?;
    text.push_str(end.as_str())?;
    Ok(())
}

fn push_schema(alloc: Global, text: &mut String) -> Result<()> {
    text.push_str("{\"schema\":{\"struct\":[")?;
    for column in 0..COLUMNS {
        let comma = comma_before(column);
        let field = format!(in alloc; "{comma}[\"c{column}\",\"i64\"]")?;
        text.push_str(field.as_str())?;
    }
    text.push_str("]}")?;
    Ok(())
}

/// A job of so many batches, whose chunks the compressor makes dictionaries of.
fn job_text(alloc: Global, size: Size) -> Result<String> {
    let mut text = String::new(alloc);
    push_schema(alloc, &mut text)?;
    text.push_str(
        ",\"strategy\":{\"struct\":{\"validity\":\"flat\",\"fields\":[],\"default\":{\"compress\":{\"child\":{\"chunked\":\"flat\"},\"which\":1,\"concurrency\":1}}}},\"batches\":[",
    )?;
    for batch in 0..size.batches {
        text.push_str(comma_before(batch))?;
        push_batch(alloc, &mut text, batch.wrapping_mul(size.rows), size.rows)?;
    }
    text.push_str("]}")?;
    Ok(text)
}

fn by_machine(rt: &HostRuntime, alloc: Global, job: Job) -> Result<Written> {
    let faults = job.faults;
    let mut ctx = LayoutWriterContext::new(job.encodings);
    let mut source = ListSource::new(job.schema, job.batches, faults.source);
    let mut sink = MemorySink::new(job.next, faults.sink);
    let nanos = stream(rt, alloc, &job.strategy, &mut ctx, &mut source, &mut sink)?;
    Ok(Written {
        segments: sink.into_segments(),
        nanos,
    })
}

/// Writes by one machine, which takes the first ready task, and tells how many nanoseconds that took.
fn stream(
    rt: &HostRuntime,
    alloc: Global,
    strategy: &Strategy,
    ctx: &mut LayoutWriterContext,
    source: &mut ListSource,
    sink: &mut MemorySink,
) -> Result<u128> {
    let mut compressor = TableCompressor::new(Vec::new(alloc));
    let start = Instant::now(rt)?;
    let written = write_stream(alloc, strategy, ctx, source, sink, &[], &mut compressor);
    let elapsed = start.elapsed(rt);
    let is_written = written.is_ok();
    drop(written);
    ensure!(is_written, "not written");
    Ok(elapsed?.as_nanos())
}

fn compressors(alloc: Global) -> Result<Vec<TableCompressor>> {
    let mut compressors = Vec::new(alloc);
    for _column in 0..COLUMNS {
        compressors.push(TableCompressor::new(Vec::new(alloc)))?;
    }
    Ok(compressors)
}

fn by_columns<R: Threads + Wait + Sync>(
    threads: &R,
    rt: &HostRuntime,
    alloc: Global,
    job: Job,
) -> Result<Written> {
    let faults = job.faults;
    let mut ctx = LayoutWriterContext::new(job.encodings);
    let mut source = ListSource::new(job.schema, job.batches, faults.source);
    let sink = MemorySink::new(job.next, faults.sink);
    divide(
        threads,
        rt,
        alloc,
        &job.strategy,
        &mut ctx,
        &mut source,
        sink,
    )
}

/// Writes column by column, and tells how many nanoseconds that took.
fn divide<R: Threads + Wait + Sync>(
    threads: &R,
    rt: &HostRuntime,
    alloc: Global,
    strategy: &Strategy,
    ctx: &mut LayoutWriterContext,
    source: &mut ListSource,
    sink: MemorySink,
) -> Result<Written> {
    let compressors = compressors(alloc)?;
    let Some(columns) = column_count(strategy, source.dtype()) else {
        bail!("no columns");
    };
    ensure!(columns > 0, "no column");
    ensure!(columns == compressors.len() as u64, "other columns");
    let start = Instant::now(rt)?;
    let written = write_columns(
        threads,
        alloc,
        strategy,
        ctx,
        source,
        sink,
        compressors,
        &NoGate,
    );
    let elapsed = start.elapsed(rt);
    let sink = sink_of(written)?;
    Ok(Written {
        segments: sink.into_segments(),
        nanos: elapsed?.as_nanos(),
    })
}

/// The sink of a write that came to its end.
fn sink_of(written: Divided) -> Result<MemorySink> {
    match written {
        Ok((_layout, sink, _compressors)) => Ok(sink),
        Err((error, _sink, _compressors)) => Err(error.into()),
    }
}

fn job_of(alloc: Global, text: &str) -> Result<Job> {
    Ok(read_job(alloc, text.as_bytes())?)
}

fn are_same(a: &[Blob], b: &[Blob]) -> bool {
    a.len() == b.len() && a.iter().zip(b).all(|(a, b)| a.as_slice() == b.as_slice())
}

/// Writes it so many times in both ways, and prints the least milliseconds of each.
pub(crate) fn print_columns<R: Threads + Wait + Sync>(
    threads: &R,
    rt: &HostRuntime,
    size: Size,
    rounds: u64,
    timed: bool,
) -> Result<()> {
    let alloc = rt.alloc();
    let text = job_text(alloc, size)?;
    let mut machine = u128::MAX;
    let mut columns = u128::MAX;
    let mut segments = 0;
    let mut same = true;
    for _round in 0..rounds {
        let one = by_machine(rt, alloc, job_of(alloc, &text)?)?;
        let other = by_columns(threads, rt, alloc, job_of(alloc, &text)?)?;
        machine = machine.min(one.nanos);
        columns = columns.min(other.nanos);
        segments = other.segments.len();
        same = same && are_same(&one.segments, &other.segments);
    }
    println!(rt; "{COLUMNS} columns: {segments} segments, the same: {same}")?;
    if timed {
        println!(rt;
            "one machine: {} us, columns on threads: {} us",
            machine / 1000,
            columns / 1000
        )?;
    }
    Ok(())
}
