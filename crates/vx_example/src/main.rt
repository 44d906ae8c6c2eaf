//! Writes two batches of 64-bit integers into memory, each as a chunk by itself, and prints the rows that are read back.
#![tactic(auto)]

use anyhow::{Result, ensure};
use std::alloc::Global;
use vx::layout::{Layout, SegmentMap, read_rows};
use vx::sink::{LayoutWriterContext, ListSource, MemorySink, PlainCompressor};
use vx::strategy::{ChunkedLayoutStrategy, FlatLayoutStrategy};
use vx::types::{ArrayContext, Cell, Chunk, DType, EncodingId, Nullability, PType, fits};
use vx::write::write_stream;

fn integers() -> DType {
    DType::Primitive(PType::I64, Nullability::NonNullable)
}

fn push_batch(batches: &mut Vec<Chunk>, cells: Vec<Cell>) -> Result<()> {
    let dtype = integers();
    ensure!(fits(&dtype, &cells), "a cell is no 64-bit integer");
    batches.push(Chunk::plain(dtype, cells))?;
    Ok(())
}

fn batches(alloc: Global) -> Result<Vec<Chunk>> {
    let mut batches = Vec::new(alloc);
    push_batch(&mut batches, vec![in alloc; Cell::Int(1), Cell::Int(2)]?)?;
    push_batch(&mut batches, vec![in alloc; Cell::Int(3)]?)?;
    Ok(batches)
}

/// Writes the batches of the source, each as a chunk by itself.
fn write(alloc: Global, source: &mut ListSource, sink: &mut MemorySink) -> Result<Layout> {
    let encodings = ArrayContext::try_new(vec![in alloc; EncodingId::Plain]?)?;
    let flat = FlatLayoutStrategy::default().into_strategy();
    let strategy = ChunkedLayoutStrategy::new(alloc, flat)?.into_strategy();
    let mut ctx = LayoutWriterContext::new(encodings);
    let mut plain = PlainCompressor::new(Vec::new(alloc));
    match write_stream(alloc, &strategy, &mut ctx, source, sink, &[], &mut plain) {
        Ok(written) => Ok(written.layout),
        Err(refused) => Err(refused.error.into()),
    }
}

/// Reads the rows of the layout from the segments, and prints each in a line.
fn print_rows(
    rt: &impl Print,
    alloc: Global,
    layout: &Layout,
    segments: &SegmentMap,
) -> Result<()> {
    for row in read_rows(alloc, layout, segments)? {
        println!(rt; "{row:?}")?;
    }
    Ok(())
}

fn main(rt: HostRuntime) -> Result<()> {
    let alloc = rt.alloc();
    let mut source = ListSource::new(integers(), batches(alloc)?, Vec::new(alloc));
    let mut sink = MemorySink::new(0, Vec::new(alloc));
    let layout = write(alloc, &mut source, &mut sink)?;
    let list = sink.into_segments();
    print_rows(&rt, alloc, &layout, &SegmentMap { first: 0, list })
}
