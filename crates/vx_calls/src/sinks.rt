//! What a write is given.

use crate::fixtures::{context, two_integers};
use std::convert::TryFrom;
use std::panic::Expect;
use std::process::Abort;
use std::test::Fail;
use vx_model::Text;
use vx_sink::{
    BufferedBytesTracker, CompressError, CompressorPlugin, LayoutWriterContext, PlainCompressor,
    TooLarge,
};
use vx_types::{Chunk, SegmentId};

/// The rows of the image, or why there is none.
fn image<C: CompressorPlugin>(compressor: &mut C, chunk: &Chunk) -> Result<u64, CompressError> {
    Ok(compressor.compress_chunk(0, chunk)?.len())
}

/// The second of three calls fails.
fn test_images<C: CompressorPlugin>(rt: &impl Abort, compressor: &mut C, chunk: &Chunk) {
    assert!(rt; matches!(image(compressor, chunk), Ok(2)));
    assert!(rt; matches!(image(compressor, chunk), Err(CompressError::Failed)));
    assert!(rt; matches!(image(compressor, chunk), Ok(2)));
}

#[test]
fn compressed_chunks(rt: HostRuntime) -> Result<(), Fail> {
    let alloc = rt.alloc();
    let mut compressor = PlainCompressor::new(vec![in alloc; 1]?);
    let chunk = two_integers(alloc)?;
    test_images(&rt, &mut compressor, &chunk);
    Ok(())
}

#[test]
fn contexts_and_numbers(rt: HostRuntime) -> Result<(), Fail> {
    let alloc = rt.alloc();
    let ctx = LayoutWriterContext::from(context(alloc)?);
    assert!(rt; ctx.array_ctx().ids().len() == 7);
    let shown = format!(in alloc; "{}", SegmentId::from(7u32))?;
    assert!(rt; shown.as_str() == "SegmentId(7)");
    assert!(rt; SegmentId::try_from(4_294_967_295usize).is_ok());
    assert!(rt; SegmentId::try_from(4_294_967_296usize).is_err());
    Ok(())
}

#[test]
fn counted_bytes(rt: HostRuntime) {
    let mut tracker = BufferedBytesTracker::new();
    let first = tracker.reserve(16).expect(&rt, "a total that fits");
    let second = tracker.reserve(32).expect(&rt, "a total that fits");
    assert!(rt; first.bytes() == 16);
    assert!(rt; tracker.buffered_bytes() == 48);
    first.release(&mut tracker);
    assert!(rt; tracker.buffered_bytes() == 32);
    second.release(&mut tracker);
    assert!(rt; tracker.buffered_bytes() == 0);
}

#[test]
fn contexts_count_bytes(rt: HostRuntime) -> Result<(), Fail> {
    let tracker = BufferedBytesTracker::new();
    let ctx = LayoutWriterContext::new(context(rt.alloc())?);
    let mut ctx = ctx.with_buffered_bytes_tracker(tracker);
    let one = ctx
        .reserve_buffered_bytes(1)
        .expect(&rt, "a total that fits");
    match ctx.reserve_buffered_bytes(u64::MAX) {
        Err(TooLarge(total)) => assert!(rt; total == 1 << 64),
        Ok(_) => panic!(rt; "a total past u64"),
    }
    assert!(rt; ctx.buffered_bytes() == 1);
    ctx.release_buffered_bytes(one);
    assert!(rt; ctx.buffered_bytes_tracker().buffered_bytes() == 0);
    Ok(())
}

#[test]
fn contexts_allow_aggregates(rt: HostRuntime) -> Result<(), Fail> {
    let alloc = rt.alloc();
    let ctx = LayoutWriterContext::new(context(alloc)?);
    assert!(rt; ctx.allows_aggregate("vortex.max") && !ctx.has_nullable_ancestor());
    let allowed = vec![in alloc; Text::from_str(alloc, "vortex.min")?]?;
    let ctx = ctx
        .with_allowed_aggregates(allowed)
        .with_nullable_ancestor();
    assert!(rt; ctx.allows_aggregate("vortex.min") && !ctx.allows_aggregate("vortex.max"));
    assert!(rt; ctx.has_nullable_ancestor());
    let worker = ctx.for_worker()?;
    assert!(rt; worker.allows_aggregate("vortex.min") && !worker.allows_aggregate("vortex.max"));
    assert!(rt; worker.has_nullable_ancestor() && worker.buffered_bytes() == 0);
    Ok(())
}
