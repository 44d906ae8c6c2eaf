//! Chunks are held up to a number of bytes.

ghost use Rattle.std.specs.Prelude.{◌≡◌, ◌+◌, ◌<◌, ◌≤◌, ◌++◌, ◌∷◌, [], false, IfOk, OnOk, IfErr};
ghost use Rattle.vx_model.specs.ChunkData.{held as held_of};
ghost use Rattle.vx_rules.specs.Flushes.{flushes, flushed, still_held};
ghost use Rattle.vx_regroup.specs.Held.{buffer_view};
ghost use Rattle.vx_regroup.specs.Kept.{chunks_in, BufferStands};
ghost use Rattle.vx_regroup.specs.Refusals.{first_past, Refuses};
ghost use Rattle.vx_regroup.specs.Rules.{given, chunks_after, weights, weighed_at};

use std::alloc::{AllocError, Global};
use std::collections::VecDeque;
use std::marker::Model;
use std::mem;
use vx_chunk::{Chunk, ChunkError};

/// A chunk and the bytes that it takes as it is held.
#[derive(Drop)]
struct Kept {
    chunk: Chunk,
    bytes: u64,
}

/// Holds chunks until they take twice the size in bytes.
#[derive(Drop)]
pub struct Buffered {
    size: u64,
    kept: VecDeque<Kept>,
    total: u64,
}

impl Model for Buffered {
    ghost use Rattle.vx_regroup.specs.Held.{ChunksHeld, buffer_code, buffer_view};

    ghost Value = { ChunksHeld };

    ghost coded = { buffer_code };

    ghost use Rattle.vx_regroup.specs.Kept.{chunks_in, BufferStands};

    ghost view = { λ b. buffer_view b.size (chunks_in b.kept.items) };

    ghost invariant = { λ b. BufferStands b.kept.items b.total };
}

impl Buffered {
    /// Of a size in bytes. Takes no memory.
    pub fn new(alloc: Global, size: u64) -> Buffered
        ensures { result ≡ buffer_view size [] }
    {
        Buffered {
            size,
            kept: VecDeque::new(alloc),
            total: 0,
        }
    }

    /// The chunks that leave at the chunk, as they are; at the last one all. Linear in the bytes of the chunk, which is
    /// weighed once and not at all where it is the last, and in the number of chunks that leave. After an error nothing
    /// is known of what is held.
    pub fn react(
        &mut self,
        alloc: Global,
        chunk: Chunk,
        last: bool,
    ) -> Result<Vec<Chunk>, ChunkError>
        ensures gives { IfOk result (λ v. v.items ≡ given (flushes self.old.size) self.old.chunks chunk last) }
        ensures holds { OnOk result (last ≡ false → self.new ≡ chunks_after self.old chunk) }
        ensures fits { OnOk result (first_past (weighed_at self.old chunk last) ≡ None) }
        ensures refused { IfErr result (Refuses (first_past (weighed_at self.old chunk last))) }
    {
        let total = self.total;
        self.total = 0;
        let kept = mem::replace(&mut self.kept, VecDeque::new(alloc));
        if last {
            return Ok(all_of(alloc, kept, chunk)?);
        }
        let (chunks, kept, total) = pushed(alloc, kept, chunk, total, self.size)?;
        self.kept = kept;
        self.total = total;
        Ok(chunks)
    }
}

/// What leaves where the chunk comes behind those that are held, which take `total` bytes; what is held then, and its
/// bytes.
fn pushed(
    alloc: Global,
    mut kept: VecDeque<Kept>,
    chunk: Chunk,
    total: u64,
    size: u64,
) -> Result<(Vec<Chunk>, VecDeque<Kept>, u64), ChunkError>
    requires { BufferStands kept.items total }
    ensures leaves { IfOk result (λ r. r.0.items ≡ (flushes size).leaves (chunks_in kept.items) chunk) }
    ensures holds { IfOk result (λ r. chunks_in r.1.items ≡ (flushes size).holds (chunks_in kept.items) chunk) }
    ensures stands { IfOk result (λ r. BufferStands r.1.items r.2) }
    ensures fits { OnOk result (first_past (weights size (chunks_in kept.items) chunk) ≡ None) }
    ensures refused { IfErr result (Refuses (first_past (weights size (chunks_in kept.items) chunk))) }
{
    match weighed(&chunk, total) {
        Ok((bytes, total)) => {
            kept.push_back(Kept { chunk, bytes })?;
            if total < size.saturating_mul(2) {
                return Ok((Vec::new(alloc), kept, total));
            }
            Ok(flush(alloc, kept, total, size)?)
        }
        Err(error) => {
            drop(chunk);
            Err(error)
        }
    }
}

/// The bytes that the chunk takes, and the sum with them.
#[tactic(auto, using(crate::proofs::PastSteps::weigh_rules))]
fn weighed(chunk: &Chunk, total: u64) -> Result<(u64, u64), ChunkError>
    ensures bytes { IfOk result (λ r. r.0 ≡ held_of chunk.now) }
    ensures total { IfOk result (λ r. r.1 ≡ total + r.0) }
    ensures fits { OnOk result (first_past (held_of chunk.now ∷ (total + held_of chunk.now) ∷ []) ≡ None) }
    ensures refused { IfErr result (Refuses (first_past (held_of chunk.now ∷ (total + held_of chunk.now) ∷ []))) }
{
    let bytes = chunk.nbytes()?;
    let total = total_with(total, bytes)?;
    Ok((bytes, total))
}

/// The sum, where it fits 64 bits.
#[tactic(auto, using(crate::proofs::PastSteps::past_rules))]
fn total_with(total: u64, bytes: u64) -> Result<u64, ChunkError>
    ensures ok { IfOk result (λ n. n ≡ total + bytes) }
    ensures fits { OnOk result (first_past ((total + bytes) ∷ []) ≡ None) }
    ensures refused { IfErr result (Refuses (first_past ((total + bytes) ∷ []))) }
{
    let sum = u128::from(total) + u128::from(bytes);
    if sum > u128::from(u64::MAX) {
        return Err(ChunkError::TooLarge(sum));
    }
    Ok(sum as u64)
}

/// Chunks from the front, as many as it takes until at most the size is held; those behind them, and their bytes.
#[tactic(auto, using(crate::proofs::FlushSteps::flush_rules))]
fn flush(
    alloc: Global,
    mut kept: VecDeque<Kept>,
    mut total: u64,
    size: u64,
) -> Result<(Vec<Chunk>, VecDeque<Kept>, u64), AllocError>
    requires { BufferStands kept.items total }
    ensures leaves { IfOk result (λ r. r.0.items ≡ flushed size (chunks_in kept.items)) }
    ensures holds { IfOk result (λ r. chunks_in r.1.items ≡ still_held size (chunks_in kept.items)) }
    ensures stands { IfOk result (λ r. BufferStands r.1.items r.2) }
{
    let mut chunks = Vec::new(alloc);
    while total > size {
        let Some(first) = kept.pop_front() else {
            unreachable!()
        };
        total -= first.bytes;
        chunks.push(first.chunk)?;
    }
    Ok((chunks, kept, total))
}

/// The chunks that are held, and the last.
fn all_of(alloc: Global, kept: VecDeque<Kept>, last: Chunk) -> Result<Vec<Chunk>, AllocError>
    ensures { IfOk result (λ v. v.items ≡ chunks_in kept.items ++ last ∷ []) }
{
    let Ok(mut chunks) = chunks_of(alloc, kept) else {
        drop(last);
        return Err(AllocError);
    };
    chunks.push(last)?;
    Ok(chunks)
}

/// The chunks that are held.
#[tactic(auto, using(crate::proofs::FlushSteps::all_rules))]
fn chunks_of(alloc: Global, kept: VecDeque<Kept>) -> Result<Vec<Chunk>, AllocError>
    ensures { IfOk result (λ v. v.items ≡ chunks_in kept.items) }
{
    let kept = Vec::from(kept);
    let mut chunks = Vec::with_capacity(alloc, kept.len())?;
    for one in kept {
        chunks.push(one.chunk)?;
    }
    Ok(chunks)
}
