//! The rules by which a stream is regrouped.

ghost use Rattle.std.specs.Prelude.{◌≡◌, ◌<◌, ◌++◌, ◌∷◌, [], List, false, IfOk, OnOk, IfErr};
ghost use Rattle.vx_model.specs.ChunkData.{ChunkData};
ghost use Rattle.vx_model.specs.TyView.{ty};
ghost use Rattle.vx_regroup.specs.declared.regroup.Regroup.{Regroup};
ghost use Rattle.vx_regroup.specs.Refusals.{first_past, Refuses};
ghost use Rattle.vx_regroup.specs.Regrouping.{new_blocks, new_buffer, new_collection, Takes, given_by, after, taken, numbers_at};

use crate::buffered::Buffered;
use crate::collect::Collect;
use crate::repartition::Repartition;
use std::alloc::Global;
use vx_chunk::{Chunk, ChunkError};
use vx_model::DType;

/// A rule, and what it holds of the chunks that came.
#[derive(Drop)]
pub enum Regroup {
    /// Into blocks of rows.
    Repartition(Repartition),
    /// Held up to a number of bytes.
    Buffered(Buffered),
    /// Into one chunk.
    Collect(Collect),
}

impl Regroup {
    /// Blocks of a multiple of `len` rows, and of at least `minimum` bytes. Takes no memory.
    pub fn repartition(alloc: Global, dtype: DType, len: u64, minimum: u64) -> Regroup
        requires { 0 < len }
        ensures { result ≡ new_blocks (ty dtype) len minimum }
    {
        Regroup::Repartition(Repartition::new(alloc, dtype, len, minimum))
    }

    /// Of a size in bytes; for chunks of any type. Takes no memory.
    pub fn buffered(alloc: Global, size: u64) -> Regroup
        ensures { result ≡ new_buffer size }
    {
        Regroup::Buffered(Buffered::new(alloc, size))
    }

    /// Takes no memory.
    pub fn collect(alloc: Global, dtype: DType) -> Regroup
        ensures { result ≡ new_collection (ty dtype) }
    {
        Regroup::Collect(Collect::new(alloc, dtype))
    }

    /// The chunks that leave at the chunk, by rank; at the last one all. Its cost is that of the rule's own `react`.
    /// `TooLarge` tells the first of the rule's numbers that is above the greatest u64; after an error nothing is known
    /// of what is held.
    pub fn react(
        &mut self,
        alloc: Global,
        chunk: Chunk,
        last: bool,
    ) -> Result<Vec<Chunk>, ChunkError>
        requires { Takes self.old chunk }
        ensures gives { IfOk result (λ v. v.items ≡ given_by self.old chunk last) }
        ensures holds { OnOk result (last ≡ false → self.new ≡ after self.old chunk) }

        // What stands behind a list of chunks goes on to stand behind it and the chunk.
        ensures taken { OnOk result (last ≡ false → (first : Regroup) (cs : List ChunkData) → self.old ≡ taken first cs → self.new ≡ taken first (cs ++ chunk ∷ [])) }
        ensures fits { OnOk result (first_past (numbers_at self.old chunk last) ≡ None) }
        ensures refused { IfErr result (Refuses (first_past (numbers_at self.old chunk last))) }
    {
        match self {
            Regroup::Repartition(rule) => rule.react(alloc, chunk, last),
            Regroup::Buffered(rule) => rule.react(alloc, chunk, last),
            Regroup::Collect(rule) => rule.react(alloc, chunk, last),
        }
    }
}
