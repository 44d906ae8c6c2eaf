//! All chunks leave as one.

ghost use Rattle.std.specs.Prelude.{◌≡◌, ◌++◌, ◌∷◌, [], false, length, IfOk, OnOk, IfErr, IsTrue};
ghost use Rattle.vx_model.specs.ChunkData.{piece_type};
ghost use Rattle.vx_model.specs.TyView.{ty};
ghost use Rattle.vx_chunk.specs.Conditions.{are_of_type};
ghost use Rattle.vx_rules.specs.Flushes.{concatenated};
ghost use Rattle.vx_regroup.specs.Held.{all_view};
ghost use Rattle.vx_regroup.specs.Refusals.{first_past, Refuses};
ghost use Rattle.vx_regroup.specs.Rules.{collected_at, all_after, row_count, counted_at};

use std::alloc::Global;
use std::marker::Model;
use std::mem;
use vx_chunk::{Chunk, ChunkError};
use vx_model::DType;

/// Holds all chunks of a stream.
#[derive(Drop)]
pub struct Collect {
    dtype: DType,
    chunks: Vec<Chunk>,
}

impl Model for Collect {
    ghost use Rattle.vx_regroup.specs.Held.{AllHeld, all_code, all_view, AllStand};

    ghost Value = { AllHeld };

    ghost coded = { all_code };

    ghost view = { λ a. all_view a.dtype a.chunks.items };

    ghost invariant = { λ a. AllStand (all_view a.dtype a.chunks.items) };
}

impl Collect {
    /// Takes no memory.
    pub fn new(alloc: Global, dtype: DType) -> Collect
        ensures { result ≡ all_view dtype [] }
    {
        Collect {
            dtype,
            chunks: Vec::new(alloc),
        }
    }

    /// Nothing, and at the last chunk the rows of all as one chunked chunk, of which no row is copied. Linear in the
    /// number of chunks at the last one. After an error nothing is known of what is held.
    #[tactic(auto, using(crate::proofs::PastSteps::type_rules))]
    pub fn react(
        &mut self,
        alloc: Global,
        chunk: Chunk,
        last: bool,
    ) -> Result<Vec<Chunk>, ChunkError>
        requires { piece_type chunk ≡ self.old.typed }
        ensures gives { IfOk result (λ v. v.items ≡ collected_at self.old chunk last) }
        ensures holds { OnOk result (last ≡ false → self.new ≡ all_after self.old chunk) }
        ensures fits { OnOk result (first_past (counted_at self.old chunk last) ≡ None) }
        ensures refused { IfErr result (Refuses (first_past (counted_at self.old chunk last))) }
    {
        let mut chunks = mem::replace(&mut self.chunks, Vec::new(alloc));
        chunks.push(chunk)?;
        if last {
            return as_one(alloc, &self.dtype, chunks);
        }
        self.chunks = chunks;
        Ok(Vec::new(alloc))
    }
}

/// The rows of all chunks in one.
#[tactic(auto, using(crate::proofs::PastSteps::past_rules))]
fn as_one(alloc: Global, dtype: &DType, chunks: Vec<Chunk>) -> Result<Vec<Chunk>, ChunkError>
    requires { IsTrue (are_of_type (ty dtype.now) chunks.items) }
    ensures one { IfOk result (λ v. v.items ≡ concatenated (ty dtype.now) chunks.items ∷ []) }
    ensures fits { OnOk result (first_past (row_count chunks.items ∷ []) ≡ None) }
    ensures refused { IfErr result (Refuses (first_past (row_count chunks.items ∷ []))) }
{
    let whole = Chunk::concat(alloc, dtype.clone()?, chunks)?;
    whole.sound();
    Ok(vec![in alloc; whole]?)
}
