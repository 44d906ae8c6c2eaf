//! Filters.

ghost use Rattle.std.specs.Prelude.{nat_eq, ◌≡◌, ◌<◌, ◌≢◌, ◌↔◌, ◌++◌, ◌∷◌, [], List, ℕ, IsTrue, All, Contains, length, replicate, IfOk, OnOk, OnErr, IsErr, Some, slice_get};
ghost use lib.Pointwise.{pointwise};
ghost use Rattle.vx_bloom_spec.specs.Blocks.{Block, no_lanes, full_lanes};
ghost use Rattle.vx_bloom_spec.specs.Bytes.{filter_bytes, filter_at, AreBlocks};
ghost use Rattle.vx_bloom.specs.Partial.{ReadsFilter};
ghost use Rattle.vx_bloom_spec.specs.Filter.{block_of, inserted, may_contain, or_blocks, filter_of, SameElements};
ghost use Rattle.vx_bloom_options.specs.Options.{blocks_in};

use crate::block::{block_of, covers, is_full, mask, no_lanes, or_into, or_lanes};
use crate::bytes::{BLOCK_LEN, blocks_at, push_block};
use std::alloc::{AllocError, Global};
use std::marker::{Model, PhantomData};
use std::simd::Simd;
use thiserror::Error;
use vx_bloom_options::BloomOptions;
use vx_hash::ByteHash;

/// Two filters that have not the same number of blocks.
#[derive(Debug, Drop, Error)]
#[error("the filters have not the same number of blocks")]
pub struct BlockCount;

/// Why bytes are not the bytes of a filter that was asked for.
#[derive(Debug, Drop, Error)]
pub enum PartialError {
    /// There are no bytes, no whole blocks, or more than 2^32 - 1 of them.
    #[error("so many bytes are not those of a filter")]
    Length,
    /// They have another number of blocks than was asked for.
    #[error("the filter has another number of blocks")]
    BlockCount,
    #[error("out of memory")]
    OutOfMemory,
}

impl From<AllocError> for PartialError {
    ghost use Rattle.std.specs.Prelude.{◌≡◌};
    ghost use Rattle.vx_bloom.specs.declared.partial.PartialError.TheVariants.{OutOfMemory};

    ghost from_gives = { λ _ e. e ≡ OutOfMemory };

    fn from(_error: AllocError) -> PartialError {
        PartialError::OutOfMemory
    }
}

/// A filter by the hash function `H`. Contracts see its blocks.
pub struct BloomPartial<H: ByteHash> {
    blocks: Vec<Simd<u32, 8>>,
    hash: PhantomData<H>,
}

impl<H: ByteHash> Model for BloomPartial<H> {
    ghost use Rattle.std.specs.Prelude.{List, ℕ, length, ◌≤◌, ◌<◌, ◌^◌};

    ghost Value = { List (List ℕ) };

    ghost view = { λ p. p.blocks.items };

    ghost invariant = { λ p. (1 ≤ length p.blocks.items) × (length p.blocks.items < 2 ^ 32) };
}

// By hand, since a derive would ask that the hash function can be dropped.
impl<H: ByteHash> Drop for BloomPartial<H> {
    fn drop(self) {
        let BloomPartial { blocks: _, hash: _ } = self;
    }
}

impl<H: ByteHash> BloomPartial<H> {
    /// The empty filter with the options' number of blocks.
    #[tactic(auto, using(vx_bloom_spec::proofs::Filters::empty_rules))]
    pub fn from(alloc: Global, options: &BloomOptions) -> Result<BloomPartial<H>, AllocError>
        ensures { IfOk result (λ p. p ≡ filter_of (blocks_in options.now) []) }
    {
        let count = options.blocks_count().get() as usize;
        let mut blocks = Vec::with_capacity(alloc, count)?;
        'places: for _ in 0..count {
            blocks.push(no_lanes())?;
        }
        Ok(BloomPartial {
            blocks,
            hash: PhantomData,
        })
    }

    pub(crate) fn block_count(&self) -> u32
        ensures { result ≡ length self.now }
    {
        self.blocks.len() as u32
    }

    /// The lanes of block `i`.
    pub fn block(&self, i: u64) -> Simd<u32, 8>
        requires { i < length self.now }
        ensures { slice_get self.now i ≡ Some result }
    {
        self.blocks[i as usize]
    }

    #[tactic(auto, unfolding(vx_bloom_spec::specs::Filter::inserted))]
    pub(crate) fn insert_hash(&mut self, hash: u64)
        ensures { self.new ≡ inserted self.old hash }
    {
        let place = block_of(hash, self.blocks.len());
        self.blocks[place] = or_lanes(self.blocks[place], mask(hash));
    }

    #[tactic(auto, unfolding(vx_bloom_spec::specs::Filter::may_contain))]
    pub(crate) fn contains_hash(&self, hash: u64) -> bool
        ensures mask { result ≡ may_contain self.now hash }
        ensures within { block_of (length self.now) hash < length self.now }
    {
        let place = block_of(hash, self.blocks.len());
        covers(self.blocks[place], mask(hash))
    }

    /// Sets the value's mask.
    #[tactic(auto, using(vx_bloom_spec::proofs::Filters::insert_rules))]
    pub fn insert(&mut self, value: &[u8])
        ensures mask { self.new ≡ inserted self.old (H.hash value.now) }
        ensures filter { (blocks : ℕ) (hashes : List ℕ) → self.old ≡ filter_of blocks hashes
            → self.new ≡ filter_of blocks (hashes ++ H.hash value.now ∷ []) }
    {
        self.insert_hash(H::oneshot(value));
    }

    /// Whether the value's mask is set. It is for each value that was inserted.
    #[tactic(auto, using(vx_bloom_spec::proofs::Filters::contains_rules))]
    pub fn contains(&self, value: &[u8]) -> bool
        ensures mask { result ≡ may_contain self.now (H.hash value.now) }
        ensures inserted { (blocks : ℕ) (hashes : List ℕ) → self.now ≡ filter_of blocks hashes
            → Contains hashes (H.hash value.now) → IsTrue result }
    {
        self.contains_hash(H::oneshot(value))
    }

    /// Lays the other filter over this one. Refused, it changes nothing.
    #[tactic(auto, using(vx_bloom_spec::proofs::Filters::union_rules))]
    pub fn union(&mut self, other: &BloomPartial<H>) -> Result<(), BlockCount>
        ensures refused { IsErr result ↔ (length self.old ≢ length other.now) }
        ensures ok { OnOk result (self.new ≡ or_blocks self.old other.now) }
        ensures err { OnErr result (self.new ≡ self.old) }
        ensures filter { (blocks : ℕ) (xs ys : List ℕ) → self.old ≡ filter_of blocks xs → other.now ≡ filter_of blocks ys
            → self.new ≡ filter_of blocks (xs ++ ys) }
    {
        if self.blocks.len() != other.blocks.len() {
            return Err(BlockCount);
        }
        or_into(&mut self.blocks, &other.blocks);
        Ok(())
    }

    /// Whether every bit is set, so that every value is contained.
    pub fn is_saturated(&self) -> bool
        ensures { IsTrue result ↔ All (λ block. block ≡ full_lanes) self.now }
    {
        self.blocks.iter().all(|block| is_full(*block))
    }

    /// The lanes, block after block, each as four bytes, low byte first.
    #[tactic(auto, using(vx_bloom_spec::proofs::ReadBack::filter_rules), unfolding(vx_bloom_spec::specs::Bytes::filter_bytes))]
    pub fn serialize(&self, alloc: Global) -> Result<Vec<u8>, AllocError>
        ensures { IfOk result (λ v. v.items ≡ filter_bytes self.now) }
    {
        let mut bytes = Vec::with_capacity(alloc, BLOCK_LEN * self.blocks.len())?;
        'places: for block in &self.blocks {
            push_block(&mut bytes, block.as_array())?;
        }
        Ok(bytes)
    }

    /// The filter that these bytes spell.
    pub fn deserialize(alloc: Global, bytes: &[u8]) -> Result<BloomPartial<H>, PartialError>
        ensures answer { ReadsFilter bytes.now result }
        ensures blocks { IfOk result (λ p. p ≡ filter_at bytes.now) }
        ensures whole { (p : List Block) → AreBlocks p → filter_bytes p ≡ bytes.now → IfOk result (λ q. q ≡ p) }
    {
        let count = bytes.len() / BLOCK_LEN;
        if bytes.len() % BLOCK_LEN != 0 || count == 0 || count > u32::MAX as usize {
            return Err(PartialError::Length);
        }
        let blocks = blocks_at(alloc, bytes, count)?;
        Ok(BloomPartial {
            blocks,
            hash: PhantomData,
        })
    }
}

impl<H: ByteHash> PartialEq for BloomPartial<H> {
    ghost use Rattle.std.specs.Prelude.{nat_eq};
    ghost use Rattle.std.proofs.lemmas.Cmp.{lists_equiv, nat_list_eq_equiv};
    ghost use Rattle.std.specs.Cmp.{partial_equiv_from_equiv};
    ghost use lib.Pointwise.{pointwise};

    ghost eq = { pointwise (pointwise nat_eq) };

    ghost laws = { partial_equiv_from_equiv (lists_equiv nat_list_eq_equiv) };

    fn eq(&self, other: &BloomPartial<H>) -> bool
        ensures value { result ≡ pointwise (pointwise nat_eq) self.now other.now }
        ensures same { IsTrue result ↔ (self.now ≡ other.now) }
        ensures inserted { (blocks : ℕ) (xs ys : List ℕ) → self.now ≡ filter_of blocks xs → other.now ≡ filter_of blocks ys
            → SameElements xs ys → IsTrue result }
    {
        self.blocks == other.blocks
    }
}

impl<H: ByteHash> Eq for BloomPartial<H> {
    ghost use Rattle.std.proofs.lemmas.Cmp.{lists_equiv, nat_list_eq_equiv};

    ghost laws = { lists_equiv nat_list_eq_equiv };
}
