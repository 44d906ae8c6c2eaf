//! The plain form of filters: a block is an array of eight numbers, and each is worked on by itself. Filters by vectors,
//! of vx_bloom, are compared with it by cases and by time.
#![tactic(auto)]

ghost use Rattle.std.specs.Prelude.{◌≡◌, ◌==◌, ◌↔◌, ◌<◌, ◌≤◌, ◌^◌, [], IsTrue, All, IfOk, Some, length, bit_and, replicate, slice_get};
ghost use Rattle.vx_bloom_spec.specs.Filter.{block_of, filter_of, inserted, may_contain, or_blocks};
ghost use Rattle.vx_bloom_spec.specs.Blocks.{chosen_bit, mask, no_lanes, full_lanes, or_lanes, covers};

use std::alloc::{AllocError, Global};
use std::marker::Model;

// The lanes of a block.
const LANES: usize = 8;

type Block = [u32; LANES];

const SALTS: Block = [
    0x47b6_137b,
    0x4497_4d91,
    0x8824_ad5b,
    0xa2b7_289d,
    0x7054_95c7,
    0x2df1_424b,
    0x9efc_4947,
    0x5c6b_fb31,
];

#[inline(always)]
#[tactic(auto, unfolding(vx_bloom_spec::specs::Blocks::chosen_bit))]
fn chosen_bit(hash: u64, salt: u32) -> u32
    ensures { result ≡ chosen_bit hash salt }
{
    let low = (hash % 0x1_0000_0000) as u32;
    1 << (low.wrapping_mul(salt) / 0x800_0000)
}

#[inline(always)]
#[tactic(auto, unfolding(vx_bloom_spec::specs::Blocks::mask))]
fn mask(hash: u64) -> Block
    ensures { result ≡ mask hash }
{
    [
        chosen_bit(hash, SALTS[0]),
        chosen_bit(hash, SALTS[1]),
        chosen_bit(hash, SALTS[2]),
        chosen_bit(hash, SALTS[3]),
        chosen_bit(hash, SALTS[4]),
        chosen_bit(hash, SALTS[5]),
        chosen_bit(hash, SALTS[6]),
        chosen_bit(hash, SALTS[7]),
    ]
}

#[tactic(auto, unfolding(vx_bloom_spec::specs::Blocks::no_lanes))]
fn no_lanes() -> Block
    ensures { result ≡ no_lanes }
{
    [0; LANES]
}

#[inline(always)]
#[tactic(auto, unfolding(vx_bloom_spec::specs::Blocks::or_lanes))]
fn or_lanes(a: &Block, b: &Block) -> Block
    ensures { result ≡ or_lanes a.now b.now }
{
    [
        a[0] | b[0],
        a[1] | b[1],
        a[2] | b[2],
        a[3] | b[3],
        a[4] | b[4],
        a[5] | b[5],
        a[6] | b[6],
        a[7] | b[7],
    ]
}

#[inline(always)]
fn lane_covers(lane: u32, bits: u32) -> bool
    ensures { result ≡ (bit_and lane bits == bits) }
{
    lane & bits == bits
}

// Whether each bit of `bits` is in the block.
#[inline(always)]
#[tactic(auto, unfolding(vx_bloom_spec::specs::Blocks::covers))]
fn covers(block: &Block, bits: &Block) -> bool
    ensures { result ≡ covers block.now bits.now }
{
    lane_covers(block[0], bits[0])
        & lane_covers(block[1], bits[1])
        & lane_covers(block[2], bits[2])
        & lane_covers(block[3], bits[3])
        & lane_covers(block[4], bits[4])
        & lane_covers(block[5], bits[5])
        & lane_covers(block[6], bits[6])
        & lane_covers(block[7], bits[7])
}

// Whether each bit of the block is set.
#[inline(always)]
#[tactic(auto, unfolding(vx_bloom_spec::specs::Blocks::full_lanes))]
fn is_full(block: &Block) -> bool
    ensures { IsTrue result ↔ (block.now ≡ full_lanes) }
{
    *block == [u32::MAX; LANES]
}

// The block that a hash falls into, of so many.
#[inline(always)]
#[tactic(auto, using(vx_bloom_spec::proofs::Places::place_rules))]
fn block_of(hash: u64, blocks: usize) -> usize
    requires some { 1 ≤ blocks }
    requires few { blocks < 2 ^ 32 }
    ensures place { result ≡ block_of blocks hash }
    ensures within { result < blocks }
{
    ((hash / 0x1_0000_0000) * blocks as u64 / 0x1_0000_0000) as usize
}

// Lays the other blocks over these, one by one.
#[tactic(auto, using(vx_bloom_spec::proofs::Places::or_rules))]
fn or_into(blocks: &mut Vec<Block>, others: &[Block])
    requires { length blocks.old.items ≡ length others.now }
    ensures { blocks.new.items ≡ or_blocks blocks.old.items others.now }
{
    'places: for place in 0..others.len() {
        blocks[place] = or_lanes(&blocks[place], &others[place]);
    }
}

/// A filter of hashes. Contracts see its blocks.
#[derive(Debug, Drop)]
pub struct PlainFilter {
    blocks: Vec<[u32; 8]>,
}

impl Model for PlainFilter {
    ghost use Rattle.std.specs.Prelude.{List, ℕ, length, ◌≤◌, ◌<◌, ◌^◌};

    ghost Value = { List (List ℕ) };

    ghost view = { λ p. p.blocks.items };

    ghost invariant = { λ p. (1 ≤ length p.blocks.items) × (length p.blocks.items < 2 ^ 32) };
}

impl PlainFilter {
    /// The empty filter of so many blocks.
    #[tactic(auto, using(vx_bloom_spec::proofs::Filters::empty_rules))]
    pub fn new(alloc: Global, count: u32) -> Result<PlainFilter, AllocError>
        requires { 1 ≤ count }
        ensures { IfOk result (λ p. p ≡ filter_of count []) }
    {
        let mut blocks = Vec::with_capacity(alloc, count as usize)?;
        'places: for _ in 0..count {
            blocks.push(no_lanes())?;
        }
        Ok(PlainFilter { blocks })
    }

    /// The lanes of block `i`.
    pub fn block(&self, i: u64) -> [u32; 8]
        requires { i < length self.now }
        ensures { slice_get self.now i ≡ Some result }
    {
        self.blocks[i as usize]
    }

    /// Sets the hash's mask.
    #[tactic(auto, unfolding(vx_bloom_spec::specs::Filter::inserted))]
    pub fn insert_hash(&mut self, hash: u64)
        ensures { self.new ≡ inserted self.old hash }
    {
        let place = block_of(hash, self.blocks.len());
        self.blocks[place] = or_lanes(&self.blocks[place], &mask(hash));
    }

    /// Whether the hash's mask is set.
    #[tactic(auto, unfolding(vx_bloom_spec::specs::Filter::may_contain))]
    pub fn contains_hash(&self, hash: u64) -> bool
        ensures { result ≡ may_contain self.now hash }
    {
        let place = block_of(hash, self.blocks.len());
        covers(&self.blocks[place], &mask(hash))
    }

    /// Lays the other filter over this one.
    #[tactic(auto, using(vx_bloom_spec::proofs::Filters::union_rules))]
    pub fn union(&mut self, other: &PlainFilter)
        requires { length self.old ≡ length other.now }
        ensures blocks { self.new ≡ or_blocks self.old other.now }
        ensures count { length self.new ≡ length self.old }
    {
        or_into(&mut self.blocks, &other.blocks);
    }

    /// Whether every bit is set.
    pub fn is_saturated(&self) -> bool
        ensures { IsTrue result ↔ All (λ block. block ≡ full_lanes) self.now }
    {
        self.blocks.iter().all(|block| is_full(block))
    }
}
