// Blocks of eight lanes, each one vector.

ghost use Rattle.std.specs.Prelude.{◌≡◌, ◌↔◌, ◌<◌, ◌≤◌, ◌^◌, IsTrue, length, nat_eq};
ghost use lib.Pointwise.{pointwise};
ghost use Rattle.vx_bloom_spec.specs.Filter.{block_of, or_blocks};
ghost use Rattle.vx_bloom_spec.specs.Blocks.{mask, no_lanes, full_lanes, or_lanes, covers};

use std::simd::prelude::*;

const SALTS: [u32; 8] = [
    0x47b6_137b,
    0x4497_4d91,
    0x8824_ad5b,
    0xa2b7_289d,
    0x7054_95c7,
    0x2df1_424b,
    0x9efc_4947,
    0x5c6b_fb31,
];

/// The mask of a hash: in each lane the bit that the hash's low half and the lane's salt choose.
#[inline(always)]
pub(crate) fn mask(hash: u64) -> u32x8
    ensures { result ≡ mask hash }
{
    let low = u32x8::splat((hash % 0x1_0000_0000) as u32);
    u32x8::splat(1) << ((low * u32x8::from_array(SALTS)) >> 27)
}

#[tactic(auto, unfolding(vx_bloom_spec::specs::Blocks::no_lanes))]
pub(crate) fn no_lanes() -> u32x8
    ensures { result ≡ no_lanes }
{
    u32x8::splat(0)
}

#[inline(always)]
pub(crate) fn or_lanes(a: u32x8, b: u32x8) -> u32x8
    ensures { result ≡ or_lanes a b }
{
    a | b
}

#[inline(always)]
fn are_same(a: u32x8, b: u32x8) -> bool
    ensures { result ≡ pointwise nat_eq a b }
{
    a.simd_ne(b).to_bitmask() == 0
}

/// Whether each bit of `bits` is in the block.
#[inline(always)]
pub(crate) fn covers(block: u32x8, bits: u32x8) -> bool
    ensures { result ≡ covers block bits }
{
    are_same(block & bits, bits)
}

/// Whether each bit of the block is set.
#[inline(always)]
#[tactic(auto, unfolding(vx_bloom_spec::specs::Blocks::full_lanes))]
pub(crate) fn is_full(block: u32x8) -> bool
    ensures { IsTrue result ↔ (block ≡ full_lanes) }
{
    are_same(block, u32x8::splat(u32::MAX))
}

/// The block that a hash falls into, of so many.
#[inline(always)]
#[tactic(auto, using(vx_bloom_spec::proofs::Places::place_rules))]
pub(crate) fn block_of(hash: u64, blocks: usize) -> usize
    requires some { 1 ≤ blocks }
    requires few { blocks < 2 ^ 32 }
    ensures place { result ≡ block_of blocks hash }
    ensures within { result < blocks }
{
    ((hash / 0x1_0000_0000) * blocks as u64 / 0x1_0000_0000) as usize
}

/// Lays the other blocks over these, one by one.
#[tactic(auto, using(vx_bloom_spec::proofs::Places::or_rules))]
pub(crate) fn or_into(blocks: &mut Vec<u32x8>, others: &[u32x8])
    requires { length blocks.old.items ≡ length others.now }
    ensures { blocks.new.items ≡ or_blocks blocks.old.items others.now }
{
    'places: for place in 0..others.len() {
        blocks[place] = or_lanes(blocks[place], others[place]);
    }
}
