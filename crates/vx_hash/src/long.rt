// The hash of more than 240 bytes, by eight lanes in one vector.

ghost use Rattle.std.specs.Prelude.{◌≡◌, ◌+◌, ◌-◌, ◌*◌, ◌/◌, ◌<◌, ◌≤◌, length, map};
ghost use Rattle.vx_hash.specs.Words.{half_product, key};
ghost use Rattle.vx_hash.specs.Lanes.{words};
ghost use Rattle.vx_hash.specs.XxHash3.{after_stripe, after_stripes, scrambled, after_blocks, after_all, folded_lanes, hash_above_240};

use crate::words::{
    HALF_PRIME_1, HALF_PRIME_2, HALF_PRIME_3, PRIME_1, PRIME_2, PRIME_3, PRIME_4, PRIME_5,
    avalanche_short, fold, key, key_word,
};
use std::simd::prelude::*;

const STRIPE_LEN: usize = 64;

const BLOCK_LEN: usize = 1024;

const STRIPES_PER_BLOCK: usize = 16;

const FIRST_LANES: [u64; 8] = [
    HALF_PRIME_3,
    PRIME_1,
    PRIME_2,
    PRIME_3,
    PRIME_4,
    HALF_PRIME_2,
    PRIME_5,
    HALF_PRIME_1,
];

// The eight words from place `at`.
#[inline(always)]
fn words(bytes: &[u8], at: usize) -> u64x8
    requires { at + 64 ≤ length bytes.now }
    ensures { result ≡ words bytes.now at }
{
    u64x8::from_le_bytes(u8x64::from_slice(&bytes[at..]))
}

// The key's eight words from place `at`.
#[inline(always)]
fn key_words(at: usize) -> u64x8
    requires { at + 64 ≤ 192 }
    ensures { result ≡ words key at }
{
    words(key(), at)
}

// Of each lane the product of its halves.
#[inline(always)]
fn half_products(x: u64x8) -> u64x8
    ensures { result ≡ map half_product x }
{
    (x & u64x8::splat(0xffff_ffff)) * (x >> 32)
}

// The lanes after the stripe from place `at`, with the key from place `key`.
#[inline(always)]
fn after_stripe(lanes: u64x8, bytes: &[u8], at: usize, key: usize) -> u64x8
    requires inside { at + 64 ≤ length bytes.now }
    requires keyed { key + 64 ≤ 192 }
    ensures { result ≡ after_stripe lanes bytes.now at key }
{
    let own = words(bytes, at);
    let neighbours = own.swizzle([1, 0, 3, 2, 5, 4, 7, 6]);
    lanes + neighbours + half_products(own ^ key_words(key))
}

// The lanes after `count` stripes from place `at`.
#[inline(always)]
#[tactic(auto, using(crate::proofs::Adding::stripes))]
fn after_stripes(lanes: u64x8, bytes: &[u8], at: usize, count: usize) -> u64x8
    requires inside { at + 64 * count ≤ length bytes.now }
    requires keyed { count ≤ 16 }
    ensures { result ≡ after_stripes lanes bytes.now at count }
{
    let mut after = lanes;
    'stripes: for i in 0..count {
        after = after_stripe(after, bytes, at + STRIPE_LEN * i, 8 * i);
    }
    after
}

#[inline(always)]
fn scrambled(lanes: u64x8) -> u64x8
    ensures { result ≡ scrambled lanes }
{
    (lanes ^ (lanes >> 47) ^ key_words(128)) * u64x8::splat(HALF_PRIME_1)
}

// The lanes after `count` whole blocks.
#[tactic(auto, using(crate::proofs::Adding::blocks))]
fn after_blocks(bytes: &[u8], count: usize) -> u64x8
    requires { 1024 * count ≤ length bytes.now }
    ensures { result ≡ after_blocks bytes.now count }
{
    let mut lanes = u64x8::from_array(FIRST_LANES);
    'count: for i in 0..count {
        lanes = scrambled(after_stripes(lanes, bytes, BLOCK_LEN * i, STRIPES_PER_BLOCK));
    }
    lanes
}

#[tactic(auto, unfolding(crate::specs::XxHash3::after_all))]
fn after_all(bytes: &[u8]) -> u64x8
    requires { 64 ≤ length bytes.now }
    ensures { result ≡ after_all bytes.now }
{
    let len = bytes.len();
    let blocks = (len - 1) / BLOCK_LEN;
    let stripes = (len - 1 - BLOCK_LEN * blocks) / STRIPE_LEN;
    let lanes = after_blocks(bytes, blocks);
    let lanes = after_stripes(lanes, bytes, BLOCK_LEN * blocks, stripes);
    after_stripe(lanes, bytes, len - STRIPE_LEN, 121)
}

#[inline(always)]
#[tactic(auto, unfolding(crate::specs::XxHash3::folded_lanes))]
fn folded_lanes(lanes: &[u64; 8], pair: usize) -> u64
    requires { pair < 4 }
    ensures { result ≡ folded_lanes lanes.now pair }
{
    let first = lanes[2 * pair] ^ key_word(11 + 16 * pair);
    let second = lanes[2 * pair + 1] ^ key_word(19 + 16 * pair);
    fold(first, second)
}

#[tactic(auto, using(crate::proofs::Adding::adding), unfolding(crate::specs::XxHash3::hash_above_240))]
pub(crate) fn hash_above_240(bytes: &[u8]) -> u64
    requires { 240 < length bytes.now }
    ensures { result ≡ hash_above_240 bytes.now }
{
    let lanes = after_all(bytes).to_array();
    let mut sum = (bytes.len() as u64).wrapping_mul(PRIME_1);
    'pairs: for pair in 0..4 {
        sum = sum.wrapping_add(folded_lanes(&lanes, pair));
    }
    avalanche_short(sum)
}
