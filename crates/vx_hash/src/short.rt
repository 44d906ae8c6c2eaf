// The hash of up to 240 bytes.

ghost use Rattle.std.specs.Prelude.{◌≡◌, ◌+◌, ◌-◌, ◌*◌, ◌/◌, ◌<◌, ◌≤◌, length};
ghost use Rattle.vx_hash.specs.XxHash3.{hash_of_none, hash_to_3, hash_to_8, hash_to_16, hash_to_128, hash_to_240, mix, mix_pair};

use crate::words::{
    MIXING_PRIME_2, PRIME_1, avalanche, avalanche_short, fold, half, joined, key_half, key_word,
    word, xorshift,
};

#[tactic(auto, unfolding(crate::specs::XxHash3::hash_of_none))]
pub(crate) fn hash_of_none() -> u64
    ensures { result ≡ hash_of_none }
{
    avalanche(key_word(56) ^ key_word(64))
}

#[tactic(auto, unfolding(crate::specs::XxHash3::hash_to_3))]
pub(crate) fn hash_to_3(bytes: &[u8]) -> u64
    requires some { 1 ≤ length bytes.now }
    requires few { length bytes.now ≤ 3 }
    ensures { result ≡ hash_to_3 bytes.now }
{
    let len = bytes.len();
    let ends = u32::from_le_bytes([bytes[len - 1], len as u8, bytes[0], bytes[len / 2]]);
    avalanche(u64::from(ends ^ (key_half(0) ^ key_half(4))))
}

#[tactic(auto, unfolding(crate::specs::XxHash3::hash_to_8))]
pub(crate) fn hash_to_8(bytes: &[u8]) -> u64
    requires some { 4 ≤ length bytes.now }
    requires few { length bytes.now ≤ 8 }
    ensures { result ≡ hash_to_8 bytes.now }
{
    let len = bytes.len();
    let ends = joined(half(bytes, len - 4), half(bytes, 0));
    let keyed = ends ^ (key_word(8) ^ key_word(16));
    let turned = keyed ^ (keyed.rotate_left(49) ^ keyed.rotate_left(24));
    let first = turned.wrapping_mul(MIXING_PRIME_2);
    let second = (first ^ (first >> 35).wrapping_add(len as u64)).wrapping_mul(MIXING_PRIME_2);
    xorshift(second, 28)
}

#[tactic(auto, unfolding(crate::specs::XxHash3::hash_to_16))]
pub(crate) fn hash_to_16(bytes: &[u8]) -> u64
    requires some { 9 ≤ length bytes.now }
    requires few { length bytes.now ≤ 16 }
    ensures { result ≡ hash_to_16 bytes.now }
{
    let len = bytes.len();
    let first = word(bytes, 0) ^ (key_word(24) ^ key_word(32));
    let last = word(bytes, len - 8) ^ (key_word(40) ^ key_word(48));
    let sum = (len as u64)
        .wrapping_add(first.swap_bytes())
        .wrapping_add(last)
        .wrapping_add(fold(first, last));
    avalanche_short(sum)
}

// Sixteen bytes from place `at` with sixteen of the key from place `key`.
#[inline(always)]
#[tactic(auto, unfolding(crate::specs::XxHash3::mix))]
fn mix(bytes: &[u8], at: usize, key: usize) -> u64
    requires inside { at + 16 ≤ length bytes.now }
    requires keyed { key + 16 ≤ 192 }
    ensures { result ≡ mix bytes.now at key }
{
    let first = word(bytes, at) ^ key_word(key);
    let second = word(bytes, at + 8) ^ key_word(key + 8);
    fold(first, second)
}

// Pair `place` of sixteen bytes, counted from both ends.
#[inline(always)]
#[tactic(auto, unfolding(crate::specs::XxHash3::mix_pair))]
fn mix_pair(bytes: &[u8], place: usize) -> u64
    requires inside { 16 * (place + 1) ≤ length bytes.now }
    requires keyed { place < 5 }
    ensures { result ≡ mix_pair bytes.now place }
{
    let front = mix(bytes, 16 * place, 32 * place);
    let back = mix(bytes, bytes.len() - 16 * (place + 1), 32 * place + 16);
    front.wrapping_add(back)
}

#[tactic(auto, using(crate::proofs::Adding::adding), unfolding(crate::specs::XxHash3::hash_to_128))]
pub(crate) fn hash_to_128(bytes: &[u8]) -> u64
    requires some { 17 ≤ length bytes.now }
    requires few { length bytes.now ≤ 128 }
    ensures { result ≡ hash_to_128 bytes.now }
{
    let mut sum = (bytes.len() as u64).wrapping_mul(PRIME_1);
    'pairs: for place in 0..(bytes.len() - 1) / 32 + 1 {
        sum = sum.wrapping_add(mix_pair(bytes, place));
    }
    avalanche_short(sum)
}

#[tactic(auto, using(crate::proofs::Adding::adding), unfolding(crate::specs::XxHash3::hash_to_240))]
pub(crate) fn hash_to_240(bytes: &[u8]) -> u64
    requires some { 129 ≤ length bytes.now }
    requires few { length bytes.now ≤ 240 }
    ensures { result ≡ hash_to_240 bytes.now }
{
    let len = bytes.len();
    let mut first = (len as u64).wrapping_mul(PRIME_1);
    'first: for i in 0..8 {
        first = first.wrapping_add(mix(bytes, 16 * i, 16 * i));
    }
    let mut whole = avalanche_short(first);
    'whole: for i in 0..len / 16 - 8 {
        whole = whole.wrapping_add(mix(bytes, 16 * (8 + i), 16 * i + 3));
    }
    avalanche_short(whole.wrapping_add(mix(bytes, len - 16, 119)))
}
