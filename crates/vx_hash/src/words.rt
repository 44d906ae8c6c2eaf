// Words: reading them, and the steps that the hash makes of them.

ghost use Rattle.std.specs.Prelude.{◌≡◌, ◌+◌, ◌<◌, ◌≤◌, length};
ghost use Rattle.vx_hash.specs.Words.{word, half, joined, xorshift, fold, key, avalanche, avalanche_short};

pub(crate) const HALF_PRIME_1: u64 = 0x9e37_79b1;

pub(crate) const HALF_PRIME_2: u64 = 0x85eb_ca77;

pub(crate) const HALF_PRIME_3: u64 = 0xc2b2_ae3d;

pub(crate) const PRIME_1: u64 = 0x9e37_79b1_85eb_ca87;

pub(crate) const PRIME_2: u64 = 0xc2b2_ae3d_27d4_eb4f;

pub(crate) const PRIME_3: u64 = 0x1656_67b1_9e37_79f9;

pub(crate) const PRIME_4: u64 = 0x85eb_ca77_c2b2_ae63;

pub(crate) const PRIME_5: u64 = 0x27d4_eb2f_1656_67c5;

pub(crate) const MIXING_PRIME_1: u64 = 0x1656_6791_9e37_79f9;

pub(crate) const MIXING_PRIME_2: u64 = 0x9fb2_1c65_1e98_df25;

pub(crate) const KEY_LEN: usize = 192;

static KEY: [u8; KEY_LEN] = [
    0xb8, 0xfe, 0x6c, 0x39, 0x23, 0xa4, 0x4b, 0xbe, 0x7c, 0x01, 0x81, 0x2c, 0xf7, 0x21, 0xad, 0x1c,
    0xde, 0xd4, 0x6d, 0xe9, 0x83, 0x90, 0x97, 0xdb, 0x72, 0x40, 0xa4, 0xa4, 0xb7, 0xb3, 0x67, 0x1f,
    0xcb, 0x79, 0xe6, 0x4e, 0xcc, 0xc0, 0xe5, 0x78, 0x82, 0x5a, 0xd0, 0x7d, 0xcc, 0xff, 0x72, 0x21,
    0xb8, 0x08, 0x46, 0x74, 0xf7, 0x43, 0x24, 0x8e, 0xe0, 0x35, 0x90, 0xe6, 0x81, 0x3a, 0x26, 0x4c,
    0x3c, 0x28, 0x52, 0xbb, 0x91, 0xc3, 0x00, 0xcb, 0x88, 0xd0, 0x65, 0x8b, 0x1b, 0x53, 0x2e, 0xa3,
    0x71, 0x64, 0x48, 0x97, 0xa2, 0x0d, 0xf9, 0x4e, 0x38, 0x19, 0xef, 0x46, 0xa9, 0xde, 0xac, 0xd8,
    0xa8, 0xfa, 0x76, 0x3f, 0xe3, 0x9c, 0x34, 0x3f, 0xf9, 0xdc, 0xbb, 0xc7, 0xc7, 0x0b, 0x4f, 0x1d,
    0x8a, 0x51, 0xe0, 0x4b, 0xcd, 0xb4, 0x59, 0x31, 0xc8, 0x9f, 0x7e, 0xc9, 0xd9, 0x78, 0x73, 0x64,
    0xea, 0xc5, 0xac, 0x83, 0x34, 0xd3, 0xeb, 0xc3, 0xc5, 0x81, 0xa0, 0xff, 0xfa, 0x13, 0x63, 0xeb,
    0x17, 0x0d, 0xdd, 0x51, 0xb7, 0xf0, 0xda, 0x49, 0xd3, 0x16, 0x55, 0x26, 0x29, 0xd4, 0x68, 0x9e,
    0x2b, 0x16, 0xbe, 0x58, 0x7d, 0x47, 0xa1, 0xfc, 0x8f, 0xf8, 0xb8, 0xd1, 0x7a, 0xd0, 0x31, 0xce,
    0x45, 0xcb, 0x3a, 0x8f, 0x95, 0x16, 0x04, 0x28, 0xaf, 0xd7, 0xfb, 0xca, 0xbb, 0x4b, 0x40, 0x7e,
];

#[tactic(auto, unfolding(crate::specs::Words::key))]
pub(crate) fn key() -> &'static [u8; KEY_LEN]
    ensures { result.now ≡ key }
{
    &KEY
}

// The eight bytes from place `at`, low byte first.
#[inline(always)]
#[tactic(auto, unfolding(crate::specs::Words::word))]
pub(crate) fn word(bytes: &[u8], at: usize) -> u64
    requires { at + 8 ≤ length bytes.now }
    ensures { result ≡ word bytes.now at }
{
    u64::from_le_bytes([
        bytes[at],
        bytes[at + 1],
        bytes[at + 2],
        bytes[at + 3],
        bytes[at + 4],
        bytes[at + 5],
        bytes[at + 6],
        bytes[at + 7],
    ])
}

// The four bytes from place `at`, low byte first.
#[inline(always)]
#[tactic(auto, unfolding(crate::specs::Words::half))]
pub(crate) fn half(bytes: &[u8], at: usize) -> u32
    requires { at + 4 ≤ length bytes.now }
    ensures { result ≡ half bytes.now at }
{
    u32::from_le_bytes([bytes[at], bytes[at + 1], bytes[at + 2], bytes[at + 3]])
}

// The key's word from place `at`.
#[inline(always)]
pub(crate) fn key_word(at: usize) -> u64
    requires { at + 8 ≤ KEY_LEN }
    ensures { result ≡ word key at }
{
    word(key(), at)
}

// The key's half from place `at`.
#[inline(always)]
pub(crate) fn key_half(at: usize) -> u32
    requires { at + 4 ≤ KEY_LEN }
    ensures { result ≡ half key at }
{
    half(key(), at)
}

#[inline(always)]
pub(crate) fn joined(low: u32, high: u32) -> u64
    ensures { result ≡ joined low high }
{
    u64::from(low) + u64::from(high) * 0x1_0000_0000
}

#[inline(always)]
#[tactic(auto, unfolding(crate::specs::Words::xorshift))]
pub(crate) fn xorshift(x: u64, by: u32) -> u64
    requires { by < 64 }
    ensures { result ≡ xorshift x by }
{
    x ^ (x >> by)
}

// The low and the high word of the whole product, by exclusive or.
#[inline(always)]
#[tactic(auto, unfolding(crate::specs::Words::fold))]
pub(crate) fn fold(a: u64, b: u64) -> u64
    ensures { result ≡ fold a b }
{
    let product = u128::from(a) * u128::from(b);
    (product % 0x1_0000_0000_0000_0000) as u64 ^ (product / 0x1_0000_0000_0000_0000) as u64
}

#[inline(always)]
#[tactic(auto, unfolding(crate::specs::Words::avalanche))]
pub(crate) fn avalanche(h: u64) -> u64
    ensures { result ≡ avalanche h }
{
    let first = xorshift(h, 33).wrapping_mul(PRIME_2);
    let second = xorshift(first, 29).wrapping_mul(PRIME_3);
    xorshift(second, 32)
}

#[inline(always)]
#[tactic(auto, unfolding(crate::specs::Words::avalanche_short))]
pub(crate) fn avalanche_short(h: u64) -> u64
    ensures { result ≡ avalanche_short h }
{
    xorshift(xorshift(h, 37).wrapping_mul(MIXING_PRIME_1), 32)
}
