//! A hash of bytes: the trait that filters ask for, and the hash function that they store.
#![tactic(auto)]

ghost use Rattle.std.specs.Prelude.{◌≡◌, ℕ, List};
ghost use Rattle.vx_hash.specs.XxHash3.{xxhash3_64};

mod long;
mod short;
mod words;

/// A hash function of bytes, of 64 bits. Equal bytes have equal hashes.
pub trait ByteHash {
    // the hash of the bytes
    ghost hash: { List ℕ → ℕ };

    /// The hash of `bytes`.
    fn oneshot(bytes: &[u8]) -> u64
        ensures { result ≡ hash bytes.now };
}

/// The hash of 64 bits that filters store as hash function 0.
#[derive(Clone, Copy, Debug, PartialEq, Eq)]
pub struct XxHash3_64;

impl ByteHash for XxHash3_64 {
    ghost hash = { xxhash3_64 };

    #[tactic(auto, unfolding(crate::specs::XxHash3::xxhash3_64))]
    fn oneshot(bytes: &[u8]) -> u64 {
        match bytes.len() {
            0 => short::hash_of_none(),
            1..=3 => short::hash_to_3(bytes),
            4..=8 => short::hash_to_8(bytes),
            9..=16 => short::hash_to_16(bytes),
            17..=128 => short::hash_to_128(bytes),
            129..=240 => short::hash_to_240(bytes),
            _ => long::hash_above_240(bytes),
        }
    }
}
