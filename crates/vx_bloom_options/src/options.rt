//! The options of a filter.

ghost use Rattle.std.specs.Prelude.{◌≡◌, ◌<◌, ◌^◌, IfOk, IsOkAnd};
ghost use Rattle.std.specs.Int.NonZero.{non_zero_u32_get};
ghost use Rattle.vx_bloom_options.specs.Options.{hash_number, blocks_in, hash_fn_in, options_bytes, ReadsOptions, SameOptions};

use crate::bytes::{number_at, push_number};
use std::alloc::{AllocError, Global};
use std::fmt;
use std::num::NonZeroU32;
use thiserror::Error;

/// The hash function of a filter.
#[derive(Clone, Copy, Debug, PartialEq, Eq)]
pub enum HashFn {
    XxHash3_64,
}

/// A number that no hash function has.
#[derive(Debug, Drop, Error)]
#[error("unknown hash function {0}")]
pub struct UnknownHash(pub u32);

/// Why bytes are no options. The length is looked at first, then the hash function, then the blocks.
#[derive(Debug, Drop, Error)]
pub enum OptionsError {
    #[error("the options have not 8 bytes")]
    Length,
    #[error("unknown hash function {0}")]
    UnknownHash(u32),
    #[error("no blocks")]
    ZeroBlocks,
}

impl From<HashFn> for u32 {
    ghost from_gives = { λ h n. hash_number h ≡ n };

    fn from(hash_fn: HashFn) -> u32 {
        match hash_fn {
            HashFn::XxHash3_64 => 0,
        }
    }
}

impl TryFrom<u32> for HashFn {
    ghost use Rattle.vx_bloom_options.specs.Options.{IsHashNumber};

    type Error = UnknownHash;

    ghost try_from_gives = { IsHashNumber };

    fn try_from(number: u32) -> Result<HashFn, UnknownHash> {
        match number {
            0 => Ok(HashFn::XxHash3_64),
            n => Err(UnknownHash(n)),
        }
    }
}

impl fmt::Display for HashFn {
    ghost use Rattle.std.specs.Prelude.{Some};
    ghost use Rattle.vx_bloom_options.specs.Options.{hash_name};

    ghost output = { λ h. Some (hash_name h) };

    fn fmt<W: fmt::Write>(&self, f: &mut fmt::Formatter<W>) -> fmt::Result {
        match self {
            HashFn::XxHash3_64 => write!(f, "xxhash3_64"),
        }
    }
}

/// How many blocks a filter has, and by which function it hashes.
#[derive(Debug, Drop, PartialEq, Eq)]
pub struct BloomOptions {
    blocks: NonZeroU32,
    hash_fn: HashFn,
}

impl BloomOptions {
    /// A filter of so many blocks of 32 bytes.
    pub fn new(blocks: NonZeroU32, hash_fn: HashFn) -> BloomOptions
        ensures blocks { blocks_in result ≡ non_zero_u32_get blocks }
        ensures hash_fn { hash_fn_in result ≡ hash_fn }
    {
        BloomOptions { blocks, hash_fn }
    }

    /// The number of blocks.
    pub fn blocks_count(&self) -> NonZeroU32
        ensures { non_zero_u32_get result ≡ blocks_in self.now }
    {
        self.blocks
    }

    /// Eight bytes: the number of blocks and the number of the hash function, low byte first.
    pub fn serialize(&self, alloc: Global) -> Result<Vec<u8>, AllocError>
        ensures { IfOk result (λ v. v.items ≡ options_bytes self.now) }
    {
        let mut bytes = Vec::with_capacity(alloc, 8)?;
        push_number(&mut bytes, self.blocks.get())?;
        push_number(&mut bytes, u32::from(self.hash_fn))?;
        Ok(bytes)
    }

    /// The options that these bytes spell.
    #[tactic(auto, using(crate::proofs::ReadOptions::read_rules))]
    pub fn deserialize(bytes: &[u8]) -> Result<BloomOptions, OptionsError>
        ensures answer { ReadsOptions bytes.now result }
        ensures whole { (o : BloomOptions) → blocks_in o < 2 ^ 32 → options_bytes o ≡ bytes.now → IsOkAnd result (SameOptions o) }
    {
        if bytes.len() != 8 {
            return Err(OptionsError::Length);
        }
        let number = number_at(bytes, 4);
        let Ok(hash_fn) = HashFn::try_from(number) else {
            return Err(OptionsError::UnknownHash(number));
        };
        let Some(blocks) = NonZeroU32::new(number_at(bytes, 0)) else {
            return Err(OptionsError::ZeroBlocks);
        };
        Ok(BloomOptions { blocks, hash_fn })
    }
}

/// 256 blocks by the one hash function.
impl Default for BloomOptions {
    ghost use Rattle.vx_bloom_options.specs.Options.{blocks_in, hash_fn_in};
    ghost use Rattle.vx_bloom_options.specs.declared.options.HashFn.TheVariants.{XxHash3_64};

    ghost is_default = { λ o. (blocks_in o ≡ 256) × (hash_fn_in o ≡ XxHash3_64) };

    fn default() -> BloomOptions {
        BloomOptions {
            blocks: NonZeroU32::new(256).unwrap(),
            hash_fn: HashFn::XxHash3_64,
        }
    }
}

impl fmt::Display for BloomOptions {
    ghost use Rattle.std.specs.Prelude.{Some};
    ghost use Rattle.vx_bloom_options.specs.Options.{options_text};

    ghost output = { λ o. Some (options_text o) };

    fn fmt<W: fmt::Write>(&self, f: &mut fmt::Formatter<W>) -> fmt::Result {
        write!(f, "blocks={}, hash_fn={}", self.blocks.get(), self.hash_fn)
    }
}
