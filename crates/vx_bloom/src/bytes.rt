// Blocks as bytes, low byte first.

ghost use Rattle.std.specs.Prelude.{◌≡◌, ◌+◌, ◌*◌, ◌≤◌, ◌++◌, length, OnOk, IfOk};
ghost use Rattle.vx_bloom_spec.specs.Bytes.{block_bytes, block_at, filter_bytes, filter_at, AreBlocks};

use std::alloc::{AllocError, Global};
use std::simd::prelude::*;
use vx_bloom_options::{number_at, push_number};

/// Bytes of a block.
pub(crate) const BLOCK_LEN: usize = 32;

#[tactic(auto, using(vx_bloom_spec::proofs::ReadBack::block_rules), unfolding(vx_bloom_spec::specs::Bytes::block_bytes))]
pub(crate) fn push_block(out: &mut Vec<u8>, block: &[u32; 8]) -> Result<(), AllocError>
    ensures { OnOk result (out.new.items ≡ out.old.items ++ block_bytes block.now) }
{
    'lanes: for lane in block {
        push_number(out, *lane)?;
    }
    Ok(())
}

#[tactic(auto, unfolding(vx_bloom_spec::specs::Bytes::block_at))]
pub(crate) fn block_at(bytes: &[u8], at: usize) -> u32x8
    requires { at + 32 ≤ length bytes.now }
    ensures { result ≡ block_at bytes.now at }
{
    u32x8::from_array([
        number_at(bytes, at),
        number_at(bytes, at + 4),
        number_at(bytes, at + 8),
        number_at(bytes, at + 12),
        number_at(bytes, at + 16),
        number_at(bytes, at + 20),
        number_at(bytes, at + 24),
        number_at(bytes, at + 28),
    ])
}

// The blocks that the bytes spell.
#[tactic(auto, using(vx_bloom_spec::proofs::ReadBack::blocks_rules))]
pub(crate) fn blocks_at(alloc: Global, bytes: &[u8], count: usize) -> Result<Vec<u32x8>, AllocError>
    requires { length bytes.now ≡ 32 * count }
    ensures bytes { IfOk result (λ v. filter_bytes v.items ≡ bytes.now) }
    ensures spelled { IfOk result (λ v. v.items ≡ filter_at bytes.now) }
    ensures sound { IfOk result (λ v. AreBlocks v.items) }
    ensures count { IfOk result (λ v. length v.items ≡ count) }
{
    let mut blocks = Vec::with_capacity(alloc, count)?;
    'places: for place in 0..count {
        blocks.push(block_at(bytes, BLOCK_LEN * place))?;
    }
    Ok(blocks)
}
