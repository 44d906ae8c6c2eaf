//! Numbers of 32 bits as bytes, low byte first.

ghost use Rattle.std.specs.Prelude.{◌≡◌, ◌+◌, ◌≤◌, ◌++◌, length, OnOk};
ghost use Rattle.vx_bloom_spec.specs.Bytes.{number_bytes, number_at};

use std::alloc::AllocError;

/// Appends the four bytes of the number, low byte first.
#[tactic(auto, unfolding(vx_bloom_spec::specs::Bytes::number_bytes))]
pub fn push_number(out: &mut Vec<u8>, number: u32) -> Result<(), AllocError>
    ensures { OnOk result (out.new.items ≡ out.old.items ++ number_bytes number) }
{
    out.extend_from_slice(&number.to_le_bytes())
}

/// The number that the four bytes from `at` spell.
#[tactic(auto, unfolding(vx_bloom_spec::specs::Bytes::number_at))]
pub fn number_at(bytes: &[u8], at: usize) -> u32
    requires { at + 4 ≤ length bytes.now }
    ensures { result ≡ number_at bytes.now at }
{
    u32::from_le_bytes([bytes[at], bytes[at + 1], bytes[at + 2], bytes[at + 3]])
}
