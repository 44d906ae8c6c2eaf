//! Filters that are stored as bytes, read in place.

ghost use Rattle.std.specs.Prelude.{◌≡◌, ◌*◌, ◌^◌, ◌<◌, ◌≤◌, IsTrue, IfNone, IfSome, length};
ghost use Rattle.vx_hash.specs.XxHash3.{xxhash3_64};
ghost use Rattle.vx_model.specs.TyView.{ty};
ghost use Rattle.vx_model.specs.TreeView.{val};
ghost use Rattle.vx_model.specs.ValueData.{is_row_value};
ghost use Rattle.vx_bloom_spec.specs.Bytes.{filter_at, IsFilterLength};
ghost use Rattle.vx_bloom_spec.specs.Filter.{may_contain};
ghost use Rattle.vx_bloom_spec.specs.Values.{value_hash, may_contain_hash};

use crate::block::{block_of, covers, mask};
use crate::bytes::{BLOCK_LEN, block_at};
use crate::filter::BloomFilter;
use crate::scalar::value_hash;
use vx_hash::XxHash3_64;
use vx_model::{DType, Value};

impl BloomFilter {
    /// Whether the filter with these bytes contains the value; none where no filter has so many bytes. Copies nothing:
    /// hashes the value and reads one block.
    pub fn stored_contains(&self, bytes: &[u8], dtype: &DType, value: &Value) -> Option<bool>
        requires { IsTrue (is_row_value (ty dtype.now) (val value.now)) }
        ensures none { IfNone result (¬ IsFilterLength (length bytes.now)) }
        ensures length { IfSome result (λ b. IsFilterLength (length bytes.now)) }
        ensures contained { IfSome result (λ b. b ≡ may_contain_hash (filter_at bytes.now) (value_hash xxhash3_64 (ty dtype.now) (val value.now))) }
    {
        let Some(count) = block_count(bytes) else {
            return None;
        };
        match value_hash::<XxHash3_64>(dtype, value) {
            Some(hash) => Some(contains_at(bytes, count, hash)),
            None => Some(false),
        }
    }
}

/// The blocks of a filter with so many bytes; none where there is none.
fn block_count(bytes: &[u8]) -> Option<usize>
    ensures none { IfNone result (¬ IsFilterLength (length bytes.now)) }
    ensures length { IfSome result (λ n. IsFilterLength (length bytes.now)) }
    ensures whole { IfSome result (λ n. length bytes.now ≡ 32 * n) }
    ensures some { IfSome result (λ n. 1 ≤ n) }
    ensures few { IfSome result (λ n. n < 2 ^ 32) }
{
    let count = bytes.len() / BLOCK_LEN;
    if bytes.len() % BLOCK_LEN != 0 || count == 0 || count > u32::MAX as usize {
        return None;
    }
    Some(count)
}

/// Whether the hash's mask is set in its block, of so many.
#[tactic(auto, using(crate::proofs::StoredSteps::stored_rules))]
fn contains_at(bytes: &[u8], count: usize, hash: u64) -> bool
    requires whole { length bytes.now ≡ 32 * count }
    requires some { 1 ≤ count }
    requires few { count < 2 ^ 32 }
    ensures { result ≡ may_contain (filter_at bytes.now) hash }
{
    let place = block_of(hash, count);
    covers(block_at(bytes, BLOCK_LEN * place), mask(hash))
}
