//! The aggregate whose state is a filter of a column's values.

ghost use Rattle.std.specs.Prelude.{◌≡◌, ◌≢◌, ◌↔◌, ◌++◌, ◌<◌, ◌^◌, [], List, ℕ, IsTrue, All, IfOk, IsErr, IsOkAnd, OnOk, OnErr, codes, length, map};
ghost use Rattle.std.specs.Option.{option_map};
ghost use Rattle.vx_hash.specs.XxHash3.{xxhash3_64};
ghost use Rattle.vx_model.specs.TyView.{ty};
ghost use Rattle.vx_model.specs.TreeView.{val};
ghost use Rattle.vx_model.specs.ValueData.{bytes_value, is_row_value};
ghost use Rattle.vx_bloom_spec.specs.Blocks.{Block, full_lanes};
ghost use Rattle.vx_bloom_spec.specs.Bytes.{filter_bytes, AreBlocks};
ghost use Rattle.vx_bloom_spec.specs.Filter.{filter_of, or_blocks};
ghost use Rattle.vx_bloom_options.specs.Options.{blocks_in};
ghost use Rattle.vx_bloom.specs.Scalar.{filter_type, is_stored, ReadsStored};
ghost use Rattle.vx_bloom_spec.specs.Values.{any_unsupported, value_hashes, all_inserted};

use crate::partial::{BlockCount, BloomPartial, PartialError};
use crate::scalar::{Unsupported, has_order, is_unsupported};
use std::alloc::{AllocError, Global};
use vx_bloom_options::BloomOptions;
use vx_hash::XxHash3_64;
use vx_model::{Blob, DType, Nullability, Value};

/// The aggregate whose state is a filter of the column's values that aren't null, by the hash function that filters
/// store.
#[derive(Clone, Copy, Debug, PartialEq, Eq)]
pub struct BloomFilter;

impl BloomFilter {
    /// The aggregate's name in bytes.
    pub fn id(&self) -> &'static str
        ensures { result.now ≡ codes "vortex.bloom_filter.sbbf" }
    {
        "vortex.bloom_filter.sbbf"
    }

    /// The type of the state: nullable bytes, or none where the column's values aren't hashed.
    pub fn state_dtype(&self, column: &DType) -> Result<Option<DType>, AllocError>
        ensures { IsOkAnd result (λ state. option_map ty state ≡ filter_type (ty column.now)) }
    {
        if has_order(column) {
            Ok(Some(DType::Binary(Nullability::Nullable)))
        } else {
            Ok(None)
        }
    }

    /// The empty filter.
    pub fn empty_partial(
        &self,
        alloc: Global,
        options: &BloomOptions,
    ) -> Result<BloomPartial<XxHash3_64>, AllocError>
        ensures { IfOk result (λ p. p ≡ filter_of (blocks_in options.now) []) }
    {
        BloomPartial::from(alloc, options)
    }

    /// The filter that a stored value is: null is the empty one.
    pub fn partial_from_scalar(
        &self,
        alloc: Global,
        options: &BloomOptions,
        value: &Value,
    ) -> Result<BloomPartial<XxHash3_64>, PartialError>
        requires { IsTrue (is_stored (val value.now)) }
        ensures answer { ReadsStored (blocks_in options.now) (val value.now) result }
        ensures whole { (p : List Block) → AreBlocks p → length p ≡ blocks_in options.now
            → val value.now ≡ bytes_value (filter_bytes p) → IfOk result (λ q. q ≡ p) }
    {
        match value {
            Value::Binary(bytes) => {
                let partial = BloomPartial::deserialize(alloc, bytes.as_slice())?;
                if partial.block_count() != options.blocks_count().get() {
                    return Err(PartialError::BlockCount);
                }
                Ok(partial)
            }
            _ => Ok(BloomPartial::from(alloc, options)?),
        }
    }

    /// Lays the second filter over the first.
    pub fn merge_partials(
        &self,
        a: &mut BloomPartial<XxHash3_64>,
        b: &BloomPartial<XxHash3_64>,
    ) -> Result<(), BlockCount>
        ensures refused { IsErr result ↔ (length a.old ≢ length b.now) }
        ensures ok { OnOk result (a.new ≡ or_blocks a.old b.now) }
        ensures err { OnErr result (a.new ≡ a.old) }
        ensures filter { (blocks : ℕ) (xs ys : List ℕ) → a.old ≡ filter_of blocks xs → b.now ≡ filter_of blocks ys
            → a.new ≡ filter_of blocks (xs ++ ys) }
    {
        a.union(b)
    }

    /// The filter as a value: its bytes.
    pub fn to_scalar(
        &self,
        alloc: Global,
        partial: &BloomPartial<XxHash3_64>,
    ) -> Result<Value, AllocError>
        ensures { IfOk result (λ v. val v ≡ bytes_value (filter_bytes partial.now)) }
    {
        Ok(Value::Binary(Blob::from(partial.serialize(alloc)?)))
    }

    /// Whether every bit is set.
    pub fn is_saturated(&self, partial: &BloomPartial<XxHash3_64>) -> bool
        ensures { IsTrue result ↔ All (λ block. block ≡ full_lanes) partial.now }
    {
        partial.is_saturated()
    }

    /// Inserts the values that aren't null. Where one of them isn't hashed, nothing is inserted.
    #[tactic(auto, using(crate::proofs::ValueLaws::accumulate_rules))]
    pub fn accumulate(
        &self,
        partial: &mut BloomPartial<XxHash3_64>,
        dtype: &DType,
        values: &[Value],
    ) -> Result<(), Unsupported>
        requires { All (λ v. IsTrue (is_row_value (ty dtype.now) (val v))) values.now }
        ensures refused { IsErr result ↔ IsTrue (any_unsupported (ty dtype.now) (map val values.now)) }
        ensures err { OnErr result (partial.new ≡ partial.old) }
        ensures ok { OnOk result (partial.new ≡ all_inserted partial.old (value_hashes xxhash3_64 (ty dtype.now) (map val values.now))) }
        ensures filter { (blocks : ℕ) (hashes : List ℕ) → partial.old ≡ filter_of blocks hashes
            → OnOk result (partial.new ≡ filter_of blocks (hashes ++ value_hashes xxhash3_64 (ty dtype.now) (map val values.now))) }
    {
        'tests: for value in values {
            if is_unsupported(dtype, value) {
                return Err(Unsupported);
            }
        }
        'inserts: for value in values {
            partial.insert_value(dtype, value);
        }
        Ok(())
    }
}
