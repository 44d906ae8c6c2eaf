//! The filter of a zone.

ghost use Rattle.std.specs.Prelude.{◌≡◌, true, map, IsTrue, IfOk, ◌∷◌, []};
ghost use Rattle.std.specs.Int.NonZero.{non_zero_u32_get};
ghost use Rattle.vx_hash.specs.XxHash3.{xxhash3_64};
ghost use Rattle.vx_model.specs.Words.{all_by};
ghost use Rattle.vx_model.specs.Ty.{has_order};
ghost use Rattle.vx_model.specs.TyView.{ty};
ghost use Rattle.vx_model.specs.TreeView.{val};
ghost use Rattle.vx_model.specs.ValueData.{bytes_value, is_row_value};
ghost use Rattle.vx_bloom_spec.specs.Bytes.{filter_bytes};
ghost use Rattle.vx_bloom_spec.specs.Filter.{filter_of};
ghost use Rattle.vx_bloom_spec.specs.Values.{value_hashes, all_inserted};
ghost use Rattle.vx_zone_record.specs.Scalars.{scalar_value};

use crate::row::Row;
use crate::scalar::Scalar;
use std::alloc::{AllocError, Global};
use std::num::NonZeroU32;
use vx_bloom::{BloomOptions, BloomPartial, HashFn};
use vx_hash::XxHash3_64;
use vx_model::{Blob, DType, Value};

/// The bytes of the filter of the rows that aren't null.
pub(crate) fn filter<R: Row>(
    alloc: Global,
    blocks: NonZeroU32,
    column: &DType,
    rows: &[R],
) -> Result<Value, AllocError>
    requires hashed { IsTrue (has_order (ty column.now)) }
    requires fit { IsTrue (all_by (is_row_value (ty column.now)) (map R.seen rows.now)) }
    ensures { IfOk result (λ v. val v ≡ bytes_value (filter_bytes (filter_of (non_zero_u32_get blocks) (value_hashes xxhash3_64 (ty column.now) (map R.seen rows.now))))) }
{
    let options = BloomOptions::new(blocks, HashFn::XxHash3_64);
    let mut partial = BloomPartial::from(alloc, &options)?;
    for row in rows {
        insert(&mut partial, column, row.scalar());
    }
    let bytes = partial.serialize(alloc)?;
    let blob = Blob::from(bytes);
    Ok(Value::Binary(blob))
}

#[tactic(auto, using(crate::proofs::FilterSteps::insert_rules))]
fn insert(partial: &mut BloomPartial<XxHash3_64>, column: &DType, scalar: Scalar<'_>)
    requires hashed { IsTrue (has_order (ty column.now)) }
    requires fit { IsTrue (is_row_value (ty column.now) (scalar_value scalar)) }
    ensures { partial.new ≡ all_inserted partial.old (value_hashes xxhash3_64 (ty column.now) (scalar_value scalar.entry ∷ [])) }
{
    match scalar {
        Scalar::Null | Scalar::Nested => {}
        Scalar::Bool(b) => {
            let flag = Value::Bool(b);
            let _ = partial.insert_scalar(column, &flag);
            drop(flag);
        }
        Scalar::Int(n) => {
            let number = Value::Int(n);
            let _ = partial.insert_scalar(column, &number);
            drop(number);
        }
        Scalar::Utf8(text) => partial.insert(text.as_bytes()),
        Scalar::Binary(bytes) => partial.insert(bytes),
    }
}
