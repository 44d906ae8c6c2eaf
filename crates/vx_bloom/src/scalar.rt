//! Filters of row values.

ghost use Rattle.std.specs.Prelude.{◌≡◌, ◌↔◌, ◌||◌, true, ◌++◌, [], ◌∷◌, List, ℕ, IsTrue, IsErr, IfOk};
ghost use Rattle.std.specs.Option.{option_map};
ghost use Rattle.vx_model.specs.Numbers.{int_fits};
ghost use Rattle.vx_model.specs.TyView.{ty};
ghost use Rattle.vx_model.specs.CellData.{int_bytes};
ghost use Rattle.vx_model.specs.TreeView.{val};
ghost use Rattle.vx_bloom_spec.specs.Filter.{filter_of};
ghost use Rattle.vx_bloom_spec.specs.Values.{bool_hashed, int_hashed, text_hashed, bytes_hashed, is_unsupported, value_hash, value_hashes, all_inserted, may_contain_hash};
ghost use Rattle.vx_model.specs.Ty.{has_order};
ghost use Rattle.vx_model.specs.ValueData.{int_value_fits, is_null_value, is_row_value};

use crate::partial::BloomPartial;
use thiserror::Error;
use vx_hash::ByteHash;
use vx_model::{DType, PType, Value};

/// A value of a list or a struct, which no filter takes.
#[derive(Debug, Drop, Error)]
#[error("a filter takes no lists and no structs")]
pub struct Unsupported;

fn int_hash<H: ByteHash>(ptype: PType, number: i128) -> u64
    requires { IsTrue (int_fits ptype number) }
    ensures { result ≡ H.hash (int_bytes ptype number) }
{
    match ptype {
        PType::U8 => H::oneshot(&(number as u8).to_le_bytes()),
        PType::U16 => H::oneshot(&(number as u16).to_le_bytes()),
        PType::U32 => H::oneshot(&(number as u32).to_le_bytes()),
        PType::U64 => H::oneshot(&(number as u64).to_le_bytes()),
        PType::I8 => H::oneshot(&(number as i8).to_le_bytes()),
        PType::I16 => H::oneshot(&(number as i16).to_le_bytes()),
        PType::I32 => H::oneshot(&(number as i32).to_le_bytes()),
        PType::I64 => H::oneshot(&(number as i64).to_le_bytes()),
    }
}

fn bool_value_hash<H: ByteHash>(value: &Value) -> Option<u64>
    ensures { result ≡ option_map H.hash (bool_hashed (val value.now)) }
{
    match value {
        Value::Bool(b) => Some(H::oneshot(&[u8::from(*b)])),
        _ => None,
    }
}

fn int_value_hash<H: ByteHash>(ptype: PType, value: &Value) -> Option<u64>
    requires { IsTrue (is_null_value (val value.now) || int_value_fits ptype true (val value.now)) }
    ensures { result ≡ option_map H.hash (int_hashed ptype (val value.now)) }
{
    match value {
        Value::Int(number) => Some(int_hash::<H>(ptype, *number)),
        _ => None,
    }
}

fn text_value_hash<H: ByteHash>(value: &Value) -> Option<u64>
    ensures { result ≡ option_map H.hash (text_hashed (val value.now)) }
{
    match value {
        Value::Utf8(text) => Some(H::oneshot(text.as_str().as_bytes())),
        _ => None,
    }
}

fn bytes_value_hash<H: ByteHash>(value: &Value) -> Option<u64>
    ensures { result ≡ option_map H.hash (bytes_hashed (val value.now)) }
{
    match value {
        Value::Binary(bytes) => Some(H::oneshot(bytes.as_slice())),
        _ => None,
    }
}

fn is_null_value(value: &Value) -> bool
    ensures { result ≡ is_null_value (val value.now) }
{
    match value {
        Value::Null => true,
        _ => false,
    }
}

/// Whether values of the type are compared and hashed: seen through extensions it is no list and no struct.
pub fn has_order(dtype: &DType) -> bool
    ensures { result ≡ has_order (ty dtype.now) }
{
    match dtype {
        DType::List(..) | DType::Struct(..) => false,
        DType::Bool(_) | DType::Primitive(..) | DType::Utf8(_) | DType::Binary(_) => true,
        DType::Extension(ext) => has_order(&ext.storage),
    }
}

// The hash of a value; none of null and of a value that isn't hashed.
pub(crate) fn value_hash<H: ByteHash>(dtype: &DType, value: &Value) -> Option<u64>
    requires { IsTrue (is_row_value (ty dtype.now) (val value.now)) }
    ensures { result ≡ value_hash H.hash (ty dtype.now) (val value.now) }
{
    match dtype {
        DType::Bool(_) => bool_value_hash::<H>(value),
        DType::Primitive(ptype, _) => int_value_hash::<H>(*ptype, value),
        DType::Utf8(_) => text_value_hash::<H>(value),
        DType::Binary(_) => bytes_value_hash::<H>(value),
        DType::List(..) | DType::Struct(..) => None,
        DType::Extension(ext) => value_hash::<H>(&ext.storage, value),
    }
}

pub(crate) fn is_unsupported(dtype: &DType, value: &Value) -> bool
    ensures { result ≡ is_unsupported (ty dtype.now) (val value.now) }
{
    !is_null_value(value) && !has_order(dtype)
}

impl<H: ByteHash> BloomPartial<H> {
    // Inserts a value that is hashed, and no other.
    pub(crate) fn insert_value(&mut self, dtype: &DType, value: &Value)
        requires { IsTrue (is_row_value (ty dtype.now) (val value.now)) }
        ensures { self.new ≡ all_inserted self.old (value_hashes H.hash (ty dtype.now) (val value.now ∷ [])) }
    {
        if let Some(hash) = value_hash::<H>(dtype, value) {
            self.insert_hash(hash);
        }
    }

    /// Inserts a value of the type by its bytes: a boolean as one byte 0 or 1, an integer as its bytes, low byte
    /// first, texts and bytes as they are, an extension as its storage. Null inserts nothing.
    #[tactic(auto, using(crate::proofs::ValueLaws::value_rules))]
    pub fn insert_scalar(&mut self, dtype: &DType, value: &Value) -> Result<(), Unsupported>
        requires { IsTrue (is_row_value (ty dtype.now) (val value.now)) }
        ensures refused { IsErr result ↔ IsTrue (is_unsupported (ty dtype.now) (val value.now)) }
        ensures inserted { self.new ≡ all_inserted self.old (value_hashes H.hash (ty dtype.now) (val value.now ∷ [])) }
        ensures filter { (blocks : ℕ) (hashes : List ℕ) → self.old ≡ filter_of blocks hashes
            → self.new ≡ filter_of blocks (hashes ++ value_hashes H.hash (ty dtype.now) (val value.now ∷ [])) }
    {
        if is_unsupported(dtype, value) {
            return Err(Unsupported);
        }
        self.insert_value(dtype, value);
        Ok(())
    }

    /// Whether the value's mask is set. Null is never contained.
    pub fn contains_scalar(&self, dtype: &DType, value: &Value) -> Result<bool, Unsupported>
        requires { IsTrue (is_row_value (ty dtype.now) (val value.now)) }
        ensures refused { IsErr result ↔ IsTrue (is_unsupported (ty dtype.now) (val value.now)) }
        ensures contained { IfOk result (λ b. b ≡ may_contain_hash self.now (value_hash H.hash (ty dtype.now) (val value.now))) }
    {
        if is_unsupported(dtype, value) {
            return Err(Unsupported);
        }
        match value_hash::<H>(dtype, value) {
            Some(hash) => Ok(self.contains_hash(hash)),
            None => Ok(false),
        }
    }
}
