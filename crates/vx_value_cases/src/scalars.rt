//! What of a scalar a filter takes.

ghost use Rattle.std.specs.Prelude.{◌≡◌, IsTrue, IfOk, IfSome};
ghost use Rattle.vx_model.specs.ValueData.{ValueData, is_row_value};
ghost use Rattle.vx_model.specs.TyView.{ty};
ghost use Rattle.vx_model.specs.TreeView.{val};

use crate::filters::{Partial, options};
use crate::given::bytes;
use anyhow::Context;
use std::alloc::{AllocError, Global};
use vx_case_lines::{Answer, bytes_of, cut};
use vx_model::{Blob, Cell, DType, ExtDType, Nullability, PType, Text, Value, fits_one};

/// The type as one of its own.
fn extended(alloc: Global, storage: DType) -> Result<DType, AllocError>
    ensures { IfOk result (λ t. (v : ValueData) → is_row_value (ty t) v ≡ is_row_value (ty storage) v) }
{
    let tag = Text::from_str(alloc, "days")?;
    let storage = Box::new(alloc, storage)?;
    Ok(DType::Extension(ExtDType { tag, storage }))
}

/// An integer of the type.
fn integer(name: &str, digits: &str) -> Option<(DType, Value)>
    ensures { IfSome result (λ r. IsTrue (is_row_value (ty r.0) (val r.1))) }
{
    let ptype = PType::from_name(name)?;
    let number: i128 = digits.parse().ok()?;
    let dtype = DType::Primitive(ptype, Nullability::NonNullable);
    let cell = Cell::Int(number);
    let fits = fits_one(&dtype, &cell);
    drop(cell);
    if fits {
        Some((dtype, Value::Int(number)))
    } else {
        drop(dtype);
        None
    }
}

/// The value of the type.
fn scalar(alloc: Global, name: &str, text: &str) -> anyhow::Result<(DType, Value)>
    ensures { IfOk result (λ r. IsTrue (is_row_value (ty r.0) (val r.1))) }
{
    let some = Nullability::NonNullable;
    match name {
        "bool" => Ok((DType::Bool(some), Value::Bool(text == "true"))),
        "utf8" => {
            let text = Text::from_str(alloc, text)?;
            Ok((DType::Utf8(some), Value::Utf8(text)))
        }
        "binary" => {
            let bytes = bytes_of(alloc, text)?;
            Ok((DType::Binary(some), Value::Binary(Blob::from(bytes))))
        }
        "days" => days(alloc, text),
        _ => integer(name, text).context("no integer"),
    }
}

/// An integer of a type of its own.
fn days(alloc: Global, text: &str) -> anyhow::Result<(DType, Value)>
    ensures { IfOk result (λ r. IsTrue (is_row_value (ty r.0) (val r.1))) }
{
    let (storage, value) = integer("i32", text).context("no integer")?;
    match extended(alloc, storage) {
        Ok(dtype) => Ok((dtype, value)),
        Err(error) => {
            drop(value);
            Err(error.into())
        }
    }
}

pub(crate) fn tell(alloc: Global, answer: &mut Answer, given: &str) {
    let (name, rest) = cut(given);
    let (text, hashed) = cut(rest);
    match scalar(alloc, name, text) {
        Ok((dtype, value)) => {
            if let Err(error) = push_hashed(alloc, answer, &dtype, &value, hashed) {
                answer.push(error);
            }
            drop(value);
            drop(dtype);
        }
        Err(error) => answer.push(error),
    }
}

/// Whether the value goes into a filter as these bytes.
fn push_hashed(
    alloc: Global,
    answer: &mut Answer,
    dtype: &DType,
    value: &Value,
    hashed: &str,
) -> anyhow::Result<()>
    requires { IsTrue (is_row_value (ty dtype.now) (val value.now)) }
{
    let mut by_value = Partial::from(alloc, &options(16))?;
    by_value.insert_scalar(dtype, value)?;
    let contained = by_value.contains_scalar(dtype, value)?;
    let by_bytes = filter_of_bytes(alloc, hashed)?;
    let equal = by_value == by_bytes;
    write!(answer, "equal {equal}, contained {contained}");
    Ok(())
}

fn filter_of_bytes(alloc: Global, digits: &str) -> Result<Partial, AllocError> {
    let mut partial = Partial::from(alloc, &options(16))?;
    let bytes = bytes(alloc, digits);
    partial.insert(&bytes);
    drop(bytes);
    Ok(partial)
}
