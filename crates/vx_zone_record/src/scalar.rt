//! Rows without what is below lists and structs.

ghost use Rattle.std.specs.Prelude.{◌≡◌, IfOk};
ghost use Rattle.vx_model.specs.ValueData.{is_null_value};
ghost use Rattle.vx_model.specs.TreeView.{val};
ghost use Rattle.vx_zone_spec.specs.Record.{number_of_value};
ghost use Rattle.vx_zone_spec.specs.ValueOrder.{value_le, greater, lesser};
ghost use Rattle.vx_zone_record.specs.Scalars.{scalar_value};

use std::alloc::{AllocError, Global};
use vx_model::{Blob, Text, Value};

/// A row as folds read it. Of a list or a struct it is known only that it isn't null.
#[derive(Clone, Copy)]
pub enum Scalar<'a> {
    Null,
    Bool(bool),
    Int(i128),
    Utf8(&'a str),
    Binary(&'a [u8]),
    Nested,
}

/// A value of its own. Texts and bytes are copied.
#[tactic(auto, using(crate::proofs::ScalarSteps::scalar_rules))]
pub(crate) fn to_value(alloc: Global, scalar: Scalar<'_>) -> Result<Value, AllocError>
    ensures { IfOk result (λ v. val v ≡ scalar_value scalar.entry) }
{
    match scalar {
        Scalar::Null => Ok(Value::Null),
        Scalar::Bool(b) => Ok(Value::Bool(b)),
        Scalar::Int(n) => Ok(Value::Int(n)),
        Scalar::Utf8(text) => Ok(Value::Utf8(Text::from_str(alloc, text)?)),
        Scalar::Binary(bytes) => Ok(Value::Binary(Blob::from_slice(alloc, bytes)?)),
        Scalar::Nested => Ok(Value::List(Vec::new(alloc))),
    }
}

pub(crate) fn is_null(scalar: Scalar<'_>) -> bool
    ensures { result ≡ is_null_value (scalar_value scalar.entry) }
{
    matches!(scalar, Scalar::Null)
}

/// Truth values count as 0 and 1, and what isn't a number as 0.
pub(crate) fn number(scalar: Scalar<'_>) -> i128
    ensures { result ≡ number_of_value (scalar_value scalar.entry) }
{
    match scalar {
        Scalar::Int(n) => n,
        Scalar::Bool(true) => 1,
        _ => 0,
    }
}

/// Whether `a` is at most `b`: false before true, integers by size, texts and bytes by their bytes. Two kinds aren't
/// compared.
#[tactic(auto, using(crate::proofs::OrderSteps::order_rules))]
pub fn is_at_most(a: Scalar<'_>, b: Scalar<'_>) -> bool
    ensures { result ≡ value_le (scalar_value a.entry) (scalar_value b.entry) }
{
    match (a, b) {
        (Scalar::Bool(a), Scalar::Bool(b)) => !a || b,
        (Scalar::Int(a), Scalar::Int(b)) => a <= b,
        (Scalar::Utf8(a), Scalar::Utf8(b)) => a <= b,
        (Scalar::Binary(a), Scalar::Binary(b)) => a <= b,
        _ => false,
    }
}

/// The greater of the two; the other where one is null.
#[tactic(auto, using(crate::proofs::OrderSteps::choice_rules))]
pub(crate) fn greater<'a>(a: Scalar<'a>, b: Scalar<'a>) -> Scalar<'a>
    ensures { scalar_value result ≡ greater (scalar_value a.entry) (scalar_value b.entry) }
{
    if is_null(a) {
        return b;
    }
    if is_null(b) {
        return a;
    }
    if is_at_most(a, b) { b } else { a }
}

/// The lesser of the two; the other where one is null.
#[tactic(auto, using(crate::proofs::OrderSteps::choice_rules))]
pub(crate) fn lesser<'a>(a: Scalar<'a>, b: Scalar<'a>) -> Scalar<'a>
    ensures { scalar_value result ≡ lesser (scalar_value a.entry) (scalar_value b.entry) }
{
    if is_null(a) {
        return b;
    }
    if is_null(b) {
        return a;
    }
    if is_at_most(a, b) { a } else { b }
}
