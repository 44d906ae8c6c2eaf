//! Which row values a type has.

ghost use Rattle.std.specs.Prelude.{◌≡◌, map};
ghost use Rattle.vx_model.specs.Words.{all_by};
ghost use Rattle.vx_model.specs.Ty.{tys_of};
ghost use Rattle.vx_model.specs.ValueData.{value_fits as has_value, values_fit as have_values, is_row_value};
ghost use Rattle.vx_model.specs.TyView.{ty, field_ty};
ghost use Rattle.vx_model.specs.TreeView.{val};

use crate::dtype::{DType, StructField};
use crate::fit::has_int;
use crate::row_value::Value;

/// Whether the value is null or one of the type. Below the value itself null needs a nullable type.
pub fn is_row_value(dtype: &DType, value: &Value) -> bool
    ensures { result ≡ is_row_value (ty dtype.now) (val value.now) }
{
    matches!(value, Value::Null) || value_fits(dtype, value)
}

#[cycle(value_fits)]
#[tactic(auto, using(crate::proofs::ValueSteps::value_rules))]
fn all_fit(dtype: &DType, values: &[Value]) -> bool
    ensures { result ≡ all_by (has_value (ty dtype.now)) (map val values.now) }
{
    for value in values {
        if !value_fits(dtype, value) {
            return false;
        }
    }
    true
}

/// Whether the value is the type's; null is one of each nullable type.
#[cycle(value_fits)]
#[tactic(auto, using(crate::proofs::ValueSteps::value_rules))]
fn value_fits(dtype: &DType, value: &Value) -> bool
    ensures { result ≡ has_value (ty dtype.now) (val value.now) }
{
    match dtype {
        DType::Bool(n) => match value {
            Value::Null => n.is_nullable(),
            Value::Bool(_) => true,
            _ => false,
        },
        DType::Primitive(p, n) => match value {
            Value::Null => n.is_nullable(),
            Value::Int(i) => has_int(*p, *i),
            _ => false,
        },
        DType::Utf8(n) => match value {
            Value::Null => n.is_nullable(),
            Value::Utf8(_) => true,
            _ => false,
        },
        DType::Binary(n) => match value {
            Value::Null => n.is_nullable(),
            Value::Binary(_) => true,
            _ => false,
        },
        DType::List(items, n) => match value {
            Value::Null => n.is_nullable(),
            Value::List(values) => all_fit(items, values),
            _ => false,
        },
        DType::Struct(fields, n) => match value {
            Value::Null => n.is_nullable(),
            Value::Struct(values) => fields_fit(&fields.fields, values),
            _ => false,
        },
        DType::Extension(ext) => value_fits(&ext.storage, value),
    }
}

/// One value a field, in order.
#[cycle(value_fits)]
#[tactic(auto, using(crate::proofs::ValueSteps::value_rules))]
fn fields_fit(fields: &[StructField], values: &[Value]) -> bool
    ensures { result ≡ have_values (tys_of (map field_ty fields.now)) (map val values.now) }
{
    if fields.len() != values.len() {
        return false;
    }
    for i in 0..fields.len() {
        if !value_fits(&fields[i].dtype, &values[i]) {
            return false;
        }
    }
    true
}
