//! What the type of a layout says of its children.

ghost use Rattle.std.specs.Prelude.{◌≡◌, ◌+◌, ◌<◌, ◌^◌, map, length};
ghost use Rattle.vx_model.specs.TyView.{ty, field_ty};
ghost use Rattle.vx_layout_shape.specs.Shape.{fields_of, integer_type as integers, is_primitive as primitive_type, struct_children as children_needed, validity_count as validities};

use vx_model::{DType, Nullability, PType, StructField};

/// How many fields a struct type has; another type has none.
#[tactic(auto, using(crate::proofs::Fields::field_rules))]
pub fn field_count(dtype: &DType) -> usize
    ensures count { result ≡ length (fields_of (ty dtype.now)) }
    ensures few { result + 1 < 2 ^ 64 }
{
    match dtype {
        DType::Struct(fields, _) => fields.fields.len(),
        DType::Bool(_) | DType::Primitive(..) | DType::Utf8(_) | DType::Binary(_) => 0,
        DType::List(..) | DType::Extension(_) => 0,
    }
}

/// The fields of a struct type; another type has none.
#[tactic(auto, using(crate::proofs::Fields::told_rules))]
pub fn fields_in(dtype: &DType) -> &[StructField]
    ensures { map field_ty result.now ≡ fields_of (ty dtype.now) }
{
    match dtype.as_struct() {
        Some(fields) => fields,
        None => &[],
    }
}

/// How many children a struct of the type has.
pub fn struct_children(dtype: &DType) -> u64
    ensures { result ≡ children_needed (ty dtype.now) }
{
    field_count(dtype) as u64 + validity_count(dtype)
}

/// One where the type is nullable.
pub fn validity_count(dtype: &DType) -> u64
    ensures { result ≡ validities (ty dtype.now) }
{
    if dtype.is_nullable() { 1 } else { 0 }
}

/// Whether it is a type of integers, nullable or not.
#[tactic(auto, using(vx_model::proofs::Views::view_rules))]
pub fn is_primitive(dtype: &DType) -> bool
    ensures { result ≡ primitive_type (ty dtype.now) }
{
    match dtype {
        DType::Primitive(..) => true,
        DType::Bool(_) | DType::Utf8(_) | DType::Binary(_) => false,
        DType::List(..) | DType::Struct(..) | DType::Extension(_) => false,
    }
}

/// The type that is told where integers are missing.
pub fn integer_type() -> DType
    ensures { ty result ≡ integers }
{
    DType::Primitive(PType::U64, Nullability::NonNullable)
}
