//! The types of aggregates' values on a column's type.

ghost use Rattle.std.specs.Prelude.{◌≡◌, option_map};
ghost use Rattle.vx_model.specs.TyView.{ty};
ghost use Rattle.vx_aggregate_spec.specs.Aggregate.{bound_state as bounds, byte_bound_state as byte_bounds, sum_state as sums, sum_of_type, sum_type as summed, filter_state as filters};

use vx_model::{DType, Nullability, PType};

#[tactic(auto, using(vx_model::proofs::Views::view_rules))]
pub(crate) fn bound_state(column: &DType) -> Option<DType>
    ensures { option_map ty result ≡ bounds (ty column.now) }
{
    match column {
        DType::Bool(_) => Some(DType::Bool(Nullability::Nullable)),
        DType::Primitive(p, _) => Some(DType::Primitive(*p, Nullability::Nullable)),
        DType::Utf8(_) => Some(DType::Utf8(Nullability::Nullable)),
        DType::Binary(_) => Some(DType::Binary(Nullability::Nullable)),
        DType::List(..) | DType::Struct(..) => None,
        DType::Extension(ext) => bound_state(&ext.storage),
    }
}

#[tactic(auto, using(vx_model::proofs::Views::view_rules))]
pub(crate) fn byte_bound_state(column: &DType) -> Option<DType>
    ensures { option_map ty result ≡ byte_bounds (ty column.now) }
{
    match column {
        DType::Utf8(_) => Some(DType::Utf8(Nullability::Nullable)),
        DType::Binary(_) => Some(DType::Binary(Nullability::Nullable)),
        DType::Bool(_) | DType::Primitive(..) | DType::List(..) | DType::Struct(..) => None,
        DType::Extension(ext) => byte_bound_state(&ext.storage),
    }
}

pub(crate) fn sum_state(column: &DType) -> Option<DType>
    ensures { option_map ty result ≡ sums (sum_of_type (ty column.now)) }
{
    match sum_ptype(column) {
        Some(ptype) => Some(DType::Primitive(ptype, Nullability::Nullable)),
        None => None,
    }
}

/// The integers that a column's sums are; nothing where it has none. An extension has its storage's.
#[tactic(auto, using(vx_model::proofs::Views::view_rules))]
pub fn sum_ptype(column: &DType) -> Option<PType>
    ensures { result ≡ sum_of_type (ty column.now) }
{
    match column {
        DType::Bool(_) => Some(PType::U64),
        DType::Primitive(p, _) => Some(sum_type(*p)),
        DType::Utf8(_) | DType::Binary(_) | DType::List(..) | DType::Struct(..) => None,
        DType::Extension(ext) => sum_ptype(&ext.storage),
    }
}

fn sum_type(p: PType) -> PType
    ensures { result ≡ summed p }
{
    match p {
        PType::U8 | PType::U16 | PType::U32 | PType::U64 => PType::U64,
        PType::I8 | PType::I16 | PType::I32 | PType::I64 => PType::I64,
    }
}

#[tactic(auto, using(vx_model::proofs::Views::view_rules))]
pub(crate) fn filter_state(column: &DType) -> Option<DType>
    ensures { option_map ty result ≡ filters (ty column.now) }
{
    match column {
        DType::Bool(_) | DType::Primitive(..) | DType::Utf8(_) | DType::Binary(_) => Some(
            DType::Binary(Nullability::Nullable),
        ),
        DType::List(..) | DType::Struct(..) => None,
        DType::Extension(ext) => filter_state(&ext.storage),
    }
}
