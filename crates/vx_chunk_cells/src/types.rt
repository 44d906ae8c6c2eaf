//! Tests of types, and what lists and structs are made of.

ghost use Rattle.std.specs.Prelude.{◌≡◌, map, IsTrue};
ghost use Rattle.vx_model.specs.Ty.{is_list, is_struct, tys_of};
ghost use Rattle.vx_model.specs.TyView.{ty, field_ty};
ghost use Rattle.vx_model.specs.ChunkData.{is_unsigned as unsigned, is_code_type as of_codes, is_dict_type as of_values, are_flags as are_flags_of, has_elements as of_elements, has_storage as of_storage};
ghost use Rattle.vx_chunk_cells.specs.Parts.{element_type, struct_fields};

use vx_model::{DType, PType, StructField};

/// Whether a dictionary's codes may have the type: non-nullable and unsigned.
pub fn is_code_type(dtype: &DType) -> bool
    ensures { result ≡ of_codes (ty dtype.now) }
{
    match dtype {
        DType::Primitive(p, n) => is_unsigned(*p) && !n.is_nullable(),
        DType::Bool(_) | DType::Utf8(_) | DType::Binary(_) => false,
        DType::List(..) | DType::Struct(..) | DType::Extension(_) => false,
    }
}

fn is_unsigned(ptype: PType) -> bool
    ensures { result ≡ unsigned ptype }
{
    match ptype {
        PType::U8 | PType::U16 | PType::U32 | PType::U64 => true,
        PType::I8 | PType::I16 | PType::I32 | PType::I64 => false,
    }
}

/// Whether a dictionary's values may have the type: integers, texts or bytes.
pub fn is_dict_type(dtype: &DType) -> bool
    ensures { result ≡ of_values (ty dtype.now) }
{
    match dtype {
        DType::Primitive(..) | DType::Utf8(_) | DType::Binary(_) => true,
        DType::Bool(_) | DType::List(..) | DType::Struct(..) | DType::Extension(_) => false,
    }
}

/// Whether the type is a list of such elements.
#[tactic(auto, using(vx_model::proofs::Views::view_rules))]
pub fn has_elements(dtype: &DType, elements: &DType) -> bool
    ensures { result ≡ of_elements (ty dtype.now) (ty elements.now) }
{
    match dtype {
        DType::List(items, _) => **items == *elements,
        DType::Bool(_) | DType::Primitive(..) | DType::Utf8(_) | DType::Binary(_) => false,
        DType::Struct(..) | DType::Extension(_) => false,
    }
}

/// Whether the type is an extension of such a storage.
#[tactic(auto, using(vx_model::proofs::Views::view_rules))]
pub fn has_storage(dtype: &DType, storage: &DType) -> bool
    ensures { result ≡ of_storage (ty dtype.now) (ty storage.now) }
{
    match dtype {
        DType::Extension(ext) => *ext.storage == *storage,
        DType::Bool(_) | DType::Primitive(..) | DType::Utf8(_) | DType::Binary(_) => false,
        DType::List(..) | DType::Struct(..) => false,
    }
}

/// Whether there is a flag a row where the type is nullable, and else none.
pub fn are_flags(dtype: &DType, rows: u64, valid: &[bool]) -> bool
    ensures { result ≡ are_flags_of (ty dtype.now) rows valid.now }
{
    if dtype.is_nullable() {
        valid.len() as u64 == rows
    } else {
        valid.is_empty()
    }
}

/// The type of a list's elements.
#[tactic(auto, using(crate::proofs::TypeSteps::item_rules))]
pub fn items_of(dtype: &DType) -> &DType
    requires { IsTrue (is_list (ty dtype.now)) }
    ensures { ty result.now ≡ element_type (ty dtype.now) }
{
    match dtype.as_list() {
        Some(items) => items,
        None => unreachable!(),
    }
}

/// The fields of a struct type.
#[tactic(auto, using(crate::proofs::TypeSteps::field_rules))]
pub fn types_of(dtype: &DType) -> &[StructField]
    requires { IsTrue (is_struct (ty dtype.now)) }
    ensures { tys_of (map field_ty result.now) ≡ struct_fields (ty dtype.now) }
{
    match dtype.as_struct() {
        Some(fields) => fields,
        None => unreachable!(),
    }
}
