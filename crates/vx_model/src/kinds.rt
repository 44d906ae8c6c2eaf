//! What is asked of a type.

ghost use Rattle.std.specs.Prelude.{◌≡◌, IfOk, IfSome, map, option_map};
ghost use Rattle.vx_model.specs.Ty.{as_nullable, is_list, is_struct, list_item, struct_tys, storage_of, tys_of};
ghost use Rattle.vx_model.specs.CellData.{CellData, cell_size};
ghost use Rattle.vx_model.specs.ElementSize.{element_size};
ghost use Rattle.vx_model.specs.TyView.{ty, field_ty};

use crate::dtype::{DType, ExtDType, StructField, StructFields, copy_box, copy_fields};
use crate::ptype::Nullability;
use std::alloc::AllocError;

impl DType {
    /// Whether this is a list itself; an extension over a list is none.
    pub fn is_list(&self) -> bool
        ensures { result ≡ is_list (ty self.now) }
    {
        match self {
            DType::List(..) => true,
            DType::Bool(_) | DType::Primitive(..) | DType::Utf8(_) | DType::Binary(_) => false,
            DType::Struct(..) | DType::Extension(_) => false,
        }
    }

    /// Whether this is a struct itself; an extension over a struct is none.
    pub fn is_struct(&self) -> bool
        ensures { result ≡ is_struct (ty self.now) }
    {
        match self {
            DType::Struct(..) => true,
            DType::Bool(_) | DType::Primitive(..) | DType::Utf8(_) | DType::Binary(_) => false,
            DType::List(..) | DType::Extension(_) => false,
        }
    }

    /// The type of a list's elements; an extension over a list has none.
    #[tactic(auto, using(crate::proofs::Views::view_rules))]
    pub fn as_list(&self) -> Option<&DType>
        ensures { option_map (λ t. ty t.now) result ≡ list_item (ty self.now) }
    {
        match self {
            DType::List(items, _) => Some(items),
            DType::Bool(_) | DType::Primitive(..) | DType::Utf8(_) | DType::Binary(_) => None,
            DType::Struct(..) | DType::Extension(_) => None,
        }
    }

    /// The fields of a struct, in order; an extension over a struct has none.
    #[tactic(auto, using(crate::proofs::Views::view_rules))]
    pub fn as_struct(&self) -> Option<&[StructField]>
        ensures { option_map (λ fs. tys_of (map field_ty fs.now)) result ≡ struct_tys (ty self.now) }
    {
        match self {
            DType::Struct(fields, _) => Some(&fields.fields),
            DType::Bool(_) | DType::Primitive(..) | DType::Utf8(_) | DType::Binary(_) => None,
            DType::List(..) | DType::Extension(_) => None,
        }
    }

    /// The type that an extension is stored as, which may be an extension again.
    #[tactic(auto, using(crate::proofs::Views::view_rules))]
    pub fn as_extension(&self) -> Option<&DType>
        ensures { option_map (λ t. ty t.now) result ≡ storage_of (ty self.now) }
    {
        match self {
            DType::Extension(ext) => Some(&ext.storage),
            DType::Bool(_) | DType::Primitive(..) | DType::Utf8(_) | DType::Binary(_) => None,
            DType::List(..) | DType::Struct(..) => None,
        }
    }

    /// Bytes that each cell counts for, where the type alone tells: booleans and integers, and extensions of these.
    /// The null byte of a nullable type counts.
    pub fn element_size(&self) -> Option<u64>
        ensures size { result ≡ element_size (ty self.now) }
        ensures of_each { IfSome result (λ n. (c : CellData) → cell_size (ty self.now) c ≡ n) }
    {
        match self {
            DType::Bool(n) => Some(1 + n.null_byte()),
            DType::Primitive(p, n) => Some(p.byte_width() + n.null_byte()),
            DType::Extension(ext) => ext.storage.element_size(),
            DType::Utf8(_) | DType::Binary(_) | DType::List(..) | DType::Struct(..) => None,
        }
    }

    /// The same type with a null. Of an extension its storage has one.
    #[tactic(auto, using(crate::proofs::Views::copy_rules))]
    pub fn as_nullable(&self) -> Result<DType, AllocError>
        ensures { IfOk result (λ t. ty t ≡ as_nullable (ty self.now)) }
    {
        match self {
            DType::Bool(_) => Ok(DType::Bool(Nullability::Nullable)),
            DType::Primitive(p, _) => Ok(DType::Primitive(*p, Nullability::Nullable)),
            DType::Utf8(_) => Ok(DType::Utf8(Nullability::Nullable)),
            DType::Binary(_) => Ok(DType::Binary(Nullability::Nullable)),
            DType::List(items, _) => Ok(DType::List(copy_box(items)?, Nullability::Nullable)),
            DType::Struct(fields, _) => {
                let fields = copy_fields(&fields.fields)?;
                Ok(DType::Struct(StructFields { fields }, Nullability::Nullable))
            }
            DType::Extension(ext) => {
                let tag = ext.tag.clone()?;
                let storage = ext.storage.as_nullable()?;
                let storage = Box::new(*Box::allocator(&ext.storage), storage)?;
                Ok(DType::Extension(ExtDType { tag, storage }))
            }
        }
    }
}
