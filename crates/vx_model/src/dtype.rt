//! Types of columns.

ghost use Rattle.std.specs.Prelude.{◌≡◌, ◌&&◌, IfOk, map, bytes_eq};
ghost use Rattle.vx_model.specs.Ty.{ty_eq, tys_eq, tys_of, nullable};
ghost use Rattle.vx_model.specs.TyView.{ty, field_ty};

use crate::ptype::{Nullability, PType};
use crate::text::{FieldName, Text};
use std::alloc::AllocError;

/// The type of a column. An extension is as nullable as its storage.
#[cycle(dtype)]
pub enum DType {
    Bool(Nullability),
    Primitive(PType, Nullability),
    Utf8(Nullability),
    Binary(Nullability),
    List(Box<DType>, Nullability),
    Struct(StructFields, Nullability),
    Extension(ExtDType),
}

/// The fields of a struct type, in order. Names may repeat.
#[derive(Debug, Drop)]
#[cycle(dtype)]
pub struct StructFields {
    pub fields: Vec<StructField>,
}

/// A field: its name, and the type of its values.
#[derive(Debug, Drop)]
#[cycle(dtype)]
pub struct StructField {
    pub name: FieldName,
    pub dtype: DType,
}

/// A type with a name of its own that is stored as another.
#[derive(Debug, Drop)]
#[cycle(dtype)]
pub struct ExtDType {
    pub tag: Text,
    pub storage: Box<DType>,
}

impl DType {
    /// Whether rows of the type can be null; an extension's are as its storage's.
    pub fn is_nullable(&self) -> bool
        ensures { result ≡ nullable (ty self.now) }
    {
        match self {
            DType::Bool(n) | DType::Primitive(_, n) | DType::Utf8(n) | DType::Binary(n) =>
                n.is_nullable(),
            DType::List(_, n) | DType::Struct(_, n) => n.is_nullable(),
            DType::Extension(ext) => ext.storage.is_nullable(),
        }
    }
}

// Written out, so that whoever drops one makes a call, and no proof goes through its variants again.
impl Drop for DType {
    #[cycle(dtype)]
    fn drop(self) {
        match self {
            DType::Bool(_) => {}
            DType::Primitive(_, _) => {}
            DType::Utf8(_) => {}
            DType::Binary(_) => {}
            DType::List(_, _) => {}
            DType::Struct(_, _) => {}
            DType::Extension(_) => {}
        }
    }
}

impl Clone for DType {
    ghost is_clone = { λ t copy. ty copy ≡ ty t };

    fn clone(&self) -> Result<DType, AllocError> {
        copy(self)
    }
}

#[cycle(copy)]
#[tactic(auto, using(crate::proofs::Views::copy_rules))]
fn copy(dtype: &DType) -> Result<DType, AllocError>
    ensures { IfOk result (λ t. ty t ≡ ty dtype.now) }
{
    match dtype {
        DType::Bool(n) => Ok(DType::Bool(*n)),
        DType::Primitive(p, n) => Ok(DType::Primitive(*p, *n)),
        DType::Utf8(n) => Ok(DType::Utf8(*n)),
        DType::Binary(n) => Ok(DType::Binary(*n)),
        DType::List(items, n) => Ok(DType::List(copy_box(items)?, *n)),
        DType::Struct(fields, n) => {
            let fields = copy_fields(&fields.fields)?;
            Ok(DType::Struct(StructFields { fields }, *n))
        }
        DType::Extension(ext) => {
            let tag = ext.tag.clone()?;
            let storage = copy_box(&ext.storage)?;
            Ok(DType::Extension(ExtDType { tag, storage }))
        }
    }
}

#[cycle(copy)]
#[tactic(auto, using(crate::proofs::Views::copy_rules))]
pub(crate) fn copy_box(dtype: &Box<DType>) -> Result<Box<DType>, AllocError>
    ensures { IfOk result (λ t. ty t.value ≡ ty dtype.now.value) }
{
    Ok(Box::new(*Box::allocator(dtype), copy(dtype)?)?)
}

#[cycle(copy)]
#[tactic(auto, using(crate::proofs::Views::copy_rules))]
pub(crate) fn copy_fields(fields: &Vec<StructField>) -> Result<Vec<StructField>, AllocError>
    ensures { IfOk result (λ v. map field_ty v.items ≡ map field_ty fields.now.items) }
{
    let mut copies = Vec::with_capacity(*fields.allocator(), fields.len())?;
    for field in fields {
        let name = field.name.clone()?;
        let dtype = copy(&field.dtype)?;
        copies.push(StructField { name, dtype })?;
    }
    Ok(copies)
}

impl PartialEq for DType {
    ghost use Rattle.std.specs.Ordering.{on};
    ghost use Rattle.std.specs.Cmp.{on_per, partial_equiv_from_equiv, decided};
    ghost use Rattle.vx_model.specs.Ty.{ty_eq};
    ghost use Rattle.vx_model.specs.TyView.{ty};
    ghost use Rattle.vx_model.specs.TyLaws.{ty_eq_decides};

    ghost eq = { on ty ty_eq };

    ghost laws = { on_per ty (partial_equiv_from_equiv (decided ty_eq ty_eq_decides)) };

    fn eq(&self, other: &DType) -> bool {
        same(self, other)
    }
}

impl Eq for DType {
    ghost use Rattle.std.specs.Cmp.{on_equiv, decided};
    ghost use Rattle.vx_model.specs.Ty.{ty_eq};
    ghost use Rattle.vx_model.specs.TyView.{ty};
    ghost use Rattle.vx_model.specs.TyLaws.{ty_eq_decides};

    ghost laws = { on_equiv ty (decided ty_eq ty_eq_decides) };
}

#[cycle(same)]
#[tactic(auto, using(crate::proofs::Views::same_rules))]
fn same(a: &DType, b: &DType) -> bool
    ensures { result ≡ ty_eq (ty a.now) (ty b.now) }
{
    match a {
        DType::Bool(m) => match b {
            DType::Bool(n) => m == n,
            DType::Primitive(..) | DType::Utf8(_) | DType::Binary(_) => false,
            DType::List(..) | DType::Struct(..) | DType::Extension(_) => false,
        },
        DType::Primitive(p, m) => match b {
            DType::Primitive(q, n) => p == q && m == n,
            DType::Bool(_) | DType::Utf8(_) | DType::Binary(_) => false,
            DType::List(..) | DType::Struct(..) | DType::Extension(_) => false,
        },
        DType::Utf8(m) => match b {
            DType::Utf8(n) => m == n,
            DType::Bool(_) | DType::Primitive(..) | DType::Binary(_) => false,
            DType::List(..) | DType::Struct(..) | DType::Extension(_) => false,
        },
        DType::Binary(m) => match b {
            DType::Binary(n) => m == n,
            DType::Bool(_) | DType::Primitive(..) | DType::Utf8(_) => false,
            DType::List(..) | DType::Struct(..) | DType::Extension(_) => false,
        },
        DType::List(s, m) => match b {
            DType::List(t, n) => same(s, t) && m == n,
            DType::Bool(_) | DType::Primitive(..) | DType::Utf8(_) => false,
            DType::Binary(_) | DType::Struct(..) | DType::Extension(_) => false,
        },
        DType::Struct(fs, m) => match b {
            DType::Struct(gs, n) => same_fields(&fs.fields, &gs.fields) && m == n,
            DType::Bool(_) | DType::Primitive(..) | DType::Utf8(_) => false,
            DType::Binary(_) | DType::List(..) | DType::Extension(_) => false,
        },
        DType::Extension(s) => match b {
            DType::Extension(t) => s.tag == t.tag && same(&s.storage, &t.storage),
            DType::Bool(_) | DType::Primitive(..) | DType::Utf8(_) => false,
            DType::Binary(_) | DType::List(..) | DType::Struct(..) => false,
        },
    }
}

#[cycle(same)]
#[tactic(auto, using(crate::proofs::Views::same_rules))]
fn same_fields(a: &[StructField], b: &[StructField]) -> bool
    ensures { result ≡ tys_eq (tys_of (map field_ty a.now)) (tys_of (map field_ty b.now)) }
{
    if a.len() != b.len() {
        return false;
    }
    for i in 0..a.len() {
        if !same_field(&a[i], &b[i]) {
            return false;
        }
    }
    true
}

#[cycle(same)]
#[tactic(auto, using(crate::proofs::Views::same_rules))]
fn same_field(a: &StructField, b: &StructField) -> bool
    ensures { result ≡ (bytes_eq a.now.name b.now.name && ty_eq (ty a.now.dtype) (ty b.now.dtype)) }
{
    a.name == b.name && same(&a.dtype, &b.dtype)
}
