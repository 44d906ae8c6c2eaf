//! The text of a type: `i64?`, `{a=utf8, b=list(u8)}`.

ghost use Rattle.std.specs.Prelude.{◌≡◌, ◌++◌, map, true, codes};
ghost use Rattle.std.specs.Fmt.{WritesOnOk};
ghost use Rattle.vx_model.specs.Numbers.{is_nullable};
ghost use Rattle.vx_model.specs.Ty.{tys_of};
ghost use Rattle.vx_model.specs.TyView.{ty, field_ty};
ghost use Rattle.vx_model.specs.Shown.{null_mark, comma, type_text, fields_text};

use crate::dtype::{DType, StructField};
use crate::ptype::Nullability;
use std::fmt::{self, Formatter, Write};

impl fmt::Display for DType {
    ghost use Rattle.std.specs.Prelude.{Some};
    ghost use Rattle.vx_model.specs.Shown.{type_text};
    ghost use Rattle.vx_model.specs.TyView.{ty};

    ghost output = { λ t. Some (type_text (ty t)) };

    fn fmt<W: Write>(&self, f: &mut Formatter<W>) -> fmt::Result {
        write_type(f, self)
    }
}

impl fmt::Debug for DType {
    ghost use Rattle.std.specs.Prelude.{Some};
    ghost use Rattle.vx_model.specs.Shown.{type_text};
    ghost use Rattle.vx_model.specs.TyView.{ty};

    ghost debug_output = { λ t. Some (type_text (ty t)) };

    fn fmt<W: Write>(&self, f: &mut Formatter<W>) -> fmt::Result {
        write_type(f, self)
    }
}

#[cycle(shown)]
#[tactic(auto, using(crate::proofs::Texts::type_rules))]
fn write_type<W: Write>(f: &mut Formatter<W>, dtype: &DType) -> fmt::Result
    ensures { WritesOnOk W.write_str_gives f.old result (type_text (ty dtype.now)) f.new }
{
    match dtype {
        DType::Bool(n) => write_named(f, "bool", *n),
        DType::Primitive(p, n) => write_named(f, p.name(), *n),
        DType::Utf8(n) => write_named(f, "utf8", *n),
        DType::Binary(n) => write_named(f, "binary", *n),
        DType::List(items, n) => {
            f.write_str("list(")?;
            write_type(f, items)?;
            write_named(f, ")", *n)
        }
        DType::Struct(fields, n) => {
            f.write_str("{")?;
            write_fields(f, &fields.fields)?;
            write_named(f, "}", *n)
        }
        DType::Extension(ext) => {
            write_tag(f, ext.tag.as_str())?;
            write_type(f, &ext.storage)?;
            f.write_str(")")
        }
    }
}

#[cycle(shown)]
#[tactic(auto, using(crate::proofs::Texts::type_rules))]
fn write_fields<W: Write>(f: &mut Formatter<W>, fields: &[StructField]) -> fmt::Result
    ensures { WritesOnOk W.write_str_gives f.old result (fields_text true (tys_of (map field_ty fields.now))) f.new }
{
    for i in 0..fields.len() {
        let field = &fields[i];
        write_name(f, i == 0, field.name.as_str())?;
        write_type(f, &field.dtype)?;
    }
    Ok(())
}

/// What stands before a field's type.
fn write_name<W: Write>(f: &mut Formatter<W>, first: bool, name: &str) -> fmt::Result
    ensures { WritesOnOk W.write_str_gives f.old result (comma first ++ (name.now ++ codes "=")) f.new }
{
    f.write_str(before_field(first))?;
    f.write_str(name)?;
    f.write_str("=")
}

fn before_field(first: bool) -> &'static str
    ensures { result.now ≡ comma first }
{
    if first { "" } else { ", " }
}

fn write_tag<W: Write>(f: &mut Formatter<W>, tag: &str) -> fmt::Result
    ensures { WritesOnOk W.write_str_gives f.old result (codes "ext(" ++ (tag.now ++ codes ", ")) f.new }
{
    f.write_str("ext(")?;
    f.write_str(tag)?;
    f.write_str(", ")
}

fn write_named<W: Write>(f: &mut Formatter<W>, name: &str, nullability: Nullability) -> fmt::Result
    ensures { WritesOnOk W.write_str_gives f.old result (name.now ++ null_mark (is_nullable nullability)) f.new }
{
    f.write_str(name)?;
    f.write_str(mark(nullability))
}

fn mark(nullability: Nullability) -> &'static str
    ensures { result.now ≡ null_mark (is_nullable nullability) }
{
    match nullability {
        Nullability::NonNullable => "",
        Nullability::Nullable => "?",
    }
}
