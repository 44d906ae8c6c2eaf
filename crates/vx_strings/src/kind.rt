//! Texts, or bytes.

ghost use Rattle.std.specs.Prelude.{◌≡◌, IsTrue};

/// Whether rows of bytes are texts.
#[derive(Clone, Copy)]
pub enum StringKind {
    Utf8,
    Binary,
}

/// Whether both are of one kind.
pub(crate) fn is_same(a: StringKind, b: StringKind) -> bool
    ensures { IsTrue result → a ≡ b }
{
    match a {
        StringKind::Utf8 => matches!(b, StringKind::Utf8),
        StringKind::Binary => matches!(b, StringKind::Binary),
    }
}
