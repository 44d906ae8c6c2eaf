ghost use Rattle.std.specs.Prelude.{◌≡◌, ◌≢◌, IfNone, IfSome};
ghost use Rattle.vx_model.specs.declared.ptype.PType.{PType};
ghost use Rattle.vx_model.specs.Numbers.{ptype_number, ptype_bytes, ptype_name, is_nullable};
ghost use Rattle.vx_model.specs.CellData.{null_byte};

/// The integer types.
#[derive(Clone, Copy, Debug, PartialEq, Eq)]
pub enum PType {
    U8,
    U16,
    U32,
    U64,
    I8,
    I16,
    I32,
    I64,
}

impl PType {
    /// The number that stands for the type in bytes.
    pub fn number(self) -> u8
        ensures { result ≡ ptype_number self }
    {
        match self {
            PType::U8 => 0,
            PType::U16 => 1,
            PType::U32 => 2,
            PType::U64 => 3,
            PType::I8 => 4,
            PType::I16 => 5,
            PType::I32 => 6,
            PType::I64 => 7,
        }
    }

    /// The type that the number stands for.
    pub fn from_number(number: u8) -> Option<PType>
        ensures found { IfSome result (λ p. ptype_number p ≡ number) }
        ensures none { IfNone result ((p : PType) → ptype_number p ≢ number) }
    {
        match number {
            0 => Some(PType::U8),
            1 => Some(PType::U16),
            2 => Some(PType::U32),
            3 => Some(PType::U64),
            4 => Some(PType::I8),
            5 => Some(PType::I16),
            6 => Some(PType::I32),
            7 => Some(PType::I64),
            _ => None,
        }
    }

    /// `u8` to `i64`.
    pub fn name(self) -> &'static str
        ensures { result.now ≡ ptype_name self }
    {
        match self {
            PType::U8 => "u8",
            PType::U16 => "u16",
            PType::U32 => "u32",
            PType::U64 => "u64",
            PType::I8 => "i8",
            PType::I16 => "i16",
            PType::I32 => "i32",
            PType::I64 => "i64",
        }
    }

    /// The type of this name, `u8` to `i64`.
    pub fn from_name(name: &str) -> Option<PType>
        ensures found { IfSome result (λ p. ptype_name p ≡ name.now) }
        ensures none { IfNone result ((p : PType) → ptype_name p ≢ name.now) }
    {
        match name {
            "u8" => Some(PType::U8),
            "u16" => Some(PType::U16),
            "u32" => Some(PType::U32),
            "u64" => Some(PType::U64),
            "i8" => Some(PType::I8),
            "i16" => Some(PType::I16),
            "i32" => Some(PType::I32),
            "i64" => Some(PType::I64),
            _ => None,
        }
    }

    /// Bytes of one integer of the type.
    pub fn byte_width(self) -> u64
        ensures { result ≡ ptype_bytes self }
    {
        match self {
            PType::U8 | PType::I8 => 1,
            PType::U16 | PType::I16 => 2,
            PType::U32 | PType::I32 => 4,
            PType::U64 | PType::I64 => 8,
        }
    }
}

/// Whether a type has a null.
#[derive(Clone, Copy, Debug, PartialEq, Eq)]
pub enum Nullability {
    NonNullable,
    Nullable,
}

impl Nullability {
    /// Whether it has one.
    pub fn is_nullable(self) -> bool
        ensures { result ≡ is_nullable self }
    {
        match self {
            Nullability::NonNullable => false,
            Nullability::Nullable => true,
        }
    }

    /// Bytes that a null adds to the size of a cell.
    pub(crate) fn null_byte(self) -> u64
        ensures { result ≡ null_byte (is_nullable self) }
    {
        match self {
            Nullability::NonNullable => 0,
            Nullability::Nullable => 1,
        }
    }
}
