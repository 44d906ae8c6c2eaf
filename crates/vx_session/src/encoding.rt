use std::fmt;

/// A kind of layout that is known, and can be built from bytes.
#[derive(Clone, Copy, Debug, PartialEq, Eq)]
pub enum LayoutEncoding {
    Flat,
    Chunked,
    Struct,
    List,
    Dict,
    Zoned,
    LegacyStats,
}

/// The name of `LayoutEncoding` where kinds are registered.
pub type LayoutVTablePlugin = LayoutEncoding;

/// The name of `LayoutEncoding` where layouts tell their kind.
pub type LayoutVTableRef = LayoutEncoding;

/// The name of `LayoutEncoding` where it is handed on.
pub type LayoutEncodingRef = LayoutEncoding;

impl LayoutEncoding {
    ghost use Rattle.std.specs.Prelude.{◌≡◌, ◌↔◌, IsTrue};
    ghost use Rattle.vx_session.specs.Encodings.{layout_id, is_flat};

    /// The kinds in their default order.
    pub const ALL: [LayoutEncoding; 7] = [
        LayoutEncoding::Flat,
        LayoutEncoding::Chunked,
        LayoutEncoding::Struct,
        LayoutEncoding::List,
        LayoutEncoding::Dict,
        LayoutEncoding::Zoned,
        LayoutEncoding::LegacyStats,
    ];

    /// The name that contexts list.
    pub fn id(self) -> &'static str
        ensures { result.now ≡ layout_id self }
    {
        match self {
            LayoutEncoding::Flat => "vortex.flat",
            LayoutEncoding::Chunked => "vortex.chunked",
            LayoutEncoding::Struct => "vortex.struct",
            LayoutEncoding::List => "vortex.list",
            LayoutEncoding::Dict => "vortex.dict",
            LayoutEncoding::Zoned => "vortex.zoned",
            LayoutEncoding::LegacyStats => "vortex.stats",
        }
    }

    /// Whether readers may not split the rows of such a layout.
    pub fn is_indivisible(self) -> bool
        ensures { result ≡ is_flat self }
    {
        match self {
            LayoutEncoding::Flat => true,
            LayoutEncoding::Chunked | LayoutEncoding::Struct | LayoutEncoding::List => false,
            LayoutEncoding::Dict | LayoutEncoding::Zoned | LayoutEncoding::LegacyStats => false,
        }
    }

    /// Whether it is the kind.
    pub fn is(self, kind: LayoutEncoding) -> bool
        ensures { IsTrue result ↔ (self ≡ kind) }
    {
        self == kind
    }
}

impl fmt::Display for LayoutEncoding {
    ghost use Rattle.std.specs.Prelude.{Some};
    ghost use Rattle.vx_session.specs.Encodings.{layout_id};

    ghost output = { λ k. Some (layout_id k) };

    fn fmt<W: fmt::Write>(&self, f: &mut fmt::Formatter<W>) -> fmt::Result {
        write!(f, "{}", self.id())
    }
}
