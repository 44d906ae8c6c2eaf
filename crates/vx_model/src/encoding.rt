ghost use Rattle.std.specs.Prelude.{◌≡◌, ◌≢◌, IfNone, IfSome};
ghost use Rattle.vx_model.specs.declared.encoding.EncodingId.{EncodingId};
ghost use Rattle.vx_model.specs.Numbers.{encoding_id, encoding_number};

/// How a chunk's rows are held.
#[derive(Clone, Copy, Debug, PartialEq, Eq)]
pub enum EncodingId {
    Plain,
    Constant,
    Dict,
    Chunked,
    List,
    Struct,
    Extension,
}

impl EncodingId {
    /// The encodings in their default order.
    pub const ALL: [EncodingId; 7] = [
        EncodingId::Plain,
        EncodingId::Constant,
        EncodingId::Dict,
        EncodingId::Chunked,
        EncodingId::List,
        EncodingId::Struct,
        EncodingId::Extension,
    ];

    /// The place of the encoding in the default order.
    pub fn number(self) -> u8
        ensures { result ≡ encoding_number self }
    {
        match self {
            EncodingId::Plain => 0,
            EncodingId::Constant => 1,
            EncodingId::Dict => 2,
            EncodingId::Chunked => 3,
            EncodingId::List => 4,
            EncodingId::Struct => 5,
            EncodingId::Extension => 6,
        }
    }

    /// The name of the encoding in jobs and reports.
    pub fn id(self) -> &'static str
        ensures { result.now ≡ encoding_id self }
    {
        match self {
            EncodingId::Plain => "vx.plain",
            EncodingId::Constant => "vx.constant",
            EncodingId::Dict => "vx.dict",
            EncodingId::Chunked => "vx.chunked",
            EncodingId::List => "vx.list",
            EncodingId::Struct => "vx.struct",
            EncodingId::Extension => "vx.ext",
        }
    }

    /// The encoding of that name.
    pub fn from_id(id: &str) -> Option<EncodingId>
        ensures found { IfSome result (λ e. encoding_id e ≡ id.now) }
        ensures none { IfNone result ((e : EncodingId) → encoding_id e ≢ id.now) }
    {
        match id {
            "vx.plain" => Some(EncodingId::Plain),
            "vx.constant" => Some(EncodingId::Constant),
            "vx.dict" => Some(EncodingId::Dict),
            "vx.chunked" => Some(EncodingId::Chunked),
            "vx.list" => Some(EncodingId::List),
            "vx.struct" => Some(EncodingId::Struct),
            "vx.ext" => Some(EncodingId::Extension),
            _ => None,
        }
    }
}
