/// The kinds of layouts.
#[derive(Clone, Copy, Debug, PartialEq, Eq)]
pub enum LayoutKind {
    Flat,
    Chunked,
    Struct,
    List,
    Dict,
    Zoned,
    LegacyStats,
    Foreign,
}
