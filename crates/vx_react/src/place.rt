/// Where an output of a rule goes.
#[derive(Clone, Copy, Debug, PartialEq, Eq)]
pub enum Place {
    /// The only child.
    Child,
    /// The column of this number.
    Column(u64),
    /// The codes of the run of this number.
    Codes(u64),
    /// The values of the run of this number.
    Values(u64),
}
