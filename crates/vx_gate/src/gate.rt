/// Is passed before each call of a column's compressor. One that waits keeps the runtime argument for it in a field of its own.
pub trait Gate {
    /// Comes before a call of the compressor of the column of this number.
    fn before(&self, column: u64);
}

/// Lets each call pass.
#[derive(Debug, Drop)]
pub struct NoGate;

impl Gate for NoGate {
    fn before(&self, _column: u64) {}
}
