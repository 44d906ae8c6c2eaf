use vx_path::owned::Path;

/// Which segment was written.
#[derive(Debug, Drop)]
pub struct Receipt {
    pub path: Path,
    /// The segment's number.
    pub number: u32,
}
