use vx_model::Value;

/// What is known of a statistic.
#[derive(Debug, Drop)]
pub enum Precision {
    /// The statistic itself.
    Exact(Value),
    /// A bound of it.
    Inexact(Value),
    Absent,
}
