use vx_order_answer::Receipt;
use vx_path::owned::Path;

/// What a try to write answers.
#[derive(Debug, Drop)]
pub enum Turn {
    /// The bytes are appended.
    Written(Receipt),
    /// The path waits for this one: the least front of another column, or else the last path that was written.
    Waiting(Path),
}
