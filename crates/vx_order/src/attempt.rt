//! What a try to write answers.
use vx_order_answer::Receipt;
use vx_path::owned::Path;
use vx_sequence::SequenceId;

/// What a try to write answers.
pub enum Attempt {
    /// The bytes are appended, and the id is given up.
    Written(Receipt),
    /// Another active path is smaller; this is the least one, and the id is handed back.
    Waiting { id: SequenceId, smaller: Path },
}
