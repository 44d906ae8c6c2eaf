use vx_path::owned::Path;

/// What a task does in a step.
#[derive(Clone, Copy, Debug, PartialEq, Eq)]
pub enum ActionKind {
    Batch,
    End,
    Take,
    Put,
    Close,
    Call,
    Append,
    Join,
}

/// A step of a write: how many tasks were ready, which of them was picked, its name, and what it did.
#[derive(Debug, Drop)]
pub struct Step {
    pub ready: u64,
    pub picked: u64,
    pub task: Path,
    pub action: ActionKind,
}
