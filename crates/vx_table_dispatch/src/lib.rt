//! What a table stands for at a type.
#![tactic(auto)]

mod at_type;
mod leaves;
mod overrides;

pub use at_type::dispatch;
pub use leaves::{passes_on, settled};
