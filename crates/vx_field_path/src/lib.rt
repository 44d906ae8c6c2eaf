//! Paths of field names, and masks that say which fields are meant.
#![tactic(auto)]

mod mask;
mod path;

pub use mask::FieldMask;
pub use path::FieldPath;
