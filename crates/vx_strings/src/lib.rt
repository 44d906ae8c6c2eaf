//! Columns of texts and of bytes, which stand for cells. A part of a column shares its memory.
#![tactic(auto)]

mod joined;
mod kind;
mod read;
mod strings;
mod written;

pub use kind::StringKind;
pub use read::push_string;
pub use strings::Strings;
