//! The bytes of layouts, both ways: a layout is spelled in a context, and bytes are read and built in a session.
#![tactic(auto)]

mod indexed;
mod parse;
mod permitted;
mod spell;

pub use parse::{layout_from_flatbuffer, layout_from_flatbuffer_with_options};
pub use spell::layout_bytes;
