//! The bytes of a segment: its buffers, its tree of encodings, and the tree's length.
#![tactic(auto)]

mod buffers;
mod encode;
mod error;
mod head;

pub use encode::encode_segment;
pub use error::EncodeError;
