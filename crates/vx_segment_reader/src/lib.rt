//! Reading a segment back: the tree of encodings, the buffers, and the chunk that they are.
#![tactic(auto)]

mod buffers;
mod error;
mod made;
mod node;
mod pieces;
mod rest;
mod segment;
mod simple;
mod tree;

pub use error::DecodeError;
pub use segment::{buffer_lengths, decode_segment, tree_buffer_lengths};
