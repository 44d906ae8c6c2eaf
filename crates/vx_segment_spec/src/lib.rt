//! How a segment's bytes are read: its tree of encodings, its buffers, and the chunk that they are. The functions here have
//! empty bodies; their contracts are laws.
#![tactic(auto)]

mod law;

pub use law::{segment_examples, segments_read_back};
