//! Chunks: rows of one type, in seven encodings.
#![tactic(auto)]

mod canon;
mod chunk;
mod concat;
mod copy;
mod elements;
mod error;
mod fields;
mod flags;
mod laws;
mod node;
mod owned;
mod reads;
mod rows;
mod sizes;
mod slice;
mod values;
mod whole;

pub use error::ChunkError;
pub use flags::flag_chunk;
pub use laws::{rows_follow_cells, sizes_add_up};
pub use node::{Chunk, Node};
pub use reads::all_sound;
