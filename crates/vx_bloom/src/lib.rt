//! Split block Bloom filters.
#![tactic(auto)]

mod block;
mod bytes;
mod filter;
mod partial;
mod scalar;
mod stored;

pub use filter::BloomFilter;
pub use partial::{BlockCount, BloomPartial, PartialError};
pub use scalar::{Unsupported, has_order};
pub use vx_bloom_options::{BloomOptions, HashFn, OptionsError, UnknownHash};
