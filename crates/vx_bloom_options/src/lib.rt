//! The options of Bloom filters, and numbers of 32 bits as bytes.
#![tactic(auto)]

mod bytes;
mod options;

pub use bytes::{number_at, push_number};
pub use options::{BloomOptions, HashFn, OptionsError, UnknownHash};
