//! Fields at the front of bytes: each with the bytes behind it, and with its place.
#![tactic(auto)]

mod fields;

pub use fields::{flag_at, front_at, place_of, u8_at, u16_at, u32_at, u64_at};
