//! What a case gives.

use std::alloc::Global;
use vx_case_lines::bytes_of;

/// None where the text is no bytes, as `-`.
pub(crate) fn bytes(alloc: Global, text: &str) -> Vec<u8> {
    bytes_of(alloc, text).unwrap_or(Vec::new(alloc))
}

/// 0 where the text is no such number.
pub(crate) fn count(text: &str) -> u32 {
    text.parse::<u32>().unwrap_or(0)
}
