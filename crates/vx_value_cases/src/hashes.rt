//! The hash of filters.

use crate::given::count;
use std::alloc::{AllocError, Global};
use vx_case_lines::Answer;
use vx_hash::{ByteHash, XxHash3_64};

/// So many bytes, of which byte i is (37 i + 11) mod 256.
fn bytes_of_length(alloc: Global, length: u32) -> Result<Vec<u8>, AllocError> {
    let mut bytes = Vec::new(alloc);
    let mut byte = 11u8;
    for _ in 0..length {
        bytes.push(byte)?;
        byte = byte.wrapping_add(37);
    }
    Ok(bytes)
}

pub(crate) fn tell(alloc: Global, answer: &mut Answer, given: &str) {
    match bytes_of_length(alloc, count(given)) {
        Ok(bytes) => {
            let hash = XxHash3_64::oneshot(&bytes);
            drop(bytes);
            answer.push_hex(&hash.to_be_bytes());
        }
        Err(error) => answer.push(error),
    }
}
