//! Options of filters as bytes.

use crate::given::bytes;
use std::alloc::Global;
use vx_bloom::BloomOptions;
use vx_case_lines::Answer;

/// Of bytes.
pub(crate) fn tell(alloc: Global, answer: &mut Answer, given: &str) {
    let bytes = bytes(alloc, given);
    match BloomOptions::deserialize(&bytes) {
        Ok(options) => answer.push(options),
        Err(error) => answer.push_debug(error),
    }
    drop(bytes);
}

/// The bytes of those by default.
pub(crate) fn tell_default(alloc: Global, answer: &mut Answer) {
    match BloomOptions::default().serialize(alloc) {
        Ok(bytes) => {
            answer.push_hex(&bytes);
            drop(bytes);
        }
        Err(error) => answer.push(error),
    }
}
