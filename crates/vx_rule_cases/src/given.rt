//! What a case gives.

use serde_json::Value;
use vx_model::DType;

/// The batches of a case, and their type.
#[derive(Clone, Copy)]
pub(crate) struct Stream<'a> {
    pub(crate) name: &'a str,
    pub(crate) dtype: &'a DType,
    pub(crate) batches: &'a [Value],
}
