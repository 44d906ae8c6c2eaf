//! Jobs of a struct of two columns, as the program reads them.

use std::alloc::Global;
use std::test::Fail;
use vx_job::{Job, read_job};

/// Two batches, each column chunk by chunk.
pub(crate) const PLAIN: &str =
    r#"{"schema":{"struct":[["a","i64"],["b","i64"]]},"strategy":{"struct":{"validity":"flat","default":{"chunked":"flat"},"fields":[]}},"batches":[{"struct":{"fields":[[1,2],[10,20]],"rows":2}},{"struct":{"fields":[[3],[30]],"rows":1}}]}"#;

/// The same, each chunk's image by the compressor.
pub(crate) const COMPRESSED: &str =
    r#"{"schema":{"struct":[["a","i64"],["b","i64"]]},"strategy":{"struct":{"validity":"flat","default":{"compress":{"child":{"chunked":"flat"},"which":0,"concurrency":1}},"fields":[]}},"batches":[{"struct":{"fields":[[1,2],[10,20]],"rows":2}},{"struct":{"fields":[[3],[30]],"rows":1}}]}"#;

pub(crate) fn job_of(alloc: Global, text: &str) -> Result<Job, Fail> {
    match read_job(alloc, text.as_bytes()) {
        Ok(job) => Ok(job),
        Err(_) => Err("a job".into()),
    }
}
