//! From bytes to a value.

ghost use Rattle.serde_json.specs.View.{view};
ghost use Rattle.vx_job.specs.JobText.{json_of};
ghost use Rattle.vx_job.specs.JobView.{Gives};

use crate::error::{JobError, Key};
use serde_json::{Category, Value};
use std::alloc::Global;

/// The longest input, in bytes.
pub const LIMIT: usize = 67_108_864;

/// The JSON value that the bytes are.
#[tactic(auto, using(crate::proofs::JobSteps::json_rules))]
pub(crate) fn read_json(alloc: Global, bytes: &[u8]) -> Result<Value, JobError>
    ensures { Gives view result (json_of bytes.now) }
{
    if bytes.len() > LIMIT {
        return Err(JobError::Wrong(Key::Json));
    }
    let Ok(text) = str::from_utf8(bytes) else {
        return Err(JobError::Wrong(Key::Json));
    };
    match Value::from_str(alloc, text) {
        Ok(value) => Ok(value),
        Err(error) => match error.classify() {
            Category::Memory => Err(JobError::OutOfMemory),
            Category::Syntax | Category::Eof | Category::Data | Category::Io => Err(JobError::Wrong(
                Key::Json,
            )),
        },
    }
}
