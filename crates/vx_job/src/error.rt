ghost use Rattle.std.specs.Prelude.{◌≡◌};
ghost use Rattle.vx_job.specs.Refusals.{at_key};

use std::alloc::AllocError;
use thiserror::Error;
use vx_json::JsonError;

/// A place in a job.
#[derive(Clone, Copy, Debug, PartialEq, Eq)]
pub enum Key {
    /// The bytes: too long, no UTF-8, or no JSON of at most 127 nested levels.
    Json,
    /// The value: no object, or one with another key.
    Job,
    Schema,
    Strategy,
    Batches,
    Schedule,
    Encodings,
    Aggregates,
    Marked,
    Next,
    Faults,
    Dtype,
    Bytes,
    Layouts,
    Registered,
    AllowUnknown,
    Depth,
    Nodes,
}

impl Key {
    ghost use Rattle.std.specs.Prelude.{◌≡◌};
    ghost use Rattle.vx_job.specs.KeyNames.{key_name};

    /// The name of the place in reports.
    pub fn name(self) -> &'static str
        ensures { result.now ≡ key_name self }
    {
        match self {
            Key::Json => "json",
            Key::Job => "job",
            Key::Schema => "schema",
            Key::Strategy => "strategy",
            Key::Batches => "batches",
            Key::Schedule => "schedule",
            Key::Encodings => "encodings",
            Key::Aggregates => "aggregates",
            Key::Marked => "marked",
            Key::Next => "next",
            Key::Faults => "faults",
            Key::Dtype => "dtype",
            Key::Bytes => "bytes",
            Key::Layouts => "layouts",
            Key::Registered => "registered",
            Key::AllowUnknown => "allow_unknown",
            Key::Depth => "depth",
            Key::Nodes => "nodes",
        }
    }
}

/// Why bytes are no job.
#[derive(Debug, Drop, Error)]
pub enum JobError {
    /// The first place that is missing or wrong.
    #[error("the job is wrong at {0:?}")]
    Wrong(Key),
    #[error("out of memory")]
    OutOfMemory,
}

impl From<AllocError> for JobError {
    ghost use Rattle.std.specs.Prelude.{◌≡◌};
    ghost use Rattle.vx_job.specs.declared.error.JobError.TheVariants.{OutOfMemory};

    ghost from_gives = { λ _ e. e ≡ OutOfMemory };

    fn from(_error: AllocError) -> JobError {
        JobError::OutOfMemory
    }
}

/// What was read at the key.
pub(crate) fn at<T>(key: Key, read: Result<T, JsonError>) -> Result<T, JobError>
    ensures { result ≡ at_key key read }
{
    match read {
        Ok(value) => Ok(value),
        Err(JsonError::Wrong) => Err(JobError::Wrong(key)),
        Err(JsonError::OutOfMemory) => Err(JobError::OutOfMemory),
    }
}
