use std::alloc::{AllocError, AllocFailed};
use std::fmt;
use thiserror::Error;
use vx_chunk::Chunk;
use vx_model::{EncodingId, FieldName, Text};
use vx_order_answer::{OrderError, WriteErrorName};
use vx_segment_writer::EncodeError;
use vx_sink::{SinkError, SourceError};
use vx_split::SplitError;

/// Why a write was refused.
#[derive(Error)]
pub enum WriteError {
    /// The source failed; its count of faults says so.
    #[error("the source failed")]
    SourceFault,
    /// The sink failed; its count of faults says so.
    #[error("the sink failed")]
    SinkFault,
    /// The compressor failed; its count of faults says so.
    #[error("the compressor failed")]
    CompressFault,
    /// The last batch taken, which isn't of the schema.
    #[error("a batch is not of the schema")]
    BatchType(Chunk),
    /// A struct node has another type.
    #[error("a struct node has another type")]
    NotStruct,
    /// Two columns have this name.
    #[error("a field is there twice")]
    DuplicateField(FieldName),
    /// A flat node was handed a second chunk.
    #[error("a flat node was handed a second chunk")]
    ManyChunks,
    /// A list node's stream ended without a chunk.
    #[error("a list node was handed no chunk")]
    EmptyList,
    /// A zoned node was handed a chunk of so many rows.
    #[error("a chunk of {0} rows is no zone")]
    ZoneCut(u64),
    /// The id of an aggregate that isn't allowed.
    #[error("an aggregate is not allowed")]
    ForbiddenAggregate(Text),
    /// A stored chunk's first encoding in pre-order that isn't listed.
    #[error("{0:?} is not in the array context")]
    ForbiddenEncoding(EncodingId),
    /// A segment's number passes u32, or a count of rows, a path's last index or a count of elements passes u64: this number.
    #[error("{0} is too large")]
    TooLarge(u128),
    #[error("out of memory")]
    OutOfMemory,
    /// Of a column that is written beside others: this one was refused under this name, and the whole write ends.
    #[error("column {0} was refused: {1:?}")]
    Stopped(u64, WriteErrorName),
}

// Written out, so that whoever drops one makes a call, and no proof goes through its causes again.
impl Drop for WriteError {
    fn drop(self) {
        match self {
            WriteError::BatchType(chunk) => drop(chunk),
            WriteError::DuplicateField(name) => drop(name),
            WriteError::ForbiddenAggregate(id) => drop(id),
            WriteError::ForbiddenEncoding(id) => drop(id),
            WriteError::SourceFault
            | WriteError::SinkFault
            | WriteError::CompressFault
            | WriteError::NotStruct
            | WriteError::ManyChunks
            | WriteError::EmptyList
            | WriteError::ZoneCut(_)
            | WriteError::TooLarge(_)
            | WriteError::OutOfMemory
            | WriteError::Stopped(_, _) => {}
        }
    }
}

impl fmt::Debug for WriteError {
    ghost use Rattle.std.specs.Prelude.{None};

    ghost debug_output = { λ e. None };

    /// The text.
    fn fmt<W: fmt::Write>(&self, f: &mut fmt::Formatter<W>) -> fmt::Result {
        fmt::Display::fmt(self, f)
    }
}

impl From<AllocError> for WriteError {
    ghost use Rattle.std.specs.Prelude.{◌≡◌};
    ghost use Rattle.vx_write_answer.specs.declared.error.WriteError.TheVariants.{OutOfMemory};

    ghost from_gives = { λ _ e. e ≡ OutOfMemory };

    fn from(_error: AllocError) -> WriteError {
        WriteError::OutOfMemory
    }
}

impl<T: Drop> From<AllocFailed<T>> for WriteError {
    ghost use Rattle.std.specs.Prelude.{◌≡◌};
    ghost use Rattle.vx_write_answer.specs.declared.error.WriteError.TheVariants.{OutOfMemory};

    ghost from_gives = { λ _ e. e ≡ OutOfMemory };

    fn from(_error: AllocFailed<T>) -> WriteError {
        WriteError::OutOfMemory
    }
}

impl From<SourceError> for WriteError {
    ghost use Rattle.std.specs.Prelude.{◌≡◌};
    ghost use Rattle.vx_write_answer.specs.Causes.{of_source};

    ghost from_gives = { λ s e. e ≡ of_source s };

    fn from(error: SourceError) -> WriteError {
        match error {
            SourceError::Failed => WriteError::SourceFault,
            SourceError::OutOfMemory => WriteError::OutOfMemory,
        }
    }
}

impl From<SinkError> for WriteError {
    ghost use Rattle.std.specs.Prelude.{◌≡◌};
    ghost use Rattle.vx_write_answer.specs.Causes.{of_sink};

    ghost from_gives = { λ s e. e ≡ of_sink s };

    fn from(error: SinkError) -> WriteError {
        match error {
            SinkError::Failed => WriteError::SinkFault,
            SinkError::OutOfMemory => WriteError::OutOfMemory,
        }
    }
}

impl From<EncodeError> for WriteError {
    ghost use Rattle.std.specs.Prelude.{◌≡◌};
    ghost use Rattle.vx_write_answer.specs.Causes.{of_encode};

    ghost from_gives = { λ s e. e ≡ of_encode s };

    fn from(error: EncodeError) -> WriteError {
        match error {
            EncodeError::EncodingNotListed(id) => WriteError::ForbiddenEncoding(id),
            EncodeError::OutOfMemory => WriteError::OutOfMemory,
        }
    }
}

impl From<OrderError> for WriteError {
    ghost use Rattle.std.specs.Prelude.{◌≡◌};
    ghost use Rattle.vx_write_answer.specs.Causes.{of_order};

    ghost from_gives = { λ s e. e ≡ of_order s };

    fn from(error: OrderError) -> WriteError {
        match error {
            OrderError::TooLarge(n) => WriteError::TooLarge(n),
            OrderError::SinkFault => WriteError::SinkFault,
            OrderError::OutOfMemory => WriteError::OutOfMemory,
            OrderError::Stopped(column, name) => WriteError::Stopped(column, name),
        }
    }
}

impl From<SplitError> for WriteError {
    ghost use Rattle.std.specs.Prelude.{◌≡◌};
    ghost use Rattle.vx_write_answer.specs.Causes.{of_split};

    ghost from_gives = { λ s e. e ≡ of_split s };

    fn from(error: SplitError) -> WriteError {
        match error {
            SplitError::NotStruct => WriteError::NotStruct,
            SplitError::DuplicateField(name) => WriteError::DuplicateField(name),
            SplitError::TooLarge(n) => WriteError::TooLarge(n),
            SplitError::OutOfMemory => WriteError::OutOfMemory,
        }
    }
}
