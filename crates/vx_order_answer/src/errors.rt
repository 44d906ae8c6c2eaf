use thiserror::Error;

/// Why an order refused a call. After it nothing has changed but counts of faults and of stops.
#[derive(Debug, Drop, Error)]
pub enum OrderError {
    /// A number passes its bound: a segment's number u32, or a path's last index u64.
    #[error("the number {0} is too large")]
    TooLarge(u128),
    /// The sink failed; its count of faults says so.
    #[error("the sink failed")]
    SinkFault,
    #[error("out of memory")]
    OutOfMemory,
    /// Of a sink that others use too: this column's write was refused under this name, and the whole write ends.
    #[error("column {0} was refused: {1:?}")]
    Stopped(u64, WriteErrorName),
}

/// The name of a write's refusal.
#[derive(Clone, Copy, Debug, PartialEq, Eq)]
pub enum WriteErrorName {
    SourceFault,
    SinkFault,
    CompressFault,
    BatchType,
    NotStruct,
    DuplicateField,
    ManyChunks,
    EmptyList,
    ZoneCut,
    ForbiddenAggregate,
    ForbiddenEncoding,
    TooLarge,
    OutOfMemory,
}
