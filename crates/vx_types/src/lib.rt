//! Types, cells, chunks and the segments that chunks are written as: the names that callers use.
#![tactic(auto)]

pub use vx_chunk::{Chunk, ChunkError};
pub use vx_chunk_cells::has_storage;
pub use vx_model::{
    ArrayContext, Blob, Cell, ContextError, DType, EncodingId, ExtDType, FieldName, IdTooLarge,
    Nullability, PType, SegmentId, StructField, StructFields, Text, Value,
};
pub use vx_path::owned::Path;
pub use vx_segment_writer::{EncodeError, encode_segment};

/// Tests of what the constructors of chunks ask.
pub mod conditions {
    pub use vx_chunk_conditions::{
        are_codes, are_of_type, are_parts, has_fields, has_type, makes_dict, makes_list,
        makes_struct, match_fields,
    };
}
