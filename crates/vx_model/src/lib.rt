//! The data that every crate of the writer speaks of: types, cells, row values, encodings, and the plain trees
//! and short definitions by which contracts see them.
#![tactic(auto)]

mod array_context;
mod blob;
mod cell;
mod display;
mod dtype;
mod encoding;
mod fit;
mod kinds;
mod ptype;
mod row_value;
mod segment;
mod text;
mod value_fit;

pub use array_context::{ArrayContext, ContextError};
pub use blob::Blob;
pub use cell::Cell;
pub use dtype::{DType, ExtDType, StructField, StructFields};
pub use encoding::EncodingId;
pub use fit::{fits, fits_one};
pub use ptype::{Nullability, PType};
pub use row_value::Value;
pub use segment::{IdTooLarge, SegmentId};
pub use text::{FieldName, Text};
pub use value_fit::is_row_value;
