use std::alloc::{AllocError, AllocFailed};
use thiserror::Error;
use vx_layout_tree::LayoutError;
use vx_model::Text;

/// Why a layout gives no rows: the first fault in pre-order of its nodes.
#[derive(Debug, Drop, Error)]
pub enum ReadError {
    /// The kind of this id isn't known.
    #[error("a layout is of an unknown kind")]
    Foreign(Text),
    /// The segment of this number is missing.
    #[error("there is no segment {0}")]
    NoSegment(u32),
    /// The segment of this number doesn't decode at the layout's type.
    #[error("segment {0} does not decode")]
    BadSegment(u32),
    /// A segment or a child has so many rows, and must have others; so many values, and a code that is no place of
    /// them; so many elements, and an offset past them; an offset, 0 before the first, and a lesser one behind it. Null
    /// is -1 there.
    #[error("there are {has} rows and not {needs}")]
    Rows { has: u64, needs: i128 },
    /// A node can't be built.
    #[error("a layout can't be built: {0}")]
    Layout(LayoutError),
    #[error("out of memory")]
    OutOfMemory,
}

impl From<AllocError> for ReadError {
    ghost use Rattle.std.specs.Prelude.{◌≡◌};
    ghost use Rattle.vx_segment_map.specs.declared.error.ReadError.TheVariants.{OutOfMemory};

    ghost from_gives = { λ _ e. e ≡ OutOfMemory };

    fn from(_error: AllocError) -> ReadError {
        ReadError::OutOfMemory
    }
}

impl<T: Drop> From<AllocFailed<T>> for ReadError {
    ghost use Rattle.std.specs.Prelude.{◌≡◌};
    ghost use Rattle.vx_segment_map.specs.declared.error.ReadError.TheVariants.{OutOfMemory};

    ghost from_gives = { λ _ e. e ≡ OutOfMemory };

    fn from(_error: AllocFailed<T>) -> ReadError {
        ReadError::OutOfMemory
    }
}

impl From<LayoutError> for ReadError {
    ghost use Rattle.std.specs.Prelude.{◌≡◌};
    ghost use Rattle.vx_segment_map.specs.Errors.{read_error};

    ghost from_gives = { λ refusal e. e ≡ read_error refusal };

    fn from(refusal: LayoutError) -> ReadError {
        match refusal {
            LayoutError::OutOfMemory => ReadError::OutOfMemory,
            refusal => ReadError::Layout(refusal),
        }
    }
}
