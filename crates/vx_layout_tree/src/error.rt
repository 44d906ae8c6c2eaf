use std::alloc::{AllocError, AllocFailed};
use std::fmt;
use thiserror::Error;
use vx_model::{Blob, DType, FieldName, Text};

/// Why there is no layout: of parts, of bytes, or in a context. Places count bytes from 0.
#[derive(Drop, Error)]
pub enum LayoutError {
    /// The bytes are no node from here on.
    #[error("no layout at byte {0}")]
    Grammar(u64),
    /// The node that starts here is deeper than the limit.
    #[error("too deep at byte {0}")]
    TooDeep(u64),
    /// The node that starts here is one more than the limit.
    #[error("too many nodes at byte {0}")]
    TooManyNodes(u64),
    /// No id stands at this place of the context.
    #[error("no id has the index {0}")]
    UnknownIndex(u16),
    /// The session doesn't know the kind of this id.
    #[error("a kind is not registered")]
    Unregistered(Text),
    /// The context doesn't list this id.
    #[error("a kind is not permitted")]
    NotPermitted(Text),
    #[error("there are {has} children and not {needs}")]
    ChildCount { has: u64, needs: u64 },
    #[error("a child has another type than it must have")]
    ChildType { has: DType, needs: DType },
    /// The rows that there are aren't those that there must be.
    #[error("there are {has} rows and not {needs}")]
    RowCount { has: u128, needs: u128 },
    /// A flat layout has one segment.
    #[error("there are {0} segments and not one")]
    SegmentCount(u64),
    /// Bytes that no metadata of the kind has.
    #[error("the metadata is wrong")]
    Metadata(Blob),
    /// The id of an aggregate that isn't known, or whose options none has.
    #[error("an aggregate is not known")]
    UnknownAggregate(Text),
    #[error("there is no child {index} of {children}")]
    SlotRange { index: u64, children: u64 },
    /// The struct has no field of this name.
    #[error("a field is not found")]
    FieldNotFound(FieldName),
    #[error("the type is no list")]
    NotAList,
    #[error("the type is no struct")]
    NotAStruct,
    #[error("out of memory")]
    OutOfMemory,
}

impl LayoutError {
    ghost use Rattle.std.specs.Prelude.{◌≡◌};
    ghost use Rattle.vx_layout_tree.specs.ErrorNames.{error_name};

    /// The name of the variant.
    pub fn name(&self) -> &'static str
        ensures { result.now ≡ error_name self.now }
    {
        match self {
            LayoutError::Grammar(_) => "Grammar",
            LayoutError::TooDeep(_) => "TooDeep",
            LayoutError::TooManyNodes(_) => "TooManyNodes",
            LayoutError::UnknownIndex(_) => "UnknownIndex",
            LayoutError::Unregistered(_) => "Unregistered",
            LayoutError::NotPermitted(_) => "NotPermitted",
            LayoutError::ChildCount { .. } => "ChildCount",
            LayoutError::ChildType { .. } => "ChildType",
            LayoutError::RowCount { .. } => "RowCount",
            LayoutError::SegmentCount(_) => "SegmentCount",
            LayoutError::Metadata(_) => "Metadata",
            LayoutError::UnknownAggregate(_) => "UnknownAggregate",
            LayoutError::SlotRange { .. } => "SlotRange",
            LayoutError::FieldNotFound(_) => "FieldNotFound",
            LayoutError::NotAList => "NotAList",
            LayoutError::NotAStruct => "NotAStruct",
            LayoutError::OutOfMemory => "OutOfMemory",
        }
    }
}

impl fmt::Debug for LayoutError {
    ghost use Rattle.std.specs.Prelude.{None};

    ghost debug_output = { λ e. None };

    /// The text.
    fn fmt<W: fmt::Write>(&self, f: &mut fmt::Formatter<W>) -> fmt::Result {
        fmt::Display::fmt(self, f)
    }
}

impl From<AllocError> for LayoutError {
    ghost use Rattle.std.specs.Prelude.{◌≡◌};
    ghost use Rattle.vx_layout_tree.specs.declared.error.LayoutError.TheVariants.{OutOfMemory};

    ghost from_gives = { λ _ e. e ≡ OutOfMemory };

    fn from(_error: AllocError) -> LayoutError {
        LayoutError::OutOfMemory
    }
}

impl<T: Drop> From<AllocFailed<T>> for LayoutError {
    ghost use Rattle.std.specs.Prelude.{◌≡◌};
    ghost use Rattle.vx_layout_tree.specs.declared.error.LayoutError.TheVariants.{OutOfMemory};

    ghost from_gives = { λ _ e. e ≡ OutOfMemory };

    fn from(_error: AllocFailed<T>) -> LayoutError {
        LayoutError::OutOfMemory
    }
}
