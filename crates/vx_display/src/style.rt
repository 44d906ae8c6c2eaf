use std::alloc::{AllocError, Global};
use vx_segment_map::SegmentMap;

/// How a tree is shown.
#[derive(Clone, Copy)]
pub(crate) struct Style<'a> {
    pub(crate) alloc: Global,
    pub(crate) verbose: bool,
    /// The segments, where they are handed in.
    pub(crate) segments: Option<&'a SegmentMap>,
}

/// Why a text isn't finished.
#[derive(Drop)]
pub(crate) enum Stop {
    /// The segment of this number is missing.
    NoSegment(u32),
    /// The bytes of this number are no segment.
    BadSegment(u32),
    /// A node can't be built.
    Refused,
    OutOfMemory,
}

impl From<AllocError> for Stop {
    ghost use Rattle.std.specs.Prelude.{◌≡◌};
    ghost use Rattle.vx_display.specs.declared.style.Stop.TheVariants.{OutOfMemory};

    ghost from_gives = { λ _ e. e ≡ OutOfMemory };

    fn from(_error: AllocError) -> Stop {
        Stop::OutOfMemory
    }
}
