ghost use Rattle.std.specs.Prelude.{◌≡◌, ◌<◌, ◌≤◌, ◌^◌, ℕ, IfErr, MatchResult};

use std::convert::TryFrom;
use std::default::Default;
use std::fmt;
use std::ops::Deref;
use thiserror::Error;

/// The number of a segment.
#[derive(Clone, Copy, Debug, PartialEq, Eq, Hash, PartialOrd, Ord)]
pub struct SegmentId(pub u32);

/// A number that is no segment's, since it is above the greatest u32.
#[derive(Debug, Drop, Error)]
#[error("{0} is no segment number")]
pub struct IdTooLarge(pub usize);

impl Default for SegmentId {
    ghost is_default = { λ id. id.0 ≡ 0 };

    fn default() -> SegmentId {
        SegmentId(0)
    }
}

impl From<u32> for SegmentId {
    ghost from_gives = { λ n id. id.0 ≡ n };

    fn from(number: u32) -> SegmentId {
        SegmentId(number)
    }
}

impl TryFrom<usize> for SegmentId {
    type Error = IdTooLarge;

    ghost try_from_gives = { λ n r. MatchResult r (λ id. id.0 ≡ n) (λ e. (2 ^ 32 ≤ n) × (e.0 ≡ n)) };

    fn try_from(number: usize) -> Result<SegmentId, IdTooLarge> {
        if number <= 4_294_967_295 {
            Ok(SegmentId(number as u32))
        } else {
            Err(IdTooLarge(number))
        }
    }
}

impl Deref for SegmentId {
    type Target = u32;

    ghost deref_gives = { λ id n. n ≡ id.0 };

    fn deref(&self) -> &u32 {
        &self.0
    }
}

impl fmt::Display for SegmentId {
    ghost use Rattle.std.specs.Prelude.{Some, ◌++◌, codes, decimal};

    ghost output = { λ id. Some (codes "SegmentId(" ++ decimal id.0 ++ codes ")") };

    fn fmt<W: fmt::Write>(&self, f: &mut fmt::Formatter<W>) -> fmt::Result {
        let number = self.0;
        write!(f, "SegmentId({number})")
    }
}
