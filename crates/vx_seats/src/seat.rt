//! A column's seat at the sink.
ghost use Rattle.std.specs.Prelude.{◌≡◌, ◌*◌, ◌-◌, ◌^◌, ◌<◌};
ghost use Rattle.vx_seats.specs.History.{bit};

use crate::pairs::Pairs;
use std::alloc::AllocError;
use std::marker::PhantomData;
use std::sync::ledger::{Ledger, Share};
use thiserror::Error;
use vx_fault::Fallible;

/// Why a shared sink or a shared tracker wasn't made.
#[derive(Debug, Drop, Error)]
pub enum SeatError {
    #[error("out of memory")]
    OutOfMemory,
}

impl From<AllocError> for SeatError {
    ghost use Rattle.std.specs.Prelude.{◌≡◌};
    ghost use Rattle.vx_seats.specs.declared.seat.SeatError.TheVariants.{OutOfMemory};

    ghost from_gives = { λ _ e. e ≡ OutOfMemory };

    fn from(_error: AllocError) -> SeatError {
        SeatError::OutOfMemory
    }
}

/// A column's seat at the sink. It counts the column's writes, and whether the sink failed it, whether it made a stop,
/// and whether it saw one. It must be spent, by the sink's `close` or by `spend`.
pub struct Seat<W: Ledger, F: Ledger, M: Ledger, N: Ledger, P: Pairs> {
    pub(crate) column: usize,
    pub(crate) faulted: bool,
    pub(crate) stopped: bool,
    pub(crate) told: bool,
    pub(crate) writes: Share<W>,
    pub(crate) faults: Share<F>,
    pub(crate) made: Share<M>,
    pub(crate) seen: Share<N>,
    pub(crate) of: PhantomData<P>,
    ghost parts: { (writes.parts ≡ 1) × (faults.parts ≡ 1) × (made.parts ≡ 1) × (seen.parts ≡ 1) },
    ghost faults_is: { faults.amount ≡ bit faulted },
    ghost made_is: { made.amount ≡ bit stopped },
    ghost seen_is: { seen.amount ≡ bit told },
    ghost within: { column < P.columns },
}

/// What a seat tells of the sink's faults: none until the sink failed the seat, and then the greatest count.
impl<W: Ledger, F: Ledger, M: Ledger, N: Ledger, P: Pairs> Fallible for Seat<W, F, M, N, P> {
    ghost faults = { λ s. s.faults.amount * (2 ^ 64 - 1) };

    ghost may_fail = { λ _ _. Unit {0} };
}
