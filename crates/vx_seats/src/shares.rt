//! The shares of several seats together.
ghost use Rattle.std.specs.Prelude.{◌≡◌, ◌+◌, sum_by, vec_len};

use crate::pairs::Pairs;
use crate::seat::Seat;
use std::sync::ledger::{Ledger, Share};

/// A share of each ledger of a sink.
#[derive(Drop)]
pub(crate) struct Shares<W: Ledger, F: Ledger, M: Ledger, N: Ledger> {
    pub(crate) writes: Share<W>,
    pub(crate) faults: Share<F>,
    pub(crate) made: Share<M>,
    pub(crate) seen: Share<N>,
}

impl<W: Ledger, F: Ledger, M: Ledger, N: Ledger> Shares<W, F, M, N> {
    /// Those of a seat, which is given up.
    pub(crate) fn of<P: Pairs>(seat: Seat<W, F, M, N, P>) -> Self
        ensures parts { (result.writes.parts ≡ 1) × (result.faults.parts ≡ 1) × (result.made.parts ≡ 1) × (result.seen.parts ≡ 1) }
        ensures amounts { (result.writes.amount ≡ seat.writes.amount) × (result.faults.amount ≡ seat.faults.amount) × (result.made.amount ≡ seat.made.amount)
            × (result.seen.amount ≡ seat.seen.amount) }
    {
        let Seat {
            column: _,
            faulted: _,
            stopped: _,
            told: _,
            writes,
            faults,
            made,
            seen,
            of: _,
        } = seat;
        Shares {
            writes,
            faults,
            made,
            seen,
        }
    }

    fn merge(&mut self, other: Self)
        ensures writes { (self.new.writes.parts ≡ self.old.writes.parts + other.writes.parts) × (self.new.writes.amount ≡ self.old.writes.amount + other.writes.amount) }
        ensures faults { (self.new.faults.parts ≡ self.old.faults.parts + other.faults.parts) × (self.new.faults.amount ≡ self.old.faults.amount + other.faults.amount) }
        ensures made { (self.new.made.parts ≡ self.old.made.parts + other.made.parts) × (self.new.made.amount ≡ self.old.made.amount + other.made.amount) }
        ensures seen { (self.new.seen.parts ≡ self.old.seen.parts + other.seen.parts) × (self.new.seen.amount ≡ self.old.seen.amount + other.seen.amount) }
    {
        let Shares {
            writes,
            faults,
            made,
            seen,
        } = other;
        self.writes.merge(writes);
        self.faults.merge(faults);
        self.made.merge(made);
        self.seen.merge(seen);
    }

    /// Those of all seats, in any order.
    pub(crate) fn all<P: Pairs>(first: Seat<W, F, M, N, P>, seats: Vec<Seat<W, F, M, N, P>>) -> Self
        ensures parts { (result.writes.parts ≡ vec_len seats + 1) × (result.faults.parts ≡ vec_len seats + 1) × (result.made.parts ≡ vec_len seats + 1)
            × (result.seen.parts ≡ vec_len seats + 1) }
        ensures writes { result.writes.amount ≡ sum_by (λ s. s.writes.amount) seats.items + first.writes.amount }
        ensures faults { result.faults.amount ≡ sum_by (λ s. s.faults.amount) seats.items + first.faults.amount }
        ensures made { result.made.amount ≡ sum_by (λ s. s.made.amount) seats.items + first.made.amount }
        ensures seen { result.seen.amount ≡ sum_by (λ s. s.seen.amount) seats.items + first.seen.amount }
    {
        let mut shares = Shares::of(first);
        let mut seats = seats;
        while let Some(seat) = seats.pop() {
            shares.merge(Shares::of(seat));
        }
        seats.destroy_empty();
        shares
    }
}

impl<W: Ledger, F: Ledger, M: Ledger, N: Ledger, P: Pairs> Seat<W, F, M, N, P> {
    /// Gives the seat up. What it counted is then missing where its sink is closed.
    pub fn spend(self) {
        let _shares = Shares::of(self);
    }
}
