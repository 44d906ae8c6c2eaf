//! A total under a lock, and the seats whose bytes it counts.
ghost use Rattle.std.specs.Prelude.{◌≡◌, ◌+◌, ◌-◌, ◌^◌, ◌≤◌, sum_by, vec_len, All, IfOk, nat_le, if◌then◌else◌};

use std::alloc::{AllocError, Global};
use std::sync::ledger::{Book, Ledger, Share};

/// The bytes that all seats hold.
#[derive(Drop)]
pub(crate) struct Total<L: Ledger> {
    pub(crate) bytes: u64,
    pub(crate) book: Book<L>,
    ghost counted: { bytes ≡ book.total },
}

/// A worker's seat at the tracker, and the bytes that it holds. It must be spent, by the tracker's `close`.
pub struct BytesSeat<L: Ledger> {
    held: u64,
    share: Share<L>,
    ghost one_part: { share.parts ≡ 1 },
    ghost holds: { share.amount ≡ held },
}

impl<L: Ledger> Total<L> {
    /// The seat holds so many bytes more, where the total then fits.
    pub(crate) fn reserve(&mut self, seat: &mut BytesSeat<L>, bytes: u64) -> bool
        ensures room { result ≡ nat_le (self.old.bytes + bytes) (2 ^ 64 - 1) }
        ensures held { seat.new.held ≡ (if result then seat.old.held + bytes else seat.old.held) }
        ensures total { self.new.bytes ≡ (if result then self.old.bytes + bytes else self.old.bytes) }
    {
        if !self.has_room(bytes) {
            return false;
        }
        self.book.audit(&mut seat.share);
        self.book.add(&mut seat.share, bytes);
        self.bytes += bytes;
        seat.held += bytes;
        true
    }

    fn has_room(&self, bytes: u64) -> bool
        ensures { result ≡ nat_le (self.now.bytes + bytes) (2 ^ 64 - 1) }
    {
        bytes <= u64::MAX - self.bytes
    }

    /// The seat holds so many bytes less.
    pub(crate) fn release(&mut self, seat: &mut BytesSeat<L>, bytes: u64)
        requires { bytes ≤ seat.old.held }
        ensures held { seat.new.held + bytes ≡ seat.old.held }
        ensures total { self.new.bytes + bytes ≡ self.old.bytes }
    {
        self.book.audit(&mut seat.share);
        self.book.sub(&mut seat.share, bytes);
        self.bytes -= bytes;
        seat.held -= bytes;
    }
}

impl<L: Ledger> BytesSeat<L> {
    /// How many bytes the seat holds.
    pub fn held(&self) -> u64
        ensures { result ≡ self.now.held }
    {
        self.held
    }

    fn into_share(self) -> Share<L>
        ensures { (result.parts ≡ 1) × (result.amount ≡ self.held) }
    {
        let BytesSeat { held: _, share } = self;
        share
    }
}

/// The shares of all seats together.
pub(crate) fn merged<L: Ledger>(first: BytesSeat<L>, seats: Vec<BytesSeat<L>>) -> Share<L>
    ensures parts { result.parts ≡ vec_len seats + 1 }
    ensures amount { result.amount ≡ sum_by (λ s. s.held) seats.items + first.held }
{
    let mut all = first.into_share();
    let mut seats = seats;
    while let Some(seat) = seats.pop() {
        all.merge(seat.into_share());
    }
    seats.destroy_empty();
    all
}

/// A seat for each part, which holds nothing.
pub(crate) fn bytes_seats<L: Ledger>(
    alloc: Global,
    all: Share<L>,
    count: usize,
) -> Result<Vec<BytesSeat<L>>, AllocError>
    requires { (all.parts ≡ count) × (all.amount ≡ 0) }
    ensures len { IfOk result (λ v. vec_len v ≡ count) }
    ensures none { IfOk result (λ v. All (λ s. s.held ≡ 0) v.items) }
{
    let mut all = all;
    let mut seats = Vec::with_capacity(alloc, count)?;
    for _k in 0..count {
        let share = all.split_off(1, 0);
        if let Err(failed) = seats.push(BytesSeat { held: 0, share }) {
            let _share = failed.value.into_share();
            unreachable!()
        }
    }
    Ok(seats)
}
