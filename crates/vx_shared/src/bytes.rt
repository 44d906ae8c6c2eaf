//! Bytes that workers hold back, counted together.
ghost use Rattle.std.specs.Prelude.{◌≡◌, ◌+◌, ◌^◌, ◌<◌, ◌≤◌, sum_by, vec_len, All, IfOk};

use crate::total::{BytesSeat, Total, bytes_seats, merged};
use std::alloc::Global;
use std::sync::ledger::{Blank, Ledger};
use std::sync::{Condvar, Mutex, Wait};
use vx_seats::SeatError;

/// An exact total of the bytes that workers hold, over all of them.
pub struct SharedBytesTracker<L: Ledger> {
    total: Mutex<Total<L>>,
    freed: Condvar,
}

impl<L: Ledger> SharedBytesTracker<L> {
    /// A tracker, and all its seats, each of which holds nothing. The blank has as many parts as there are seats.
    pub fn new(
        alloc: Global,
        seats: usize,
        blank: Blank,
    ) -> Result<(Self, Vec<BytesSeat<L>>), SeatError>
        requires some { 0 < seats }
        requires blank { (blank.name ≡ L.name) × (blank.parts ≡ L.parts) × (L.parts ≡ seats) }
        ensures len { IfOk result (λ r. vec_len r.1 ≡ seats) }
        ensures none { IfOk result (λ r. All (λ s. s.held ≡ 0) r.1.items) }
    {
        let (book, all) = blank.open::<L>();
        let seats = bytes_seats(alloc, all, seats)?;
        let tracker = SharedBytesTracker {
            total: Mutex::new(Total { bytes: 0, book }),
            freed: Condvar::new(),
        };
        Ok((tracker, seats))
    }

    /// The seat holds so many bytes more. It waits while the total would pass u64.
    pub fn reserve<R: Wait>(&self, rt: &R, seat: &mut BytesSeat<L>, bytes: u64)
        requires { seat.old.held + bytes < 2 ^ 64 }
        ensures { seat.new.held ≡ seat.old.held + bytes }
    {
        let mut guard = self.total.lock(rt);
        for _ in rt.forever() {
            if guard.reserve(seat, bytes) {
                return;
            }
            guard = self.freed.wait(rt, guard);
        }
        unreachable!()
    }

    /// The seat holds so many bytes less. Then all that wait are woken.
    pub fn release<R: Wait>(&self, rt: &R, seat: &mut BytesSeat<L>, bytes: u64)
        requires { bytes ≤ seat.old.held }
        ensures { seat.new.held + bytes ≡ seat.old.held }
    {
        self.total.lock(rt).release(seat, bytes);
        self.freed.notify_all();
    }

    /// The total. The seats are spent.
    pub fn close(self, seats: Vec<BytesSeat<L>>) -> u64
        ensures all { 0 < vec_len seats → vec_len seats ≡ L.parts → result ≡ sum_by (λ s. s.held) seats.items }
        ensures some { sum_by (λ s. s.held) seats.items ≤ result }
    {
        let SharedBytesTracker {
            total,
            freed: _freed,
        } = self;
        let Total { bytes, mut book } = total.into_inner();
        let mut seats = seats;
        match seats.pop() {
            Some(first) => {
                let mut all = merged(first, seats);
                book.audit(&mut all);
            }
            None => seats.destroy_empty(),
        }
        bytes
    }
}
