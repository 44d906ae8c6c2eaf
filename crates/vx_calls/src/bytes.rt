//! Bytes that two seats hold.

ghost use Rattle.std.specs.Prelude.{◌≡◌};

use std::alloc::Global;
use std::marker::Brand;
use std::panic::Expect;
use std::sync::Wait;
use std::sync::ledger::{Blank, Ledger};
use vx_shared::{SeatError, SharedBytesTracker};

/// Two seats reserve 16 and 32 bytes, and the first releases its own.
fn reserved<L: Ledger>(rt: &impl Wait, alloc: Global, blank: Blank) -> Result<u64, SeatError>
    requires { (blank.name ≡ L.name) × (blank.parts ≡ L.parts) × (L.parts ≡ 2) }
{
    let (tracker, mut seats) = SharedBytesTracker::<L>::new(alloc, 2, blank)?;
    tracker.reserve(rt, &mut seats[0], 16);
    tracker.reserve(rt, &mut seats[1], 32);
    tracker.release(rt, &mut seats[0], 16);
    Ok(tracker.close(seats))
}

#[test]
fn the_total_is_what_seats_hold(rt: HostRuntime) {
    let total = reserved::<Brand>(&rt, rt.alloc(), Blank::new(2)).expect(&rt, "memory");
    assert_eq!(rt; total, 32);
}
