//! Orders: segments are written in the order of their paths.

ghost use Rattle.std.specs.Prelude.{◌≡◌};
ghost use Rattle.vx_sequence.specs.Universe.{IsActive, released};

use std::panic::Expect;
use std::process::Abort;
use vx_order::{Attempt, LocalOrder, Order, OrderError};
use vx_sequence::SequenceId;
use vx_sink::{MemorySink, SegmentSink};

/// Writes the bytes, and tests the path and the number of the receipt.
fn written<O: Order>(
    rt: &impl Abort,
    order: &mut O,
    id: SequenceId,
    bytes: &[u8],
    path: &[u64],
    number: u32,
)
    requires active { IsActive (O.active order.old) id }
    requires allowed { O.may_write order.old id bytes.now }
    ensures { O.active order.new ≡ released (O.active order.old) id }
{
    match order.try_write(id, bytes) {
        Ok(Attempt::Written(receipt)) => {
            assert!(rt; receipt.path.as_slice() == path && receipt.number == number);
        }
        _ => panic!(rt; "not written"),
    }
}

/// Waits for the smaller path.
fn waits<O: Order>(
    rt: &impl Abort,
    order: &mut O,
    id: SequenceId,
    bytes: &[u8],
    path: &[u64],
) -> SequenceId
    requires active { IsActive (O.active order.old) id }
    requires allowed { O.may_write order.old id bytes.now }
    ensures id { result ≡ id }
    ensures active { O.active order.new ≡ O.active order.old }
{
    match order.try_write(id, bytes) {
        Ok(Attempt::Waiting { id, smaller }) => {
            assert!(rt; smaller.as_slice() == path);
            id
        }
        _ => panic!(rt; "doesn't wait"),
    }
}

fn refused<O: Order>(
    rt: &impl Abort,
    order: &mut O,
    id: SequenceId,
    bytes: &[u8],
) -> (SequenceId, OrderError)
    requires active { IsActive (O.active order.old) id }
    requires allowed { O.may_write order.old id bytes.now }
    ensures id { result.0 ≡ id }
    ensures active { O.active order.new ≡ O.active order.old }
{
    match order.try_write(id, bytes) {
        Err(refusal) => refusal,
        _ => panic!(rt; "not refused"),
    }
}

#[test]
fn the_smaller_path_goes_first(rt: HostRuntime) {
    let (mut universe, pointer) = SequenceId::root(rt.alloc()).expect(&rt, "memory");
    let (off, rest) = pointer.split(&mut universe).expect(&rt, "memory");
    let first = off.downgrade();
    let second = rest.downgrade();
    let mut sink = MemorySink::new(0, Vec::new(rt.alloc()));
    let mut order = LocalOrder::new(&mut sink, universe);

    assert!(rt; first < second && order.is_least(&first));
    let second = waits(&rt, &mut order, second, &[2], &[0, 0]);
    written(&rt, &mut order, first, &[1], &[0, 0], 0);
    written(&rt, &mut order, second, &[2], &[1], 1);

    let lent = order.into_sink();
    assert!(rt; lent.segments().len() == 2 && lent.next_id() == 2);
}

#[test]
fn refusals_hand_the_id_back(rt: HostRuntime) {
    let (universe, pointer) = SequenceId::root(rt.alloc()).expect(&rt, "memory");
    let sink = MemorySink::new(4_294_967_295, vec![in rt.alloc(); 0].expect(&rt, "memory"));
    let mut order = LocalOrder::new(sink, universe);

    let mut pointer = pointer;
    let id = order.advance(&mut pointer).expect(&rt, "memory");
    let (id, error) = refused(&rt, &mut order, id, &[7]);
    assert!(rt; matches!(error, OrderError::SinkFault));
    written(&rt, &mut order, id, &[7], &[0], 4_294_967_295);

    let below = order.descend(pointer.downgrade()).expect(&rt, "memory");
    let (id, error) = refused(&rt, &mut order, below.downgrade(), &[8]);
    assert!(rt; matches!(error, OrderError::TooLarge(4_294_967_296)));
    assert!(rt; id.path() == [1, 0].as_slice());
    order.release(id);
    assert!(rt; order.into_sink().segments().len() == 1);
}
