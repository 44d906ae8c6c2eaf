//! Several ids at once.

use std::panic::Expect;
use vx_order::{LocalOrder, Order, make_ids, split_off};
use vx_sequence::SequenceId;
use vx_sink::MemorySink;

#[test]
fn a_pointer_splits_off(rt: HostRuntime) {
    let (universe, mut pointer) = SequenceId::root(rt.alloc()).expect(&rt, "memory");
    let sink = MemorySink::new(0, Vec::new(rt.alloc()));
    let mut order = LocalOrder::new(sink, universe);
    let off = split_off(&mut order, &mut pointer).expect(&rt, "memory");
    assert_eq!(rt; off.path(), [0, 0].as_slice());
    assert_eq!(rt; pointer.path(), [1].as_slice());
    order.release(off.downgrade());
    order.release(pointer.downgrade());
    let _sink = order.into_sink();
}

#[test]
fn an_id_makes_ids(rt: HostRuntime) {
    let (universe, pointer) = SequenceId::root(rt.alloc()).expect(&rt, "memory");
    let sink = MemorySink::new(0, Vec::new(rt.alloc()));
    let mut order = LocalOrder::new(sink, universe);
    let mut ids = make_ids(rt.alloc(), &mut order, pointer.downgrade(), 1).expect(&rt, "memory");
    let id = ids.pop().expect(&rt, "an id");
    assert_eq!(rt; id.path(), [0, 0].as_slice());
    order.release(id);
    ids.destroy_empty();
    let _sink = order.into_sink();
}
