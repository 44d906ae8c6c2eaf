//! Sequence ids and pointers as values, and parts of universes.

use std::hash::{DefaultHasher, Hash, Hasher};
use std::panic::Expect;
use vx_sequence::SequenceId;

fn hash_of<T: Hash>(value: &T) -> u64 {
    let mut state = DefaultHasher::new();
    value.hash(&mut state);
    state.finish()
}

#[test]
fn ids_are_their_paths(rt: HostRuntime) {
    let (mut universe, pointer) = SequenceId::root(rt.alloc()).expect(&rt, "memory");
    let shown = format!(in rt.alloc(); "{pointer:?}").expect(&rt, "memory");
    assert!(rt; shown.as_str() == "[0]");
    let id = pointer.downgrade();
    let shown = format!(in rt.alloc(); "{id:?}").expect(&rt, "memory");
    assert!(rt; shown.as_str() == "[0]");
    assert!(rt; id == id && hash_of(&id) == hash_of(&id.path()));
    assert!(rt; universe.least().is_some());
    id.release(&mut universe);
    assert!(rt; universe.least().is_none());
}

#[test]
fn a_part_by_itself(rt: HostRuntime) {
    let (mut universe, pointer) = SequenceId::root(rt.alloc()).expect(&rt, "memory");
    let mut part = universe.part(&[], &pointer).expect(&rt, "memory");
    assert!(rt; universe.least().is_none());
    assert!(rt; part.least() == Some([0].as_slice()));
    pointer.downgrade().release(&mut part);
    assert!(rt; part.least().is_none());
}
