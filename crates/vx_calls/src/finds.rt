//! Places of paths.

ghost use Rattle.std.specs.Prelude.{◌≡◌};

use std::marker::Brand;
use std::panic::Expect;
use std::process::Abort;
use std::sync::ledger::{Blank, Ledger};
use vx_sequence::{SequenceId, Steps, Universe};

/// Looks for four paths where `[0, 0]`, `[0, 1]` and `[1]` are active.
fn places<L: Ledger>(rt: &impl Abort, universe: &Universe, blank: Blank)
    requires name { blank.name ≡ L.name }
    requires parts { blank.parts ≡ L.parts }
    requires some { L.parts ≡ 1 }
{
    let mut steps = Steps::<L>::new(blank);
    assert!(rt; matches!(universe.find(&[0, 1], &mut steps), Ok(1)));
    assert!(rt; matches!(universe.find(&[0, 5], &mut steps), Err(2)));
    assert!(rt; matches!(universe.find(&[2], &mut steps), Err(3)));
    assert!(rt; matches!(universe.find(&[0], &mut steps), Err(0)));
}

#[test]
fn paths_are_found(rt: HostRuntime) {
    let (mut universe, mut rest) = SequenceId::root(rt.alloc()).expect(&rt, "memory");
    let mut first = rest.split_off(&mut universe).expect(&rt, "memory");
    let id = first.advance(&mut universe).expect(&rt, "memory");
    places::<Brand>(&rt, &universe, Blank::new(1));
    id.release(&mut universe);
    first.downgrade().release(&mut universe);
    rest.downgrade().release(&mut universe);
}
