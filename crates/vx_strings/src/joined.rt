//! Strings behind others.

ghost use Rattle.std.specs.Prelude.{◌≡◌, ◌++◌, IfOk, OnOk};
ghost use Rattle.vx_strings.specs.StringCells.{strings_between, AreStrings, Grown};

use crate::kind::StringKind;
use crate::read::{push_string, string_at};
use std::alloc::{AllocError, Global};
use vx_typed::Shared;

/// The strings, and the others behind them: in the same memory where nothing else shares it and the first string begins
/// with it.
#[tactic(auto, using(crate::proofs::Joins::own_rules))]
pub(crate) fn join(
    alloc: Global,
    kind: StringKind,
    bytes: Shared<u8>,
    offsets: Shared<u64>,
    others: &[u8],
    places: &[u64],
) -> Result<(Shared<u8>, Shared<u64>), AllocError>
    requires strings { AreStrings kind bytes offsets }
    requires others { AreStrings kind others.now places.now }
    ensures joined { IfOk result (λ r. strings_between r.0 r.1 ≡ strings_between bytes offsets ++ strings_between others.now places.now) }
    ensures strings { IfOk result (λ r. AreStrings kind r.0 r.1) }
{
    let (mut bytes, mut offsets) = own_strings(alloc, kind, bytes, offsets, places.len())?;
    push_strings(kind, others, places, &mut bytes, &mut offsets)?;
    let bytes = Shared::new(alloc, bytes)?;
    let offsets = Shared::new(alloc, offsets)?;
    Ok((bytes, offsets))
}

/// The strings in vectors of their own, where the last one ends with the bytes. Where the places are copied, with room
/// for so many more.
#[tactic(auto, using(crate::proofs::Joins::own_rules))]
fn own_strings(
    alloc: Global,
    kind: StringKind,
    bytes: Shared<u8>,
    offsets: Shared<u64>,
    room: usize,
) -> Result<(Vec<u8>, Vec<u64>), AllocError>
    requires { AreStrings kind bytes offsets }
    ensures strings { IfOk result (λ r. strings_between r.0.items r.1.items ≡ strings_between bytes offsets) }
    ensures grown { IfOk result (λ r. Grown kind r.0.items r.1.items) }
{
    let places = offsets.as_slice();
    let first = places[0];
    let last = places[places.len() - 1];
    if first > 0 {
        return copied_strings(alloc, kind, bytes.as_slice(), places);
    }
    let bytes = bytes.front(last as usize).into_vec(alloc, 0)?;
    let offsets = offsets.into_vec(alloc, room)?;
    Ok((bytes, offsets))
}

/// A copy of the strings, without the bytes before the first one.
#[tactic(auto, using(crate::proofs::Joins::own_rules))]
fn copied_strings(
    alloc: Global,
    kind: StringKind,
    strings: &[u8],
    places: &[u64],
) -> Result<(Vec<u8>, Vec<u64>), AllocError>
    requires { AreStrings kind strings.now places.now }
    ensures strings { IfOk result (λ r. strings_between r.0.items r.1.items ≡ strings_between strings.now places.now) }
    ensures grown { IfOk result (λ r. Grown kind r.0.items r.1.items) }
{
    let mut bytes = Vec::new(alloc);
    let mut offsets = Vec::with_capacity(alloc, places.len())?;
    offsets.push(0)?;
    push_strings(kind, strings, places, &mut bytes, &mut offsets)?;
    Ok((bytes, offsets))
}

/// The strings, each behind those that are there.
#[tactic(auto, using(crate::proofs::Joins::own_rules))]
fn push_strings(
    kind: StringKind,
    strings: &[u8],
    places: &[u64],
    bytes: &mut Vec<u8>,
    offsets: &mut Vec<u64>,
) -> Result<(), AllocError>
    requires strings { AreStrings kind strings.now places.now }
    requires grown { Grown kind bytes.old.items offsets.old.items }
    ensures joined { OnOk result (strings_between bytes.new.items offsets.new.items ≡ strings_between bytes.old.items offsets.old.items ++ strings_between strings.now places.now) }
    ensures grown { OnOk result (Grown kind bytes.new.items offsets.new.items) }
{
    for row in 0..places.len() - 1 {
        push_string(string_at(kind, strings, places, row), bytes, offsets)?;
    }
    Ok(())
}
