//! An order that keeps what is written.
ghost use Rattle.std.specs.Prelude.{◌≡◌, [], ◌∷◌, ◌++◌, if◌then◌else◌, IsTrue, IfNone, IfSome};
ghost use Rattle.vx_path.specs.Path.{path_lt};
ghost use Rattle.vx_sequence.specs.Universe.{IsActive, IsLeast, IsUniverse};
ghost use Rattle.vx_desk.specs.DeskView.{segments_in};

use std::alloc::Global;
use vx_fault::Fallible;
use vx_order::{Attempt, Order};
use vx_order_answer::{OrderError, Receipt};
use vx_sequence::{SequenceError, SequenceId, SequencePointer, Universe};

/// What tells that no write to a desk fails.
#[derive(Drop, Clone, Copy)]
pub struct Unfailing;

impl Fallible for Unfailing {
    ghost faults = { λ _. 0 };

    ghost may_fail = { λ _ _. ⊥ };
}

/// An order of one universe, that keeps the segments that are written until they are taken. It numbers them from 0, and
/// allows all bytes at all paths.
#[derive(Drop)]
pub struct Desk {
    alloc: Global,
    universe: Universe,
    written: u64,
    kept: Vec<Vec<u8>>,
    sink: Unfailing,
}

impl Desk {
    ghost use Rattle.std.specs.Prelude.{◌≡◌, [], MatchOption};
    ghost use Rattle.std.specs.FinMap as map;
    ghost use Rattle.vx_sequence.specs.Universe.{IsActive, IsLeast, IsUniverse};
    ghost use Rattle.vx_desk.specs.DeskView.{universe_of, written_of, kept_of};

    /// A desk where nothing was written.
    pub fn new(alloc: Global, universe: Universe) -> Desk
        ensures universe { universe_of result ≡ universe }
        ensures written { written_of result ≡ 0 }
        ensures kept { kept_of result ≡ [] }
    {
        Desk {
            alloc,
            universe,
            written: 0,
            kept: Vec::new(alloc),
            sink: Unfailing,
        }
    }

    /// The least active path.
    pub fn least(&self) -> Option<&[u64]>
        ensures least { MatchOption result (universe_of self.now ≡ map.empty) (λ p. IsActive (universe_of self.now) p.now × IsLeast (universe_of self.now) p.now) }
        ensures rules { IsUniverse (universe_of self.now) }
    {
        self.universe.least()
    }

    /// Takes all segments that are kept, in order.
    pub fn take(&mut self) -> Vec<Vec<u8>>
        ensures taken { result ≡ self.old.kept }
        ensures kept { kept_of self.new ≡ [] }
        ensures universe { universe_of self.new ≡ universe_of self.old }
        ensures written { written_of self.new ≡ written_of self.old }
    {
        std::mem::replace(&mut self.kept, Vec::new(self.alloc))
    }
}

impl Order for Desk {
    ghost use Rattle.std.specs.Prelude.{Some};
    ghost use Rattle.vx_order.specs.Outlet.{own};
    ghost use Rattle.vx_desk.specs.DeskView.{segments_in};

    type Sink = Unfailing;

    ghost active = { λ o. o.universe };

    ghost sink = { λ o. o.sink };

    ghost outlet = { λ o. own (record { next = o.written; segments = Some (segments_in o.kept.items); borrow = 0 }) };

    ghost may_write = { λ _ _ _. Unit {0} };

    ghost borrow = { λ _. 0 };

    fn advance(&mut self, p: &mut SequencePointer) -> Result<SequenceId, OrderError> {
        match p.advance(&mut self.universe) {
            Ok(id) => Ok(id),
            Err(SequenceError::IndexFull) => Err(OrderError::TooLarge(1 << 64)),
            Err(SequenceError::OutOfMemory) => Err(OrderError::OutOfMemory),
        }
    }

    fn descend(&mut self, id: SequenceId) -> Result<SequencePointer, (SequenceId, OrderError)> {
        match id.descend(&mut self.universe) {
            Ok(pointer) => Ok(pointer),
            Err((id, _)) => Err((id, OrderError::OutOfMemory)),
        }
    }

    fn release(&mut self, id: SequenceId) {
        id.release(&mut self.universe);
    }

    fn is_least(&self, id: &SequenceId) -> bool {
        id.is_first(&self.universe)
    }

    fn try_write(
        &mut self,
        id: SequenceId,
        bytes: &[u8],
    ) -> Result<Attempt, (SequenceId, OrderError)> {
        if let Some(least) = smaller_path(&self.universe, &id) {
            return match self.universe.copy_of(least) {
                Ok(smaller) => Ok(Attempt::Waiting { id, smaller }),
                Err(_) => Err((id, OrderError::OutOfMemory)),
            };
        }
        if self.written > u64::from(u32::MAX) {
            return Err((id, OrderError::TooLarge(u128::from(self.written))));
        }
        let Ok(path) = self.universe.copy_of(id.path()) else {
            return Err((id, OrderError::OutOfMemory));
        };
        if !keep(self.alloc, &mut self.kept, bytes) {
            drop(path);
            return Err((id, OrderError::OutOfMemory));
        }
        let number = self.written as u32;
        self.written += 1;
        id.release(&mut self.universe);
        Ok(Attempt::Written(Receipt { path, number }))
    }
}

/// Puts a copy of the bytes behind the segments, where there is memory for it.
#[tactic(auto, using(crate::proofs::Keeping::keep_rules))]
fn keep(alloc: Global, kept: &mut Vec<Vec<u8>>, bytes: &[u8]) -> bool
    ensures { segments_in kept.new.items ≡ (if result then segments_in kept.old.items ++ (bytes.now ∷ []) else segments_in kept.old.items) }
{
    let Ok(copy) = Vec::from_slice(alloc, bytes) else {
        return false;
    };
    kept.push(copy).is_ok()
}

/// The least active path, where it is smaller than the id's.
#[tactic(auto, using(crate::proofs::Smaller::smaller_rules))]
fn smaller_path<'a>(universe: &'a Universe, id: &SequenceId) -> Option<&'a [u64]>
    requires { IsActive universe.now id.now }
    ensures none { IfNone result (IsLeast universe.now id.now) }
    ensures rules { IsUniverse universe.now }
    ensures some { IfSome result (λ p. IsActive universe.now p.now × IsLeast universe.now p.now × IsTrue (path_lt p.now id.now)) }
{
    let least = universe.least()?;
    if least == id.path() {
        None
    } else {
        Some(least)
    }
}
