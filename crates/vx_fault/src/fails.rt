//! Calls that fail by a list of their numbers.

ghost use Rattle.std.specs.Prelude.{◌≡◌, ℕ, ◌+◌, ◌≤◌, ◌-◌, ◌^◌, min, IsTrue, if◌then◌else◌};
ghost use Rattle.vx_fault.specs.Fails.{fails_at};
ghost use Rattle.vx_fault.specs.Faults.{Called};

use crate::fallible::Fallible;

/// Counts calls, and lets those fail whose number is in the list. Numbers begin at 0; at the greatest u64 the
/// counter stays, and no call fails.
#[derive(Debug, Drop)]
pub struct Fails {
    list: Vec<u64>,
    calls: u64,
    count: u64,
    ghost counted: { count ≤ calls },
}

impl Fallible for Fails {
    ghost faults = { λ f. f.count };

    ghost may_fail = { λ f k. IsTrue (fails_at f.list.items (f.calls + k)) };

    ghost must_fail = { λ f k. IsTrue (fails_at f.list.items (f.calls + k)) };
}

impl Fails {
    /// The numbers of the calls that fail, in any order.
    pub fn new(list: Vec<u64>) -> Fails
        ensures list { result.list.items ≡ list.items }
        ensures calls { result.calls ≡ 0 }
        ensures count { result.count ≡ 0 }
    {
        Fails {
            list,
            calls: 0,
            count: 0,
        }
    }

    /// Counts a call, and tells whether it fails.
    pub fn call(&mut self) -> bool
        ensures fails { result ≡ fails_at self.old.list.items self.old.calls }
        ensures calls { self.new.calls ≡ min (self.old.calls + 1) (2 ^ 64 - 1) }
        ensures count { self.new.count ≡ (if result then self.old.count + 1 else self.old.count) }
        ensures list { self.new.list.items ≡ self.old.list.items }
        ensures told { Called (⟦<Fails as Fallible>⟧.faults self.old) (⟦<Fails as Fallible>⟧.faults self.new)
            (⟦<Fails as Fallible>⟧.may_fail self.old) (⟦<Fails as Fallible>⟧.may_fail self.new)
            (⟦<Fails as Fallible>⟧.must_fail self.old) (⟦<Fails as Fallible>⟧.must_fail self.new) result }
    {
        let fails = self.calls < u64::MAX && self.list.contains(&self.calls);
        if self.calls < u64::MAX {
            self.calls += 1;
        }
        if fails {
            self.count += 1;
        }
        fails
    }
}
