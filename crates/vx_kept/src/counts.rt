//! What is kept of a task's children.

ghost use Rattle.std.specs.Prelude.{◌≡◌, ℕ, List, [], ◌∷◌, OnOk};
ghost use Rattle.vx_machine_state.specs.State.{Tasks};
ghost use Rattle.vx_machine_state.specs.Acts.{count};
ghost use Rattle.vx_kept.specs.Kept.{KnowsFrom, GoingFrom, Knows, asked_of, ready_of, kids_of};
ghost use Rattle.vx_kept.specs.Follow.{Follows};

use std::alloc::{AllocError, Global};
use vx_tally::Tally;

/// How many are ready of each child and below it, as was counted last; the children that are to be counted anew; and the same
/// of each child's own children. Children that are missing at the end weren't counted yet.
#[derive(Drop)]
pub struct Counts {
    pub ready: Tally,
    pub asked: Vec<usize>,
    pub kids: Vec<Counts>,
}

/// What a task's act may change below it.
#[derive(Clone, Copy, Drop)]
pub enum Touched {
    /// A child's queue.
    Child(usize),
    /// This child's queue and the next one's.
    Both(usize),
    All,
    /// There may be one child more.
    Nothing,
}

impl Counts {
    /// Nothing was counted yet.
    pub fn new(alloc: Global) -> Counts
        ensures { (ks : Tasks) → Knows result ks }
    {
        Counts {
            ready: Tally::new(alloc),
            asked: Vec::new(alloc),
            kids: Vec::new(alloc),
        }
    }

    /// The child is to be counted anew. Without memory to note it, all are.
    pub fn mark(&mut self, alloc: Global, child: usize)
        ensures { (ks : Tasks) → KnowsFrom (child ∷ asked_of self.old) 0 (ready_of self.old) (kids_of self.old) ks → Knows self.new ks }
    {
        if self.asked.contains(&child) {
            return;
        }
        if let Err(_) = self.asked.push(child) {
            *self = Counts::new(alloc);
        }
    }

    /// The task has done an act that may change so much.
    pub fn follow(&mut self, alloc: Global, touched: Touched)
        ensures { (ks js : Tasks) → Follows touched ks js → Knows self.old ks → Knows self.new js }
    {
        match touched {
            Touched::Child(child) => self.mark(alloc, child),
            Touched::Both(first) => {
                self.mark(alloc, first);
                match first.checked_add(1) {
                    Some(second) => self.mark(alloc, second),
                    None => *self = Counts::new(alloc),
                }
            }
            Touched::All => *self = Counts::new(alloc),
            Touched::Nothing => {}
        }
    }
}

/// Notes the children that weren't counted yet: there are so many in all.
pub fn top_up(
    alloc: Global,
    ready: &mut Tally,
    asked: &mut Vec<usize>,
    kids: &mut Vec<Counts>,
    len: usize,
) -> Result<(), AllocError>
    ensures { OnOk result ((all : List (List ℕ)) (ks : Tasks) → count ks ≡ len → KnowsFrom asked.old.items 0 ready.old kids.old.items ks
        → GoingFrom all asked.new.items [] 0 ready.new kids.new.items ks) }
{
    'more: while ready.len() < len {
        asked.push(ready.len())?;
        kids.push(Counts::new(alloc))?;
        ready.push(alloc, 0)?;
    }
    Ok(())
}
