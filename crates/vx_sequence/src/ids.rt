//! Sequence ids: paths that stand for a place in the order of segments.
ghost use Rattle.std.specs.Prelude.{◌≡◌, ◌↔◌, List, [], IsTrue, IfOk, IfErr, OnOk, OnErr, nat_eq, Some, refl};
ghost use Rattle.std.specs.Ordering.{nat_cmp};
ghost use Rattle.std.specs.Cmp.{partial_equiv_from_equiv};
ghost use Rattle.std.specs.Cmp.Lexicographic.{pointwise, slice_cmp, nat_list_eq_equiv, nat_list_cmp_total, texts_po, texts_ties};
ghost use Rattle.std.specs.Fmt.{debug_list, decimal};
ghost use Rattle.std.specs.Hash as fed;
ghost use Rattle.std.specs.Cmp.Rules.{hashing};
ghost use Rattle.std.proofs.Common.{rules};
ghost use Rattle.vx_path.specs.Path.{inside};
ghost use Rattle.vx_sequence.specs.Universe.{IsActive, IsLeast, IsUniverse, root, only, descended, released};

use crate::active::Universe;
use crate::errors::SequenceError;
use crate::pointers::SequencePointer;
use std::alloc::Global;
use std::cmp::Ordering;
use std::fmt;
use std::hash::{Hash, Hasher};
use std::marker::Model;
use vx_path::owned::Path;

/// A path that is active in a universe: contracts see the path.
///
/// An id must be spent, by `descend` or `release`. Comparisons look at the path alone, so ids of two
/// universes can be equal.
pub struct SequenceId {
    path: Path,
}

impl Model for SequenceId {
    ghost use Rattle.std.specs.Prelude.{ℕ, List};

    ghost Value = { List ℕ };

    ghost view = { λ i. i.path };
}

impl SequenceId {
    /// A universe with the path `[0]` alone, and its pointer.
    pub fn root(alloc: Global) -> Result<(Universe, SequencePointer), SequenceError>
        ensures root { IfOk result (λ r. (r.0 ≡ only root) × (r.1 ≡ root)) }
        ensures memory { IfErr result (λ e. e ≡ SequenceError.OutOfMemory) }
    {
        let path = Path::child(alloc, &[], 0)?;
        let universe = Universe::only(&path)?;
        Ok((universe, SequencePointer::new(path)))
    }

    pub(crate) fn new(path: Path) -> Self
        ensures { result ≡ path }
    {
        SequenceId { path }
    }

    /// The path.
    pub fn path(&self) -> &[u64]
        ensures { result.now ≡ self.now }
    {
        self.path.as_slice()
    }

    /// A pointer at the first child of the path, which is given up in the same step.
    pub fn descend(
        self,
        universe: &mut Universe,
    ) -> Result<SequencePointer, (SequenceId, SequenceError)>
        requires { IsActive universe.old self }
        ensures pointer { IfOk result (λ p. (p.stem ≡ self) × (p.last ≡ 0)) }
        ensures universe { OnOk result (universe.new ≡ descended universe.old self) }
        ensures refused { IfErr result (λ r. (r.0 ≡ self) × (r.1 ≡ SequenceError.OutOfMemory)) }
        ensures unchanged { OnErr result (universe.new ≡ universe.old) }
        ensures rules { IsUniverse universe.old }
    {
        match universe.descend(self.path()) {
            Ok(child) => {
                let SequenceId { path: _path } = self;
                Ok(SequencePointer::new(child))
            }
            Err(error) => Err((self, error)),
        }
    }

    /// Gives the path up.
    pub fn release(self, universe: &mut Universe)
        requires { IsActive universe.old self }
        ensures universe { universe.new ≡ released universe.old self }
        ensures rules { IsUniverse universe.old }
    {
        universe.release(self.path());
        let SequenceId { path: _path } = self;
    }

    /// Whether no other active path is smaller.
    pub fn is_first(&self, universe: &Universe) -> bool
        requires { IsActive universe.now self.now }
        ensures first { IsTrue result ↔ IsLeast universe.now self.now }
        ensures rules { IsUniverse universe.now }
    {
        match universe.least() {
            Some(least) => least == self.path(),
            None => unreachable!(),
        }
    }
}

impl PartialEq for SequenceId {
    ghost eq = { pointwise nat_eq };

    ghost laws = { partial_equiv_from_equiv nat_list_eq_equiv };

    fn eq(&self, other: &Self) -> bool {
        self.path == other.path
    }
}

impl Eq for SequenceId {
    ghost laws = { nat_list_eq_equiv };
}

impl PartialOrd for SequenceId {
    ghost partial_cmp = { λ i j. Some (slice_cmp nat_cmp i j) };

    ghost laws = { texts_po };

    fn partial_cmp(&self, other: &Self) -> Option<Ordering> {
        Some(self.cmp(other))
    }
}

impl Ord for SequenceId {
    ghost cmp = { slice_cmp nat_cmp };

    ghost total = { nat_list_cmp_total };

    ghost matches_partial_cmp = { λ i j. refl };

    ghost matches_eq = { texts_ties };

    fn cmp(&self, other: &Self) -> Ordering {
        self.path.cmp(&other.path)
    }
}

impl Hash for SequenceId {
    ghost hash_input = { fed.slice fed.u64 };

    ghost respects_eq = { Prim.search (hashing, rules) };

    fn hash<H: Hasher>(&self, state: &mut H) {
        self.path.hash(state);
    }
}

impl fmt::Debug for SequenceId {
    ghost debug_output = { debug_list (λ n. Some (decimal n)) };

    fn fmt<W: fmt::Write>(&self, f: &mut fmt::Formatter<W>) -> fmt::Result {
        self.path.fmt(f)
    }
}
