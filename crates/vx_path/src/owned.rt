//! A path as a value that owns its memory.
ghost use Rattle.std.specs.Prelude.{◌≡◌, List, [], ◌∷◌, ◌++◌, refl, nat_eq, Some, IfOk};
ghost use Rattle.std.specs.Fmt.{debug_list, decimal};
ghost use Rattle.std.specs.Ordering.{nat_cmp};
ghost use Rattle.std.specs.Cmp.{partial_equiv_from_equiv};
ghost use Rattle.std.specs.Cmp.Lexicographic.{pointwise, slice_cmp, nat_list_eq_equiv, nat_list_cmp_total, texts_po, texts_ties};
ghost use Rattle.std.specs.Hash as fed;
ghost use Rattle.std.specs.Cmp.Rules.{hashing};
ghost use Rattle.std.proofs.Common.{rules};
ghost use Rattle.vx_path.specs.Path.{path_le, under};

use std::alloc::{AllocError, Global};
use std::cmp::Ordering;
use std::fmt;
use std::hash::{Hash, Hasher};
use std::marker::Model;

/// A path: contracts see the list of its numbers, outermost first.
#[derive(Drop)]
pub struct Path {
    numbers: Vec<u64>,
}

impl Model for Path {
    ghost use Rattle.std.specs.Prelude.{ℕ, List};

    ghost Value = { List ℕ };

    ghost view = { λ p. p.numbers.items };
}

impl Path {
    /// A path with these numbers.
    pub fn from_slice(alloc: Global, numbers: &[u64]) -> Result<Self, AllocError>
        ensures { IfOk result (λ p. p ≡ numbers.now) }
    {
        Ok(Path {
            numbers: Vec::from_slice(alloc, numbers)?,
        })
    }

    /// The path of child `index` below `stem`.
    pub fn child(alloc: Global, stem: &[u64], index: u64) -> Result<Self, AllocError>
        ensures { IfOk result (λ p. p ≡ under stem.now index) }
    {
        let mut numbers = Vec::with_capacity(alloc, stem.len() + 1)?;
        numbers.extend_from_slice(stem)?;
        numbers.push(index)?;
        Ok(Path { numbers })
    }

    /// The numbers, outermost first.
    pub fn as_slice(&self) -> &[u64]
        ensures { result.now ≡ self.now }
    {
        self.numbers.as_slice()
    }

    /// The allocator that holds the path, for further paths.
    pub fn allocator(&self) -> Global {
        *self.numbers.allocator()
    }
}

impl Clone for Path {
    ghost is_clone = { λ p q. q ≡ p };

    fn clone(&self) -> Result<Self, AllocError> {
        Path::from_slice(self.allocator(), self.as_slice())
    }
}

impl PartialEq for Path {
    ghost eq = { pointwise nat_eq };

    ghost laws = { partial_equiv_from_equiv nat_list_eq_equiv };

    fn eq(&self, other: &Self) -> bool {
        self.as_slice() == other.as_slice()
    }
}

impl Eq for Path {
    ghost laws = { nat_list_eq_equiv };
}

impl PartialOrd for Path {
    ghost partial_cmp = { λ p q. Some (slice_cmp nat_cmp p q) };

    ghost laws = { texts_po };

    fn partial_cmp(&self, other: &Self) -> Option<Ordering> {
        Some(self.cmp(other))
    }
}

impl Ord for Path {
    ghost cmp = { slice_cmp nat_cmp };

    ghost total = { nat_list_cmp_total };

    ghost matches_partial_cmp = { λ p q. refl };

    ghost matches_eq = { texts_ties };

    fn cmp(&self, other: &Self) -> Ordering {
        self.as_slice().cmp(other.as_slice())
    }
}

impl Hash for Path {
    ghost hash_input = { fed.slice fed.u64 };

    ghost respects_eq = { Prim.search (hashing, rules) };

    fn hash<H: Hasher>(&self, state: &mut H) {
        self.as_slice().hash(state);
    }
}

impl fmt::Debug for Path {
    ghost debug_output = { debug_list (λ n. Some (decimal n)) };

    fn fmt<W: fmt::Write>(&self, f: &mut fmt::Formatter<W>) -> fmt::Result {
        fmt::Debug::fmt(&self.as_slice(), f)
    }
}

/// Whether the path `p` is at most `q`.
pub fn path_le(p: &[u64], q: &[u64]) -> bool
    ensures { result ≡ path_le p.now q.now }
{
    p.cmp(q).is_le()
}
