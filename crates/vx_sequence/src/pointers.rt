//! Sequence pointers: places from which ids are made in ascending order.
ghost use Rattle.std.specs.Prelude.{◌≡◌, ◌≢◌, ◌<◌, [], Some, IfOk, IfErr, OnOk, OnErr, IsErrOf};
ghost use Rattle.std.specs.Fmt.{debug_list, decimal};
ghost use Rattle.vx_path.specs.Path.{eof_path, next, inside};
ghost use Rattle.vx_sequence.specs.Universe.{IsOpen, IsUniverse, place_of, advanced, split_from};

use crate::active::Universe;
use crate::errors::SequenceError;
use crate::ids::SequenceId;
use std::marker::Model;
use std::{fmt, mem};
use vx_path::owned::Path;

/// A path that is open in a universe: contracts see the path that it stands under and its last index.
///
/// A pointer must be spent, by `downgrade` or `split`.
pub struct SequencePointer {
    path: Path,
}

impl Model for SequencePointer {
    ghost use Rattle.std.specs.Prelude.{◌≢◌, []};
    ghost use Rattle.vx_path.specs.Path.{Eof};
    ghost use Rattle.vx_sequence.specs.Universe.{place_of};

    ghost Value = { Eof };

    ghost view = { λ p. place_of p.path };

    ghost invariant = { λ p. p.path ≢ [] };
}

impl SequencePointer {
    pub(crate) fn new(path: Path) -> Self
        requires { path ≢ [] }
        ensures { result ≡ place_of path }
    {
        SequencePointer { path }
    }

    /// The path.
    pub fn path(&self) -> &[u64]
        ensures path { result.now ≡ eof_path self.now }
        ensures stem { result.now ≢ [] }
    {
        self.path.as_slice()
    }

    /// An id of the current path. The pointer then stands at the next sibling, which is active at once.
    ///
    /// `IndexFull` comes where the last index is the greatest one.
    pub fn advance(&mut self, universe: &mut Universe) -> Result<SequenceId, SequenceError>
        requires { IsOpen universe.old (eof_path self.old) }
        ensures id { IfOk result (λ id. id ≡ eof_path self.old) }
        ensures pointer { OnOk result (self.new ≡ next self.old) }
        ensures universe { OnOk result (universe.new ≡ advanced universe.old self.old) }

        ensures room { OnOk result (self.old.last < u64.MAX) }
        ensures full { IsErrOf result SequenceError.IndexFull → self.old.last ≡ u64.MAX }
        ensures unchanged { OnErr result ((self.new ≡ self.old) × (universe.new ≡ universe.old)) }
        ensures rules { IsUniverse universe.old }
    {
        let next = universe.advance(self.path())?;
        Ok(SequenceId::new(mem::replace(&mut self.path, next)))
    }

    /// `advance`, and then `descend` of the id: a pointer below the current path. This one then stands at the next sibling.
    ///
    /// `IndexFull` comes where the last index is the greatest one.
    pub fn split_off(&mut self, universe: &mut Universe) -> Result<SequencePointer, SequenceError>
        requires { IsOpen universe.old (eof_path self.old) }
        ensures off { IfOk result (λ off. off ≡ inside self.old) }
        ensures pointer { OnOk result (self.new ≡ next self.old) }
        ensures universe { OnOk result (universe.new ≡ split_from universe.old self.old) }

        ensures room { OnOk result (self.old.last < u64.MAX) }
        ensures full { IsErrOf result SequenceError.IndexFull → self.old.last ≡ u64.MAX }
        ensures unchanged { OnErr result ((self.new ≡ self.old) × (universe.new ≡ universe.old)) }
        ensures rules { IsUniverse universe.old }
    {
        let (child, next) = universe.split(self.path())?;
        self.path = next;
        Ok(SequencePointer::new(child))
    }

    /// The pointer that `split_off` gives, and the rest. All later ids of the first are below all of the second.
    ///
    /// `IndexFull` comes where the last index is the greatest one.
    pub fn split(
        mut self,
        universe: &mut Universe,
    ) -> Result<(SequencePointer, SequencePointer), (SequencePointer, SequenceError)>
        requires { IsOpen universe.old (eof_path self) }
        ensures parts { IfOk result (λ r. (r.0 ≡ inside self) × (r.1 ≡ next self)) }
        ensures universe { OnOk result (universe.new ≡ split_from universe.old self) }

        ensures room { OnOk result (self.last < u64.MAX) }
        ensures full { IfErr result (λ r. r.1 ≡ SequenceError.IndexFull → self.last ≡ u64.MAX) }
        ensures refused { IfErr result (λ r. r.0 ≡ self) }
        ensures unchanged { OnErr result (universe.new ≡ universe.old) }
        ensures rules { IsUniverse universe.old }
    {
        match self.split_off(universe) {
            Ok(off) => Ok((off, self)),
            Err(error) => Err((self, error)),
        }
    }

    /// The id of the current path, whose mark stays open.
    pub fn downgrade(self) -> SequenceId
        ensures { result ≡ eof_path self }
    {
        let SequencePointer { path } = self;
        SequenceId::new(path)
    }
}

impl fmt::Debug for SequencePointer {
    ghost debug_output = { λ p. debug_list (λ n. Some (decimal n)) (eof_path p) };

    fn fmt<W: fmt::Write>(&self, f: &mut fmt::Formatter<W>) -> fmt::Result {
        fmt::Debug::fmt(&self.path(), f)
    }
}
