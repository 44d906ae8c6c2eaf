//! The universe: which paths are active.
ghost use Rattle.std.specs.Prelude.{◌≡◌, ◌≢◌, ◌+◌, ◌-◌, ◌*◌, ◌^◌, ◌<◌, ◌≤◌, false, [], ◌∷◌, ◌++◌, unwrap_or, MatchOption, IfOk, IfErr, OnOk, OnErr, IsErrOf};
ghost use Rattle.std.specs.FinMap as map;
ghost use Rattle.vx_path.specs.Path.{under, eof_path, next};
ghost use Rattle.vx_sequence.specs.Part.{CanPart, left_of, parted};

use crate::blocks::Blocks;
use crate::comparisons::Steps;
use crate::entries::{Entry, search};
use crate::errors::SequenceError;
use crate::ids::SequenceId;
use crate::pointers::SequencePointer;
use crate::siblings::sibling;
use std::alloc::AllocError;
use std::marker::Model;
use std::sync::ledger::Ledger;
use vx_path::owned::Path;

/// The set of active paths, each marked open, as a pointer's, or closed, as an id's that `advance` gave.
///
/// No active path is a prefix of another, and behind an open one nothing is active.
#[derive(Drop)]
pub struct Universe {
    entries: Blocks,
}

impl Model for Universe {
    ghost use Rattle.std.specs.Prelude.{Bool};
    ghost use Rattle.std.specs.FinMap as map;
    ghost use Rattle.std.specs.Coded.{coded_list, coded_ℕ, coded_bool};
    ghost use Rattle.vx_sequence.specs.Universe.{path_cmp};

    ghost Value = { map.FinMap path_cmp Bool };

    ghost coded = { map.code (coded_list coded_ℕ) coded_bool };

    ghost use Rattle.vx_sequence.specs.Entries.{active_of, IsKept};
    ghost use Rattle.vx_sequence.specs.Blocks.{list_of, AreFilled};

    ghost view = { λ u. active_of (list_of u.entries) };

    ghost invariant = { λ u. IsKept (list_of u.entries) × AreFilled u.entries };
}

impl Universe {
    ghost use Rattle.vx_sequence.specs.Universe.{IsActive, IsOpen, IsLeast, IsUniverse, rank, place_of, only, advanced, descended, split_from, released};

    /// The least active path.
    pub fn least(&self) -> Option<&[u64]>
        ensures least { MatchOption result (self.now ≡ map.empty) (λ p. IsActive self.now p.now × IsLeast self.now p.now) }
        ensures rules { IsUniverse self.now }
    {
        Some(self.entries.first()?.path.as_slice())
    }

    /// The path's place among the active ones in order, or the place where it would stand. It takes no memory.
    pub fn find<L: Ledger>(&self, path: &[u64], steps: &mut Steps<L>) -> Result<u64, u64>
        ensures ok { IfOk result (λ i. IsActive self.now path.now × (i ≡ rank self.now path.now)) }
        ensures err { IfErr result (λ i. ¬ (IsActive self.now path.now) × (i ≡ rank self.now path.now)) }
        ensures cost { 2 ^ (steps.new - steps.old) ≤ 2 * map.len self.now + 1 }
    {
        match search(&self.entries, self.entries.count(), path, steps) {
            Ok(place) => Ok(place as u64),
            Err(place) => Err(place as u64),
        }
    }

    /// A copy of a path, in the memory that holds the active ones.
    pub fn copy_of(&self, path: &[u64]) -> Result<Path, AllocError>
        ensures { IfOk result (λ p. p ≡ path.now) }
    {
        Path::from_slice(self.entries.allocator(), path)
    }

    /// A universe in which this path alone is active, and open.
    pub(crate) fn only(path: &Path) -> Result<Self, SequenceError>
        requires { path.now ≢ [] }
        ensures ok { IfOk result (λ u. u ≡ only (place_of path.now)) }
        ensures memory { IfErr result (λ e. e ≡ SequenceError.OutOfMemory) }
    {
        let mut entries = Blocks::new(path.allocator());
        entries.put(Entry {
            path: path.clone()?,
            is_open: true,
        })?;
        Ok(Universe { entries })
    }

    /// Closes an open path and opens its next sibling, of which it gives a copy.
    pub(crate) fn advance(&mut self, path: &[u64]) -> Result<Path, SequenceError>
        requires stem { path.now ≢ [] }
        requires open { IsOpen self.old path.now }
        ensures ok { OnOk result (self.new ≡ advanced self.old (place_of path.now)) }
        ensures next { IfOk result (λ p. p ≡ eof_path (next (place_of path.now))) }
        ensures room { OnOk result ((place_of path.now).last < u64.MAX) }
        ensures full { IsErrOf result SequenceError.IndexFull → (place_of path.now).last ≡ u64.MAX }
        ensures err { OnErr result (self.new ≡ self.old) }
        ensures rules { IsUniverse self.old }
    {
        let next = sibling(self.entries.allocator(), path)?;
        let copy = next.clone()?;
        self.entries.put(Entry {
            path: copy,
            is_open: true,
        })?;
        let place = self.entries.place_of(path);
        self.entries.close(place);
        Ok(next)
    }

    /// Opens the first child of an active path in its place, and gives a copy of the child's path.
    pub(crate) fn descend(&mut self, path: &[u64]) -> Result<Path, SequenceError>
        requires { IsActive self.old path.now }
        ensures ok { OnOk result (self.new ≡ descended self.old path.now) }
        ensures child { IfOk result (λ p. p ≡ under path.now 0) }
        ensures memory { IfErr result (λ e. e ≡ SequenceError.OutOfMemory) }
        ensures err { OnErr result (self.new ≡ self.old) }
        ensures rules { IsUniverse self.old }
    {
        let child = Path::child(self.entries.allocator(), path, 0)?;
        let copy = child.clone()?;
        let parent = self.entries.place_of(path);
        self.entries.replace(
            parent,
            Entry {
                path: copy,
                is_open: true,
            },
        );
        Ok(child)
    }

    /// Opens both the first child of an open path, in its place, and its next sibling, and gives copies of these.
    pub(crate) fn split(&mut self, path: &[u64]) -> Result<(Path, Path), SequenceError>
        requires stem { path.now ≢ [] }
        requires open { IsOpen self.old path.now }
        ensures ok { OnOk result (self.new ≡ split_from self.old (place_of path.now)) }
        ensures parts { IfOk result (λ r. (r.0 ≡ under path.now 0) × (r.1 ≡ eof_path (next (place_of path.now)))) }
        ensures room { OnOk result ((place_of path.now).last < u64.MAX) }
        ensures full { IsErrOf result SequenceError.IndexFull → (place_of path.now).last ≡ u64.MAX }
        ensures err { OnErr result (self.new ≡ self.old) }
        ensures rules { IsUniverse self.old }
    {
        let alloc = self.entries.allocator();
        let next = sibling(alloc, path)?;
        let child = Path::child(alloc, path, 0)?;
        let next_copy = next.clone()?;
        let child_copy = child.clone()?;
        self.entries.put(Entry {
            path: next_copy,
            is_open: true,
        })?;
        let place = self.entries.place_of(path);
        self.entries.replace(
            place,
            Entry {
                path: child_copy,
                is_open: true,
            },
        );
        Ok((child, next))
    }

    /// A universe of these paths alone, with their marks. They leave this one, and the ids and the pointer are
    /// the new one's from then on.
    pub fn part(
        &mut self,
        ids: &[SequenceId],
        eof: &SequencePointer,
    ) -> Result<Universe, SequenceError>
        requires { CanPart self.old (ids.now ++ eof_path eof.now ∷ []) }
        ensures ok { IfOk result (λ v. v ≡ parted self.old map.empty (ids.now ++ eof_path eof.now ∷ [])) }
        ensures left { OnOk result (self.new ≡ left_of self.old (ids.now ++ eof_path eof.now ∷ [])) }
        ensures memory { IfErr result (λ e. e ≡ SequenceError.OutOfMemory) }
        ensures err { OnErr result (self.new ≡ self.old) }
        ensures rules { IsUniverse self.old }
    {
        let part = self.copied(ids, eof.path())?;
        for id in ids {
            self.release(id.path());
        }
        self.release(eof.path());
        Ok(part)
    }

    /// A copy of these paths alone, with their marks.
    fn copied(&self, ids: &[SequenceId], eof: &[u64]) -> Result<Universe, SequenceError>
        requires { CanPart self.now (ids.now ++ eof.now ∷ []) }
        ensures ok { IfOk result (λ v. v ≡ parted self.now map.empty (ids.now ++ eof.now ∷ [])) }
        ensures memory { IfErr result (λ e. e ≡ SequenceError.OutOfMemory) }
        ensures rules { IsUniverse self.now }
    {
        let mut entries = Blocks::new(self.entries.allocator());
        for id in ids {
            let entry = self.entry_of(id.path())?;
            entries.put(entry)?;
        }
        let entry = self.entry_of(eof)?;
        entries.put(entry)?;
        Ok(Universe { entries })
    }

    /// A copy of an active path's entry.
    fn entry_of(&self, path: &[u64]) -> Result<Entry, SequenceError>
        requires { IsActive self.now path.now }
        ensures ok { IfOk result (λ e. (e.path ≡ path.now) × (e.is_open ≡ unwrap_or (map.get self.now path.now) false)) }
        ensures memory { IfErr result (λ e. e ≡ SequenceError.OutOfMemory) }
    {
        let place = self.entries.place_of(path);
        let copy = self.copy_of(path)?;
        Ok(Entry {
            path: copy,
            is_open: self.entries.entry(place).is_open,
        })
    }

    /// Gives an active path up.
    pub(crate) fn release(&mut self, path: &[u64])
        requires { IsActive self.old path.now }
        ensures active { self.new ≡ released self.old path.now }
        ensures rules { IsUniverse self.old }
    {
        let place = self.entries.place_of(path);
        self.entries.remove(place);
    }
}
