//! The entries of a universe in blocks, so that a change moves few of them.
ghost use Rattle.std.specs.Prelude.{◌≡◌, ℕ, ◌+◌, ◌<◌, ◌≤◌, [], ◌∷◌, length, set, slice_index_or, None, IsSome, IfOk, MatchOption, OnOk, OnErr, true, false};
ghost use Rattle.std.specs.List.{insert, remove};
ghost use Rattle.std.specs.Global.{Vec};
ghost use Rattle.std.specs.FinMap as map;
ghost use Rattle.std.specs.FinMap.{find};
ghost use Rattle.vx_sequence.specs.Universe.{path_cmp};
ghost use Rattle.vx_sequence.specs.Entries.{pairs, active_of, Ascends, IsAt, IsGap};
ghost use Rattle.vx_sequence.specs.Blocks.{all_of, list_of, index_of, AreFilled, IsPlace, IsBlockOf};
ghost use Rattle.vx_sequence.specs.declared.entries.Entry.{Entry};

use crate::entries::{Entry, Row, place};
use std::alloc::{AllocError, Global};
use std::cmp::Ordering;

/// A block of so many entries is cut in two.
const MANY: usize = 64;

/// Entries, in the order of their paths.
#[derive(Drop)]
pub(crate) struct Blocks {
    blocks: Vec<Vec<Entry>>,
    count: usize,
}

/// Where an entry stands: in which block, and where in it.
#[derive(Clone, Copy)]
pub(crate) struct Place {
    block: usize,
    at: usize,
}

impl Row for Blocks {
    ghost entries = { list_of };

    fn path_at(&self, place: usize) -> &[u64] {
        let mut left = place;
        for block in &self.blocks {
            if left < block.len() {
                return block[left].path.as_slice();
            }
            left -= block.len();
        }
        unreachable!()
    }
}

impl Blocks {
    /// No entries.
    pub(crate) fn new(alloc: Global) -> Self
        ensures none { list_of result ≡ [] }
        ensures filled { AreFilled result }
    {
        Blocks {
            blocks: Vec::new(alloc),
            count: 0,
        }
    }

    pub(crate) fn allocator(&self) -> Global {
        *self.blocks.allocator()
    }

    /// How many entries there are.
    pub(crate) fn count(&self) -> usize
        ensures { result ≡ self.now.count }
    {
        self.count
    }

    /// The first entry.
    pub(crate) fn first(&self) -> Option<&Entry>
        requires { AreFilled self.now }
        ensures { MatchOption result (list_of self.now ≡ []) (λ e. (0 < length (list_of self.now)) × (e.now ≡ slice_index_or (list_of self.now) 0 e.now)) }
    {
        if self.blocks.is_empty() {
            return None;
        }
        Some(&self.blocks[0][0])
    }

    /// The entry at a place.
    pub(crate) fn entry(&self, place: Place) -> &Entry
        requires { IsPlace self.now place }
        ensures { result.now ≡ slice_index_or (list_of self.now) (index_of self.now place) result.now }
    {
        &self.blocks[place.block][place.at]
    }

    /// The block in which the path's entry stands, or would stand.
    fn block_of(&self, path: &[u64]) -> usize
        requires ascends { Ascends (list_of self.now) }
        requires filled { AreFilled self.now }
        requires some { 0 < length self.now.blocks.items }
        ensures { IsBlockOf self.now.blocks.items path.now result }
    {
        let mut low = 0;
        let mut high = self.blocks.len();
        while low < high {
            let middle = low + (high - low) / 2;
            match self.blocks[middle][0].path.as_slice().cmp(path) {
                Ordering::Less => low = middle + 1,
                Ordering::Greater => high = middle,
                Ordering::Equal => return middle,
            }
        }
        low.saturating_sub(1)
    }

    /// Where the entry of an active path stands.
    pub(crate) fn place_of(&self, path: &[u64]) -> Place
        requires ascends { Ascends (list_of self.now) }
        requires filled { AreFilled self.now }
        requires is_there { IsSome (find path_cmp path.now (pairs (list_of self.now))) }
        ensures place { IsPlace self.now result }
        ensures at { IsAt (list_of self.now) path.now (index_of self.now result) }
    {
        let block = self.block_of(path);
        match place(&self.blocks[block], path) {
            Ok(at) => Place { block, at },
            Err(_) => unreachable!(),
        }
    }

    /// Puts an entry of a new path in its place.
    pub(crate) fn put(&mut self, entry: Entry) -> Result<(), AllocError>
        requires ascends { Ascends (list_of self.old) }
        requires filled { AreFilled self.old }
        requires is_new { find path_cmp entry.path (pairs (list_of self.old)) ≡ None }
        ensures ascends { Ascends (list_of self.new) }
        ensures filled { AreFilled self.new }
        ensures ok { OnOk result (active_of (list_of self.new) ≡ map.insert (active_of (list_of self.old)) entry.path entry.is_open) }
        ensures err { OnErr result (active_of (list_of self.new) ≡ active_of (list_of self.old)) }
    {
        if self.blocks.is_empty() {
            return self.put_first(entry);
        }
        let block = self.block_of(entry.path.as_slice());
        match place(&self.blocks[block], entry.path.as_slice()) {
            Ok(_) => unreachable!(),
            Err(at) => self.insert(Place { block, at }, entry)?,
        }
        self.cut_full(block);
        Ok(())
    }

    /// Puts the only entry.
    fn put_first(&mut self, entry: Entry) -> Result<(), AllocError>
        requires none { length self.old.blocks.items ≡ 0 }
        requires filled { AreFilled self.old }
        ensures filled { AreFilled self.new }
        ensures ok { OnOk result (list_of self.new ≡ entry ∷ []) }
        ensures err { OnErr result (list_of self.new ≡ []) }
    {
        let mut block = Vec::new(self.allocator());
        block.push(entry)?;
        self.blocks.push(block)?;
        self.count = 1;
        Ok(())
    }

    /// Puts an entry in a place, into a block that is there.
    fn insert(&mut self, place: Place, entry: Entry) -> Result<(), AllocError>
        requires filled { AreFilled self.old }
        requires block { place.block < length self.old.blocks.items }
        requires at { (d : Vec Entry) → place.at ≤ length (slice_index_or self.old.blocks.items place.block d).items }
        ensures filled { AreFilled self.new }
        ensures blocks { length self.new.blocks.items ≡ length self.old.blocks.items }
        ensures ok { OnOk result (list_of self.new ≡ insert (list_of self.old) (index_of self.old place) entry) }
        ensures err { OnErr result (list_of self.new ≡ list_of self.old) }
    {
        let Some(count) = self.count.checked_add(1) else {
            return Err(AllocError);
        };
        self.blocks[place.block].insert(place.at, entry)?;
        self.count = count;
        Ok(())
    }

    /// Cuts a block that has many entries.
    fn cut_full(&mut self, block: usize)
        requires filled { AreFilled self.old }
        requires block { block < length self.old.blocks.items }
        ensures filled { AreFilled self.new }
        ensures same { list_of self.new ≡ list_of self.old }
    {
        if self.blocks[block].len() >= MANY {
            self.cut(block);
        }
    }

    /// Cuts a block in two. Where memory runs out it stays whole.
    fn cut(&mut self, block: usize)
        requires filled { AreFilled self.old }
        requires block { block < length self.old.blocks.items }
        requires two { (d : Vec Entry) → 1 < length (slice_index_or self.old.blocks.items block d).items }
        ensures filled { AreFilled self.new }
        ensures same { list_of self.new ≡ list_of self.old }
    {
        if self.blocks.reserve(1).is_err() {
            return;
        }
        let whole = &mut self.blocks[block];
        let half = whole.len() / 2;
        if let Ok(rest) = whole.split_off(half) {
            let Ok(()) = self.blocks.insert(block + 1, rest) else {
                unreachable!()
            };
        }
    }

    /// Changes the entry at a place for another.
    pub(crate) fn replace(&mut self, place: Place, entry: Entry)
        requires filled { AreFilled self.old }
        requires place { IsPlace self.old place }
        ensures filled { AreFilled self.new }
        ensures list { list_of self.new ≡ set (list_of self.old) (index_of self.old place) entry }
    {
        self.blocks[place.block][place.at] = entry;
    }

    /// Closes the entry at a place.
    pub(crate) fn close(&mut self, place: Place)
        requires filled { AreFilled self.old }
        requires place { IsPlace self.old place }
        ensures filled { AreFilled self.new }
        ensures list { (e : Entry) × (e ≡ slice_index_or (list_of self.old) (index_of self.old place) e)
            × (list_of self.new ≡ set (list_of self.old) (index_of self.old place) (record { path = e.path; is_open = false })) }
    {
        self.blocks[place.block][place.at].is_open = false;
    }

    /// Takes the entry at a place out.
    pub(crate) fn remove(&mut self, place: Place)
        requires filled { AreFilled self.old }
        requires place { IsPlace self.old place }
        ensures filled { AreFilled self.new }
        ensures list { list_of self.new ≡ remove (list_of self.old) (index_of self.old place) }
    {
        let block = &mut self.blocks[place.block];
        let _entry = block.remove(place.at);
        let left = block.len();
        self.count -= 1;
        if left == 0 {
            let _block = self.blocks.remove(place.block);
        }
    }
}
