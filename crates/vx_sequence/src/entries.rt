//! Entries in the order of their paths, and the search among them.
ghost use Rattle.std.specs.Prelude.{◌≡◌, ◌+◌, ◌-◌, ◌*◌, ◌^◌, ◌<◌, ◌≤◌, List, length, MatchResult};
ghost use Rattle.vx_sequence.specs.Entries.{Ascends, IsAt, IsGap};
ghost use Rattle.vx_sequence.specs.declared.entries.Entry.{Entry};

use crate::comparisons::Steps;
use std::cmp::Ordering;
use std::marker::Brand;
use std::sync::ledger::{Blank, Ledger};
use vx_path::owned::Path;

/// An active path.
#[derive(Drop)]
pub(crate) struct Entry {
    pub(crate) path: Path,
    pub(crate) is_open: bool,
}

/// Entries that are read by their places.
pub(crate) trait Row {
    /// The entries, in order.
    ghost entries: { Self → List Entry };

    /// The path of the entry there.
    fn path_at(&self, place: usize) -> &[u64]
        requires { place < length (entries self.now) }
        ensures { IsAt (entries self.now) result.now place };
}

impl Row for Vec<Entry> {
    ghost entries = { λ es. es.items };

    fn path_at(&self, place: usize) -> &[u64] {
        self[place].path.as_slice()
    }
}

/// Where the path's entry stands among so many, or where it would stand.
pub(crate) fn search<R: Row, L: Ledger>(
    row: &R,
    count: usize,
    path: &[u64],
    steps: &mut Steps<L>,
) -> Result<usize, usize>
    requires ascends { Ascends (R.entries row.now) }
    requires count { count ≡ length (R.entries row.now) }
    ensures place { MatchResult result (IsAt (R.entries row.now) path.now) (IsGap (R.entries row.now) path.now) }
    ensures cost { 2 ^ (steps.new - steps.old) ≤ 2 * length (R.entries row.now) + 1 }
{
    let mut low = 0;
    let mut high = count;
    while low < high {
        let middle = low + (high - low) / 2;
        match steps.compare(row.path_at(middle), path) {
            Ordering::Less => low = middle + 1,
            Ordering::Greater => high = middle,
            Ordering::Equal => return Ok(middle),
        }
    }
    Err(low)
}

/// `search`, whose steps nobody asks for.
fn search_from<L: Ledger>(entries: &Vec<Entry>, path: &[u64], blank: Blank) -> Result<usize, usize>
    requires name { blank.name ≡ L.name }
    requires parts { blank.parts ≡ L.parts }
    requires some { L.parts ≡ 1 }
    requires ascends { Ascends entries.now.items }
    ensures place { MatchResult result (IsAt entries.now.items path.now) (IsGap entries.now.items path.now) }
{
    let mut steps = Steps::<L>::new(blank);
    search(entries, entries.len(), path, &mut steps)
}

/// Where the path's entry stands in a block, or where it would stand.
pub(crate) fn place(entries: &Vec<Entry>, path: &[u64]) -> Result<usize, usize>
    requires { Ascends entries.now.items }
    ensures place { MatchResult result (IsAt entries.now.items path.now) (IsGap entries.now.items path.now) }
{
    search_from::<Brand>(entries, path, Blank::new(1))
}
