//! Counts that can change, with their sum, and the count in which the k-th of all that they count falls.
#![tactic(auto)]

ghost use Rattle.std.specs.Prelude.{◌≡◌, ℕ, ◌+◌, ◌-◌, ◌*◌, ◌^◌, ◌<◌, ◌≤◌, ◌==◌, min, List, [], ◌∷◌, ◌++◌, length, take, drop, sum, get_or, set, slice_index, slice_set, IfOk, OnOk, OnErr};
ghost use Rattle.vx_tally.specs.Nodes.{SummedFrom, IsDoubled, sum_from, IsTree, HasRoom};

use std::alloc::{AllocError, Global};
use std::marker::Model;

/// A list of counts. It keeps a tree of sums over them, so that most calls cost the logarithm of their number.
#[derive(Drop)]
pub struct Tally {
    // A node's children stand at twice its place, side by side. From half on stand the counts, and zeros behind them.
    nodes: Vec<u64>,
    half: usize,
    len: usize,
}

impl Model for Tally {
    ghost use Rattle.std.specs.Prelude.{List, ℕ, take, drop};
    ghost use Rattle.vx_tally.specs.Nodes.{IsTree};

    ghost Value = { List ℕ };

    ghost view = { λ t. take t.len (drop t.half t.nodes.items) };

    ghost invariant = { λ t. IsTree t.nodes.items t.half t.len };
}

impl Tally {
    /// No counts; it takes no memory.
    pub fn new(alloc: Global) -> Self
        ensures { result ≡ [] }
    {
        Tally {
            nodes: Vec::new(alloc),
            half: 0,
            len: 0,
        }
    }

    /// How many counts there are.
    pub fn len(&self) -> usize
        ensures { result ≡ length self.now }
    {
        self.len
    }

    /// Whether there are none.
    pub fn is_empty(&self) -> bool
        ensures { result ≡ (length self.now == 0) }
    {
        self.len == 0
    }

    /// One of the counts, at constant cost.
    pub fn get(&self, i: usize) -> u64
        requires { i < length self.now }
        ensures { result ≡ slice_index self.now i }
    {
        self.nodes[self.half + i]
    }

    /// The sum of all, at constant cost.
    pub fn sum(&self) -> u64
        ensures { result ≡ min (sum self.now) u64.MAX }
    {
        if self.half == 0 {
            return 0;
        }
        self.nodes[1]
    }

    /// The count in which k falls, and how far behind its beginning, at the cost of the logarithm of their number.
    pub fn find(&self, k: u64) -> (usize, u64)
        requires { k < min (sum self.now) u64.MAX }
        ensures within { result.0 < length self.now }
        ensures place { sum (take result.0 self.now) + result.1 ≡ k }
        ensures inside { result.1 < slice_index self.now result.0 }
    {
        descend(&self.nodes, self.half, k)
    }

    /// Changes one of the counts, at the cost of the logarithm of their number.
    pub fn set(&mut self, i: usize, n: u64)
        requires { i < length self.old }
        ensures { self.new ≡ slice_set self.old i n }
    {
        raise(&mut self.nodes, self.half, i, n);
    }

    /// Adds a count behind all others, at the cost of the logarithm of their number; each time that the number has
    /// doubled, at its own.
    pub fn push(&mut self, alloc: Global, n: u64) -> Result<(), AllocError>
        ensures ok { OnOk result (self.new ≡ self.old ++ n ∷ []) }
        ensures err { OnErr result (self.new ≡ self.old) }
    {
        self.half = make_room(alloc, &mut self.nodes, self.half, self.len)?;
        raise(&mut self.nodes, self.half, self.len, n);
        self.len += 1;
        Ok(())
    }
}

/// The leaf in which k falls, and what is left of k there.
fn descend(nodes: &[u64], half: usize, k: u64) -> (usize, u64)
    requires size { length nodes.now ≡ 2 * half }
    requires levels { (j : ℕ) × IsDoubled j 1 half }
    requires sums { SummedFrom nodes.now half 1 }
    requires below { k < slice_index nodes.now 1 }
    requires fits { k < 2 ^ 64 - 1 }
    ensures within { result.0 < half }
    ensures place { sum_from nodes.now half result.0 + result.1 ≡ k }
    ensures inside { result.1 < slice_index nodes.now (half + result.0) }
{
    let mut width = 1;
    let mut i = 0;
    let mut rest = k;
    while width < half {
        width = 2 * width;
        i = 2 * i;
        let left = nodes[width + i];
        if rest >= left {
            rest -= left;
            i += 1;
        }
    }
    (i, rest)
}

/// Changes a leaf, and all nodes above it.
fn raise(nodes: &mut Vec<u64>, half: usize, i: usize, n: u64)
    requires size { length nodes.old.items ≡ 2 * half }
    requires within { i < half }
    requires sums { SummedFrom nodes.old.items half 1 }
    ensures size { length nodes.new.items ≡ 2 * half }
    ensures leaves { drop half nodes.new.items ≡ set (drop half nodes.old.items) i n }
    ensures sums { SummedFrom nodes.new.items half 1 }
{
    nodes[half + i] = n;
    let mut u = (half + i) / 2;
    while u > 0 {
        nodes[u] = nodes[2 * u].saturating_add(nodes[2 * u + 1]);
        u /= 2;
    }
}

/// Sums up all nodes above the leaves.
fn add_up(nodes: &mut Vec<u64>, half: usize)
    requires size { length nodes.old.items ≡ 2 * half }
    ensures size { length nodes.new.items ≡ 2 * half }
    ensures leaves { drop half nodes.new.items ≡ drop half nodes.old.items }
    ensures sums { SummedFrom nodes.new.items half 1 }
{
    let mut u = half;
    while u > 1 {
        u -= 1;
        nodes[u] = nodes[2 * u].saturating_add(nodes[2 * u + 1]);
    }
}

/// A tree of more leaves, with the same ones in front.
fn grown(alloc: Global, nodes: &[u64], half: usize, wide: usize) -> Result<Vec<u64>, AllocError>
    requires size { length nodes.now ≡ 2 * half }
    requires wider { half ≤ wide }
    requires fits { 2 * wide < 2 ^ 64 }
    ensures size { IfOk result (λ v. length v.items ≡ 2 * wide) }
    ensures leaves { IfOk result (λ v. (i : ℕ) → i < half → get_or v.items (wide + i) 0 ≡ get_or nodes.now (half + i) 0) }
    ensures zeros { IfOk result (λ v. (i : ℕ) → half ≤ i → i < wide → get_or v.items (wide + i) 0 ≡ 0) }
    ensures sums { IfOk result (λ v. SummedFrom v.items wide 1) }
{
    let mut grown = vec![in alloc; 0; 2 * wide]?;
    for i in 0..half {
        grown[wide + i] = nodes[half + i];
    }
    add_up(&mut grown, wide);
    Ok(grown)
}

/// Makes room for one more leaf, and tells how many there are then.
fn make_room(
    alloc: Global,
    nodes: &mut Vec<u64>,
    half: usize,
    len: usize,
) -> Result<usize, AllocError>
    requires { IsTree nodes.old.items half len }
    ensures ok { IfOk result (λ wide. HasRoom nodes.old.items nodes.new.items half wide len) }
    ensures err { OnErr result (nodes.new ≡ nodes.old) }
{
    if len < half {
        return Ok(half);
    }
    let wide = if half == 0 { 1 } else { 2 * half };
    if wide > usize::MAX / 2 {
        return Err(AllocError);
    }
    *nodes = grown(alloc, nodes, half, wide)?;
    Ok(wide)
}
