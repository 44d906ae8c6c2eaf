//! Filters by vectors against their plain form.

ghost use Rattle.std.specs.Prelude.{◌≡◌, ◌≤◌, IfOk, length};
ghost use Rattle.std.specs.Int.NonZero.{non_zero_u32_get};

use crate::filters::Partial;
use crate::given::count;
use std::alloc::{AllocError, Global};
use std::num::NonZeroU32;
use vx_bloom::{BloomOptions, HashFn};
use vx_bloom_plain::PlainFilter;
use vx_case_lines::{Answer, cut};
use vx_hash::{ByteHash, XxHash3_64};

fn insert_all(lanes: &mut Partial, from: u64, to: u64)
    ensures { length lanes.new ≡ length lanes.old }
{
    'numbers: for number in from..to {
        lanes.insert(&number.to_le_bytes());
    }
}

fn insert_all_plain(plain: &mut PlainFilter, from: u64, to: u64)
    ensures { length plain.new ≡ length plain.old }
{
    'numbers: for number in from..to {
        plain.insert_hash(XxHash3_64::oneshot(&number.to_le_bytes()));
    }
}

/// The filter of the numbers, each as eight bytes.
#[tactic(auto, using(crate::proofs::Counts::count_rules))]
fn filter_of(alloc: Global, blocks: NonZeroU32, from: u64, to: u64) -> Result<Partial, AllocError>
    ensures { IfOk result (λ p. length p ≡ non_zero_u32_get blocks) }
{
    let options = BloomOptions::new(blocks, HashFn::XxHash3_64);
    let mut lanes = Partial::from(alloc, &options)?;
    insert_all(&mut lanes, from, to);
    Ok(lanes)
}

#[tactic(auto, using(crate::proofs::Counts::count_rules))]
fn plain_filter_of(
    alloc: Global,
    blocks: NonZeroU32,
    from: u64,
    to: u64,
) -> Result<PlainFilter, AllocError>
    ensures { IfOk result (λ p. length p ≡ non_zero_u32_get blocks) }
{
    let mut plain = PlainFilter::new(alloc, blocks.get())?;
    insert_all_plain(&mut plain, from, to);
    Ok(plain)
}

fn are_equal(lanes: &Partial, plain: &PlainFilter, blocks: NonZeroU32) -> bool
    requires lanes { length lanes.now ≡ non_zero_u32_get blocks }
    requires plain { length plain.now ≡ non_zero_u32_get blocks }
{
    'places: for i in 0..u64::from(blocks.get()) {
        if lanes.block(i).to_array() != plain.block(i) {
            return false;
        }
    }
    true
}

/// How many of the numbers the filter may contain.
fn found_of(lanes: &Partial, to: u64) -> u64 {
    let mut found = 0u64;
    for number in 0..to {
        found = found.wrapping_add(u64::from(lanes.contains(&number.to_le_bytes())));
    }
    found
}

fn found_of_plain(plain: &PlainFilter, to: u64) -> u64 {
    let mut found = 0u64;
    for number in 0..to {
        let hash = XxHash3_64::oneshot(&number.to_le_bytes());
        found = found.wrapping_add(u64::from(plain.contains_hash(hash)));
    }
    found
}

/// Of the words `BLOCKS COUNT`: filters of the numbers below the count.
pub(crate) fn tell(alloc: Global, answer: &mut Answer, given: &str) {
    let (blocks, numbers) = cut(given);
    let blocks = NonZeroU32::new(count(blocks)).unwrap_or(NonZeroU32::MIN);
    let lanes = filter_of(alloc, blocks, 0, u64::from(count(numbers)));
    match lanes {
        Ok(lanes) => {
            tell_of(alloc, answer, &lanes, blocks, count(numbers));
            drop(lanes);
        }
        Err(error) => answer.push(error),
    }
}

fn tell_of(alloc: Global, answer: &mut Answer, lanes: &Partial, blocks: NonZeroU32, count: u32)
    requires { length lanes.now ≡ non_zero_u32_get blocks }
{
    let count = u64::from(count);
    match plain_filter_of(alloc, blocks, 0, count) {
        Ok(plain) => {
            write!(answer, "equal {}", are_equal(lanes, &plain, blocks));
            push_unions(alloc, answer, lanes, blocks, count);
            let found = found_of(lanes, 2 * count);
            let found_plain = found_of_plain(&plain, 2 * count);
            write!(answer, ", found {found} {found_plain}, saturated ");
            write!(answer, "{} {}", lanes.is_saturated(), plain.is_saturated());
            drop(plain);
        }
        Err(error) => answer.push(error),
    }
}

/// Whether the filters of the two halves together are the filter, in both forms.
fn push_unions(alloc: Global, answer: &mut Answer, lanes: &Partial, blocks: NonZeroU32, count: u64)
    requires { length lanes.now ≡ non_zero_u32_get blocks }
{
    match plain_union_of(alloc, blocks, count) {
        Ok(plain) => {
            let equal = are_equal(lanes, &plain, blocks);
            drop(plain);
            match union_of(alloc, blocks, count) {
                Ok(united) => {
                    write!(answer, ", unions {}", equal && united == *lanes);
                    drop(united);
                }
                Err(error) => answer.push(error),
            }
        }
        Err(error) => answer.push(error),
    }
}

/// The filter of the two halves together.
fn union_of(alloc: Global, blocks: NonZeroU32, count: u64) -> anyhow::Result<Partial> {
    let half = count / 2;
    let mut first = filter_of(alloc, blocks, 0, half)?;
    first.union(&filter_of(alloc, blocks, half, count)?)?;
    Ok(first)
}

fn plain_union_of(alloc: Global, blocks: NonZeroU32, count: u64) -> Result<PlainFilter, AllocError>
    ensures { IfOk result (λ p. length p ≡ non_zero_u32_get blocks) }
{
    let half = count / 2;
    let mut first = plain_filter_of(alloc, blocks, 0, half)?;
    first.union(&plain_filter_of(alloc, blocks, half, count)?);
    Ok(first)
}
