//! Times of filters, of the hash that they store, and of a write by columns. Without an argument a short run that prints no
//! times; with a count, as 1000000, the nanoseconds of an insert and of a lookup, by vectors and in the plain form, and of a
//! hash, each the least of many short rounds, so that other work on the machine tells little; and the microseconds of a write
//! of eight columns of 100,000 rows, by one machine and column by column.
#![tactic(auto)]

ghost use Rattle.std.specs.Prelude.{◌+◌, ◌≤◌, length};

mod columns;

use anyhow::Result;
use columns::{Size, print_columns};
use std::env;
use std::time::Instant;
use vx_bloom::{BloomOptions, BloomPartial};
use vx_bloom_plain::PlainFilter;
use vx_hash::{ByteHash, XxHash3_64};

const BLOCKS: u32 = 256;

/// Inserts, lookups and hashes of a round.
const ROUND: u64 = 1000;

const BUFFER_LEN: usize = 65600;

type Partial = BloomPartial<XxHash3_64>;

/// A filter in both forms.
#[derive(Drop)]
struct Filters {
    lanes: Partial,
    plain: PlainFilter,
}

/// The least nanoseconds of a round.
#[derive(Clone, Copy)]
struct Times {
    insert: u128,
    insert_plain: u128,
    lookup: u128,
    lookup_plain: u128,
}

fn insert_all(lanes: &mut Partial, from: u64) {
    for i in 0..ROUND {
        lanes.insert(&from.wrapping_add(i).to_le_bytes());
    }
}

fn insert_all_plain(plain: &mut PlainFilter, from: u64) {
    for i in 0..ROUND {
        plain.insert_hash(XxHash3_64::oneshot(&from.wrapping_add(i).to_le_bytes()));
    }
}

fn found_of(lanes: &Partial, from: u64) -> u64 {
    let mut found = 0u64;
    for i in 0..ROUND {
        found = found.wrapping_add(u64::from(lanes.contains(&from.wrapping_add(i).to_le_bytes())));
    }
    found
}

fn found_of_plain(plain: &PlainFilter, from: u64) -> u64 {
    let mut found = 0u64;
    for i in 0..ROUND {
        let hash = XxHash3_64::oneshot(&from.wrapping_add(i).to_le_bytes());
        found = found.wrapping_add(u64::from(plain.contains_hash(hash)));
    }
    found
}

/// The hashes of so many bytes from the first few places of the buffer on, by exclusive or.
fn hash_all(buffer: &[u8], len: usize, rounds: u64) -> u64
    requires { len + 64 ≤ length buffer.now }
{
    let mut all = 0;
    for round in 0..rounds {
        let at = (round % 64) as usize;
        all ^= XxHash3_64::oneshot(&buffer[at..at + len]);
    }
    all
}

/// One round of each, from a number on; the numbers found in both forms.
fn filter_round(
    rt: &HostRuntime,
    filters: &mut Filters,
    from: u64,
    least: &mut Times,
) -> Result<(u64, u64)> {
    let start = Instant::now(rt)?;
    insert_all(&mut filters.lanes, from);
    least.insert = least.insert.min(start.elapsed(rt)?.as_nanos());
    let start = Instant::now(rt)?;
    insert_all_plain(&mut filters.plain, from);
    least.insert_plain = least.insert_plain.min(start.elapsed(rt)?.as_nanos());
    let start = Instant::now(rt)?;
    let found = found_of(&filters.lanes, from);
    least.lookup = least.lookup.min(start.elapsed(rt)?.as_nanos());
    let start = Instant::now(rt)?;
    let found_plain = found_of_plain(&filters.plain, from);
    least.lookup_plain = least.lookup_plain.min(start.elapsed(rt)?.as_nanos());
    Ok((found, found_plain))
}

/// The least nanoseconds of a hash, times 1,000, and what the hashes give.
fn hash_rounds(rt: &HostRuntime, buffer: &[u8], len: usize, rounds: u64) -> Result<(u128, u64)>
    requires { len + 64 ≤ length buffer.now }
{
    let each = if len < 10_000 { ROUND } else { 10 };
    let mut least = u128::MAX;
    let mut all = 0;
    for _ in 0..rounds {
        let start = Instant::now(rt)?;
        all ^= hash_all(buffer, len, each);
        least = least.min(start.elapsed(rt)?.as_nanos());
    }
    Ok((least.wrapping_mul(1000) / u128::from(each.max(1)), all))
}

fn print_hash(rt: &HostRuntime, buffer: &[u8], len: usize, rounds: u64, timed: bool) -> Result<()>
    requires { len + 64 ≤ length buffer.now }
{
    let (picos, hash) = hash_rounds(rt, buffer, len, rounds)?;
    if timed {
        println!(rt;
            "hash of {len}: {} ps, {} MB/s",
            picos,
            (len as u128).wrapping_mul(1_000_000) / picos.max(1)
        )?;
    } else {
        println!(rt; "hash of {len}: {hash:016x}")?;
    }
    Ok(())
}

fn print_filters(rt: &HostRuntime, rounds: u64, timed: bool) -> Result<()> {
    let mut filters = Filters {
        lanes: Partial::from(rt.alloc(), &BloomOptions::default())?,
        plain: PlainFilter::new(rt.alloc(), BLOCKS)?,
    };
    let mut least = Times {
        insert: u128::MAX,
        insert_plain: u128::MAX,
        lookup: u128::MAX,
        lookup_plain: u128::MAX,
    };
    let mut found = (0u64, 0u64);
    for round in 0..rounds {
        let more = filter_round(rt, &mut filters, round.wrapping_mul(ROUND), &mut least)?;
        found = (found.0.wrapping_add(more.0), found.1.wrapping_add(more.1));
    }
    println!(rt; "{} found, {} in the plain form", found.0, found.1)?;
    if timed {
        println!(rt;
            "insert: {} ps, plain {} ps",
            least.insert, least.insert_plain
        )?;
        println!(rt;
            "lookup: {} ps, plain {} ps",
            least.lookup, least.lookup_plain
        )?;
    }
    Ok(())
}

fn main(rt: HostRuntime) -> Result<()> {
    let timed = match env::args(&rt)?.nth(1) {
        Some(count) => Some(count.as_str().parse::<u64>()?),
        None => None,
    };
    let rounds = timed.unwrap_or(1000) / ROUND;
    let mut buffer = [0u8; BUFFER_LEN];
    for i in 0..BUFFER_LEN {
        buffer[i] = (i % 251) as u8;
    }
    print_filters(&rt, rounds, timed.is_some())?;
    print_hash(&rt, &buffer, 64, rounds, timed.is_some())?;
    print_hash(&rt, &buffer, 1024, rounds, timed.is_some())?;
    print_hash(&rt, &buffer, 65536, rounds, timed.is_some())?;
    let (batches, rows, times) = if timed.is_some() {
        (10, 10_000, 5)
    } else {
        (2, 4, 1)
    };
    print_columns(&rt, &rt, Size { batches, rows }, times, timed.is_some())?;
    Ok(())
}
