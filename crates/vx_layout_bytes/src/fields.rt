//! Fields of a node. Each reader takes a value from the front of the bytes, which end at the place `stop`.

ghost use Rattle.std.specs.Prelude.{◌≡◌, ◌-◌, length};
ghost use Rattle.std.specs.Int.{w16, w32, w64};
ghost use Rattle.vx_byte_reader.specs.Places.{many_at};
ghost use Rattle.vx_layout_bytes.specs.Reading.{number_at, bytes_at, numbered_at as numbered_bytes, segments_at as listed_segments};
ghost use Rattle.vx_layout_bytes.specs.Views.{Gives};

use crate::error::GrammarError;
use bytes::{Buf, Bytes};
use std::alloc::Global;

/// The place at which the bytes that are left begin.
pub(crate) fn place_of(stop: u64, rest: &Bytes) -> u64
    ensures { result ≡ stop - length rest.now }
{
    stop.saturating_sub(rest.len() as u64)
}

#[tactic(auto, unfolding(vx_byte_reader::specs::Fields::number_at, vx_byte_reader::specs::Fields::front_at))]
pub(crate) fn u16_at(stop: u64, bytes: &mut Bytes) -> Result<u16, GrammarError>
    ensures { Gives (λ n. (n, bytes.new)) result (number_at w16 stop bytes.old) }
{
    match bytes.try_get_u16_le() {
        Ok(number) => Ok(number),
        Err(_) => Err(GrammarError::Grammar(place_of(stop, bytes))),
    }
}

#[tactic(auto, unfolding(vx_byte_reader::specs::Fields::number_at, vx_byte_reader::specs::Fields::front_at))]
fn u32_at(stop: u64, bytes: &mut Bytes) -> Result<u32, GrammarError>
    ensures { Gives (λ n. (n, bytes.new)) result (number_at w32 stop bytes.old) }
{
    match bytes.try_get_u32_le() {
        Ok(number) => Ok(number),
        Err(_) => Err(GrammarError::Grammar(place_of(stop, bytes))),
    }
}

#[tactic(auto, unfolding(vx_byte_reader::specs::Fields::number_at, vx_byte_reader::specs::Fields::front_at))]
pub(crate) fn u64_at(stop: u64, bytes: &mut Bytes) -> Result<u64, GrammarError>
    ensures { Gives (λ n. (n, bytes.new)) result (number_at w64 stop bytes.old) }
{
    match bytes.try_get_u64_le() {
        Ok(number) => Ok(number),
        Err(_) => Err(GrammarError::Grammar(place_of(stop, bytes))),
    }
}

/// So many bytes, as a part of the same memory.
#[tactic(auto, unfolding(vx_byte_reader::specs::Fields::front_at))]
fn part_at(stop: u64, n: u64, bytes: &mut Bytes) -> Result<Bytes, GrammarError>
    ensures { Gives (λ part. (part, bytes.new)) result (bytes_at n stop bytes.old) }
{
    if (bytes.len() as u64) < n {
        return Err(GrammarError::Grammar(place_of(stop, bytes)));
    }
    Ok(bytes.split_to(n as usize)?)
}

/// Bytes behind their number.
#[tactic(auto, unfolding(crate::specs::Reading::numbered_at))]
pub(crate) fn numbered_at(stop: u64, bytes: &mut Bytes) -> Result<Bytes, GrammarError>
    ensures { Gives (λ part. (part, bytes.new)) result (numbered_bytes stop bytes.old) }
{
    let length = u64_at(stop, bytes)?;
    part_at(stop, length, bytes)
}

/// So many segments. The bytes bound their number, whatever `count` claims.
fn many_segments(
    alloc: Global,
    stop: u64,
    count: u64,
    bytes: &mut Bytes,
) -> Result<Vec<u32>, GrammarError>
    ensures { Gives (λ v. (v.items, bytes.new)) result (many_at (number_at w32 stop) count bytes.old) }
{
    let mut segments = Vec::new(alloc);
    for _ in 0..count {
        let segment = u32_at(stop, bytes)?;
        segments.push(segment)?;
    }
    Ok(segments)
}

/// Segments behind their number.
#[tactic(auto, unfolding(crate::specs::Reading::segments_at))]
pub(crate) fn segments_at(
    alloc: Global,
    stop: u64,
    bytes: &mut Bytes,
) -> Result<Vec<u32>, GrammarError>
    ensures { Gives (λ v. (v.items, bytes.new)) result (listed_segments stop bytes.old) }
{
    let count = u64_at(stop, bytes)?;
    many_segments(alloc, stop, count, bytes)
}
