//! Offsets and flags of rows.

ghost use Rattle.std.specs.Prelude.{◌≡◌, List, Bool, suc, IfOk, Some, ℕ};
ghost use Rattle.vx_byte_reader.specs.Fields.{flag_at as one_flag, many_at};
ghost use Rattle.vx_cell_codec.specs.Reading.{number_at as one_number};
ghost use Rattle.vx_cell_codec.specs.Columns.{ascend as ascending, offsets_at, flags_at, AreOffsets, AreFlags};
ghost use Rattle.vx_cell_codec.specs.Views.{Gives};

use crate::error::CellError;
use crate::fields::{flag_at, number_at};
use std::alloc::Global;

/// One number more than rows. The bytes bound their number, whatever `rows` claims.
#[tactic(auto, using(crate::proofs::ColumnLaws::loop_rules))]
fn next_offsets(alloc: Global, rows: u64, bytes: &[u8]) -> Result<(Vec<u64>, &[u8]), CellError>
    ensures { Gives (λ x. (x.0.items, x.1.now)) result (many_at one_number (suc rows) bytes.now) }
{
    let (first, mut rest) = number_at(bytes)?;
    let mut offsets = Vec::new(alloc);
    offsets.push(first)?;
    for _ in 0..rows {
        let (offset, after) = number_at(rest)?;
        offsets.push(offset)?;
        rest = after;
    }
    Ok((offsets, rest))
}

#[tactic(auto, using(crate::proofs::ColumnLaws::loop_rules))]
fn next_flags(alloc: Global, rows: u64, bytes: &[u8]) -> Result<(Vec<bool>, &[u8]), CellError>
    ensures { Gives (λ x. (x.0.items, x.1.now)) result (many_at one_flag rows bytes.now) }
{
    let mut flags = Vec::new(alloc);
    let mut rest = bytes;
    for _ in 0..rows {
        let (flag, after) = flag_at(rest)?;
        flags.push(flag)?;
        rest = after;
    }
    Ok((flags, rest))
}

/// Whether none is below the one before it.
#[tactic(auto, using(crate::proofs::ColumnLaws::order_rules))]
fn ascend(numbers: &[u64]) -> bool
    ensures { result ≡ ascending numbers.now }
{
    for i in 1..numbers.len() {
        if numbers[i - 1] > numbers[i] {
            return false;
        }
    }
    true
}

#[tactic(auto, unfolding(crate::specs::Columns::offsets_at))]
fn all_offsets(alloc: Global, rows: u64, bytes: &[u8]) -> Result<Vec<u64>, CellError>
    ensures { Gives (λ v. v.items) result (offsets_at rows bytes.now) }
{
    let (offsets, rest) = next_offsets(alloc, rows, bytes)?;
    if !rest.is_empty() {
        return Err(CellError::NoCells);
    }
    if !ascend(&offsets) {
        return Err(CellError::NoCells);
    }
    Ok(offsets)
}

#[tactic(auto, unfolding(crate::specs::Columns::flags_at))]
fn all_flags(alloc: Global, rows: u64, bytes: &[u8]) -> Result<Vec<bool>, CellError>
    ensures { Gives (λ v. v.items) result (flags_at rows bytes.now) }
{
    let (flags, rest) = next_flags(alloc, rows, bytes)?;
    if !rest.is_empty() {
        return Err(CellError::NoCells);
    }
    Ok(flags)
}

/// The offsets of so many rows, one more than rows, which ascend and fill the bytes.
pub fn read_offsets(alloc: Global, rows: u64, bytes: &[u8]) -> Result<Vec<u64>, CellError>
    ensures found { IfOk result (λ v. AreOffsets rows bytes.now v.items) }
    ensures only { (os : List ℕ) → AreOffsets rows bytes.now os → Gives (λ v. v.items) result (Some os) }
    ensures exact { Gives (λ v. v.items) result (offsets_at rows bytes.now) }
{
    all_offsets(alloc, rows, bytes)
}

/// The flags of so many rows, each 0 or 1, which fill the bytes.
pub fn read_flags(alloc: Global, rows: u64, bytes: &[u8]) -> Result<Vec<bool>, CellError>
    ensures found { IfOk result (λ v. AreFlags rows bytes.now v.items) }
    ensures only { (bs : List Bool) → AreFlags rows bytes.now bs → Gives (λ v. v.items) result (Some bs) }
    ensures exact { Gives (λ v. v.items) result (flags_at rows bytes.now) }
{
    all_flags(alloc, rows, bytes)
}
