//! Numbers and Bools, read one after the other.

ghost use Rattle.std.specs.Prelude.{◌≡◌, true, false, if◌then◌else◌, [], option_map};
ghost use Rattle.vx_model.specs.CellData.{null_cell};
ghost use Rattle.vx_byte_reader.specs.Fields.{many_at};
ghost use Rattle.vx_cell_codec.specs.Reading.{cell_at, cells_at};
ghost use Rattle.vx_cell_codec.specs.Views.{Gives};
ghost use Rattle.vx_typed.specs.Typed.{typed_cells};

use crate::readable::Readable;
use std::alloc::Global;
use vx_byte_reader::flag_at;
use vx_cell_codec::CellError;
use vx_typed::Leaves;

/// So many values of a type, nullable or not, which fill the bytes.
#[tactic(auto, using(crate::proofs::LeafSteps::fill_rules), unfolding(vx_cell_codec::specs::Reading::cells_at))]
pub(crate) fn read_leaves<T: Readable>(
    alloc: Global,
    nullable: bool,
    rows: u64,
    bytes: &[u8],
) -> Result<Leaves<T>, CellError>
    ensures { Gives (λ c. c) result (cells_at (T.kind nullable) rows bytes.now) }
{
    if nullable {
        let (items, flags, rest) = take_flagged::<T>(alloc, rows, bytes)?;
        if !rest.is_empty() {
            return Err(CellError::NoCells);
        }
        return Ok(Leaves::with_flags(alloc, items, flags)?);
    }
    let (items, rest) = take_plain::<T>(alloc, rows, bytes)?;
    if !rest.is_empty() {
        return Err(CellError::NoCells);
    }
    Ok(Leaves::new(alloc, items)?)
}

/// So many values of a type that isn't nullable, and the bytes behind them. The bytes bound their number, whatever
/// `rows` claims.
fn take_plain<T: Readable>(
    alloc: Global,
    rows: u64,
    bytes: &[u8],
) -> Result<(Vec<T>, &[u8]), CellError>
    ensures { Gives (λ x. (typed_cells T.as_cell x.0.items [], x.1.now)) result (many_at (cell_at (T.kind false)) rows bytes.now) }
{
    let mut items = Vec::with_capacity(alloc, (rows as usize).min(bytes.len()))?;
    let mut rest = bytes;
    for _ in 0..rows {
        let Some((value, after)) = T::take(rest) else {
            return Err(CellError::NoCells);
        };
        items.push(value)?;
        rest = after;
    }
    Ok((items, rest))
}

/// So many values of a nullable type, a flag each, and the bytes behind them.
fn take_flagged<T: Readable>(
    alloc: Global,
    rows: u64,
    bytes: &[u8],
) -> Result<(Vec<T>, Vec<bool>, &[u8]), CellError>
    ensures { Gives (λ x. (typed_cells T.as_cell x.0.items x.1.items, x.2.now)) result (many_at (cell_at (T.kind true)) rows bytes.now) }
{
    let room = (rows as usize).min(bytes.len());
    let mut items = Vec::with_capacity(alloc, room)?;
    let mut valid = Vec::with_capacity(alloc, room)?;
    let mut rest = bytes;
    for _ in 0..rows {
        let Some((flag, value, after)) = take_row::<T>(rest) else {
            return Err(CellError::NoCells);
        };
        items.push(value)?;
        valid.push(flag)?;
        rest = after;
    }
    Ok((items, valid, rest))
}

/// A row of a nullable type: whether it is valid, its value, and the bytes behind it.
#[inline(always)]
fn take_row<T: Readable>(bytes: &[u8]) -> Option<(bool, T, &[u8])>
    ensures { option_map (λ x. ((if x.0 then T.as_cell x.1 else null_cell), x.2.now)) result ≡ cell_at (T.kind true) bytes.now }
{
    let (valid, rest) = flag_at(bytes)?;
    if !valid {
        return Some((false, T::blank(), rest));
    }
    let (value, rest) = T::take(rest)?;
    Some((true, value, rest))
}
