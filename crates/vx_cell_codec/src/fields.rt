//! Fields of cells: flags, numbers, integers, texts. Each reader returns a value and the bytes behind it.

ghost use Rattle.std.specs.Prelude.{◌≡◌, length, IfOk};
ghost use Rattle.vx_model.specs.Numbers.{ptype_bytes};
ghost use Rattle.vx_byte_reader.specs.Fields.{front_at as first_bytes, flag_at as one_flag};
ghost use Rattle.vx_cell_codec.specs.Reading.{number_at as one_number, blob_at as one_blob, text_at as one_text, int_from as int_in, int_at as one_int, valid_at as one_valid};
ghost use Rattle.vx_cell_codec.specs.Views.{Gives};

use crate::error::CellError;
use std::alloc::Global;
use vx_byte_reader::{front_at, u64_at};
use vx_model::{Blob, PType, Text};

fn slice_of(n: u64, bytes: &[u8]) -> Result<(&[u8], &[u8]), CellError>
    ensures front { Gives (λ x. (x.0.now, x.1.now)) result (first_bytes n bytes.now) }
    ensures count { IfOk result (λ x. length x.0.now ≡ n) }
{
    match front_at(n, bytes) {
        Some(field) => Ok(field),
        None => Err(CellError::NoCells),
    }
}

pub(crate) fn flag_at(bytes: &[u8]) -> Result<(bool, &[u8]), CellError>
    ensures { Gives (λ x. (x.0, x.1.now)) result (one_flag bytes.now) }
{
    match vx_byte_reader::flag_at(bytes) {
        Some(field) => Ok(field),
        None => Err(CellError::NoCells),
    }
}

/// Whether a cell is valid, where a type that isn't nullable has no flag.
#[tactic(auto, unfolding(crate::specs::Reading::valid_at))]
pub(crate) fn valid_at(nullable: bool, bytes: &[u8]) -> Result<(bool, &[u8]), CellError>
    ensures { Gives (λ x. (x.0, x.1.now)) result (one_valid nullable bytes.now) }
{
    if nullable {
        return flag_at(bytes);
    }
    Ok((true, bytes))
}

/// A length or a count.
pub(crate) fn number_at(bytes: &[u8]) -> Result<(u64, &[u8]), CellError>
    ensures { Gives (λ x. (x.0, x.1.now)) result (one_number bytes.now) }
{
    match u64_at(bytes) {
        Some(field) => Ok(field),
        None => Err(CellError::NoCells),
    }
}

#[tactic(auto, unfolding(crate::specs::Reading::blob_at))]
fn slice_at(bytes: &[u8]) -> Result<(&[u8], &[u8]), CellError>
    ensures { Gives (λ x. (x.0.now, x.1.now)) result (one_blob bytes.now) }
{
    let (length, rest) = number_at(bytes)?;
    slice_of(length, rest)
}

pub(crate) fn blob_at(alloc: Global, bytes: &[u8]) -> Result<(Blob, &[u8]), CellError>
    ensures { Gives (λ x. (x.0, x.1.now)) result (one_blob bytes.now) }
{
    let (blob, rest) = slice_at(bytes)?;
    Ok((Blob::from_slice(alloc, blob)?, rest))
}

#[tactic(auto, unfolding(crate::specs::Reading::text_at))]
pub(crate) fn text_at(alloc: Global, bytes: &[u8]) -> Result<(Text, &[u8]), CellError>
    ensures { Gives (λ x. (x.0, x.1.now)) result (one_text bytes.now) }
{
    let (text, rest) = slice_at(bytes)?;
    let Ok(text) = str::from_utf8(text) else {
        return Err(CellError::NoCells);
    };
    Ok((Text::from_str(alloc, text)?, rest))
}

fn int_from(ptype: PType, s: &[u8]) -> i128
    requires { length s.now ≡ ptype_bytes ptype }
    ensures { result ≡ int_in ptype s.now }
{
    match ptype {
        PType::U8 => s[0] as i128,
        PType::U16 => u16::from_le_bytes([s[0], s[1]]) as i128,
        PType::U32 => u32::from_le_bytes([s[0], s[1], s[2], s[3]]) as i128,
        PType::U64 => u64::from_le_bytes([s[0], s[1], s[2], s[3], s[4], s[5], s[6], s[7]]) as i128,
        PType::I8 => i8::from_le_bytes([s[0]]) as i128,
        PType::I16 => i16::from_le_bytes([s[0], s[1]]) as i128,
        PType::I32 => i32::from_le_bytes([s[0], s[1], s[2], s[3]]) as i128,
        PType::I64 => i64::from_le_bytes([s[0], s[1], s[2], s[3], s[4], s[5], s[6], s[7]]) as i128,
    }
}

#[tactic(auto, unfolding(crate::specs::Reading::int_at))]
pub(crate) fn int_at(ptype: PType, bytes: &[u8]) -> Result<(i128, &[u8]), CellError>
    ensures { Gives (λ x. (x.0, x.1.now)) result (one_int ptype bytes.now) }
{
    let (front, rest) = slice_of(ptype.byte_width(), bytes)?;
    Ok((int_from(ptype, front), rest))
}
