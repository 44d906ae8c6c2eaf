//! Fields of metadata. Each reader returns a value and the bytes behind it.

ghost use Rattle.std.specs.Prelude.{◌≡◌};
ghost use Rattle.vx_byte_reader.specs.Fields.{front_at as first_bytes};
ghost use Rattle.vx_metadata.specs.Reading.{ptype_in, flag_in, count_at as one_count, string_at as one_string, name_at as one_name};
ghost use Rattle.vx_metadata.specs.Views.{Reads};

use crate::read_error::ReadError;
use std::alloc::Global;
use vx_byte_reader::{front_at, u32_at};
use vx_model::{Blob, PType, Text};

/// The integer type whose number the byte is.
#[tactic(auto, using(crate::proofs::PTypes::ptype_rules))]
pub(crate) fn ptype_of(byte: u8) -> Option<PType>
    ensures { result ≡ ptype_in byte }
{
    PType::from_number(byte)
}

/// A flag of one byte.
pub(crate) fn flag_of(byte: u8) -> Option<bool>
    ensures { result ≡ flag_in byte }
{
    match byte {
        0 => Some(false),
        1 => Some(true),
        _ => None,
    }
}

fn slice_of(n: u32, bytes: &[u8]) -> Result<(&[u8], &[u8]), ReadError>
    ensures { Reads (λ x. (x.0.now, x.1.now)) result (first_bytes n bytes.now) }
{
    match front_at(n as u64, bytes) {
        Some(field) => Ok(field),
        None => Err(ReadError::NotSpelled),
    }
}

/// A length or a count.
pub(crate) fn count_at(bytes: &[u8]) -> Result<(u32, &[u8]), ReadError>
    ensures { Reads (λ x. (x.0, x.1.now)) result (one_count bytes.now) }
{
    match u32_at(bytes) {
        Some(field) => Ok(field),
        None => Err(ReadError::NotSpelled),
    }
}

#[tactic(auto, unfolding(crate::specs::Reading::string_at))]
fn slice_at(bytes: &[u8]) -> Result<(&[u8], &[u8]), ReadError>
    ensures { Reads (λ x. (x.0.now, x.1.now)) result (one_string bytes.now) }
{
    let (length, rest) = count_at(bytes)?;
    slice_of(length, rest)
}

pub(crate) fn blob_at(alloc: Global, bytes: &[u8]) -> Result<(Blob, &[u8]), ReadError>
    ensures { Reads (λ x. (x.0, x.1.now)) result (one_string bytes.now) }
{
    let (blob, rest) = slice_at(bytes)?;
    Ok((Blob::from_slice(alloc, blob)?, rest))
}

#[tactic(auto, unfolding(crate::specs::Reading::name_at))]
pub(crate) fn text_at(alloc: Global, bytes: &[u8]) -> Result<(Text, &[u8]), ReadError>
    ensures { Reads (λ x. (x.0, x.1.now)) result (one_name bytes.now) }
{
    let (text, rest) = slice_at(bytes)?;
    let Ok(text) = str::from_utf8(text) else {
        return Err(ReadError::NotSpelled);
    };
    Ok((Text::from_str(alloc, text)?, rest))
}
