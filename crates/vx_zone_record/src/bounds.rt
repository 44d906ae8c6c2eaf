//! Bounds of texts and bytes, cut to a number of bytes.

ghost use Rattle.std.specs.Prelude.{◌≡◌, ◌<◌, ◌++◌, ◌∷◌, [], suc, Some, None, IfOk, IfNone, IfSome, IsTrue, encode_utf8, encode_utf8_all};
ghost use Rattle.std.specs.Str.{chars, is_utf8};
ghost use Rattle.vx_model.specs.ValueData.{text_value, bytes_value};
ghost use Rattle.vx_model.specs.TreeView.{val};
ghost use Rattle.vx_zone_spec.specs.Bounds.{front_chars, byte_rises, char_rises, next_char, raised_last, upper_bound, lower_bound};
ghost use Rattle.vx_zone_record.specs.Scalars.{scalar_value};

use crate::scalar::{Scalar, to_value};
use std::alloc::{AllocError, Global};
use vx_model::{Blob, Text, Value};

/// At least the value, in so many bytes and at most one more; null where there is no such bound. What isn't a text or
/// bytes stays.
pub(crate) fn upper_bound(alloc: Global, scalar: Scalar<'_>, most: u64) -> Result<Value, AllocError>
    ensures { IfOk result (λ v. val v ≡ upper_bound most (scalar_value scalar.entry)) }
{
    match scalar {
        Scalar::Utf8(text) => upper_text(alloc, text, most),
        Scalar::Binary(bytes) => upper_bytes(alloc, bytes, most),
        _ => to_value(alloc, scalar),
    }
}

/// At most the value, in at most so many bytes. What isn't a text or bytes stays.
pub(crate) fn lower_bound(alloc: Global, scalar: Scalar<'_>, most: u64) -> Result<Value, AllocError>
    ensures { IfOk result (λ v. val v ≡ lower_bound most (scalar_value scalar.entry)) }
{
    match scalar {
        Scalar::Utf8(text) => lower_text(alloc, text, most),
        Scalar::Binary(bytes) => lower_bytes(alloc, bytes, most),
        _ => to_value(alloc, scalar),
    }
}

#[tactic(auto, using(crate::proofs::BoundSteps::bound_rules))]
pub(crate) fn upper_bytes(alloc: Global, bytes: &[u8], most: u64) -> Result<Value, AllocError>
    ensures { IfOk result (λ v. val v ≡ upper_bound most (bytes_value bytes.now)) }
{
    if bytes.len() <= most as usize {
        return Ok(Value::Binary(Blob::from_slice(alloc, bytes)?));
    }
    match last_rising_byte(&bytes[..most as usize]) {
        Some((before, last)) => Ok(Value::Binary(with_byte(alloc, before, last + 1)?)),
        None => Ok(Value::Null),
    }
}

#[tactic(auto, using(crate::proofs::BoundSteps::bound_rules))]
pub(crate) fn lower_bytes(alloc: Global, bytes: &[u8], most: u64) -> Result<Value, AllocError>
    ensures { IfOk result (λ v. val v ≡ lower_bound most (bytes_value bytes.now)) }
{
    let kept = bytes.len().min(most as usize);
    Ok(Value::Binary(Blob::from_slice(alloc, &bytes[..kept])?))
}

#[tactic(auto, using(crate::proofs::BoundSteps::bound_rules))]
pub(crate) fn upper_text(alloc: Global, text: &str, most: u64) -> Result<Value, AllocError>
    ensures { IfOk result (λ v. val v ≡ upper_bound most (text_value text.now)) }
{
    if text.len() <= most as usize {
        return Ok(Value::Utf8(Text::from_str(alloc, text)?));
    }
    match last_rising_char(front(text, most as usize)) {
        Some((before, last)) => { Ok(Value::Utf8(with_char(alloc, before, next_char(last))?)) }
        None => Ok(Value::Null),
    }
}

#[tactic(auto, using(crate::proofs::BoundSteps::bound_rules))]
pub(crate) fn lower_text(alloc: Global, text: &str, most: u64) -> Result<Value, AllocError>
    ensures { IfOk result (λ v. val v ≡ lower_bound most (text_value text.now)) }
{
    if text.len() <= most as usize {
        return Ok(Value::Utf8(Text::from_str(alloc, text)?));
    }
    let kept = front(text, most as usize);
    Ok(Value::Utf8(Text::from_str(alloc, kept)?))
}

/// The longest front of characters that take at most so many bytes.
#[tactic(auto, using(crate::proofs::TextSteps::front_rules))]
fn front(text: &str, most: usize) -> &str
    ensures chars { chars result.now ≡ front_chars most (chars text.now) }
    ensures utf8 { IsTrue (is_utf8 result.now) }
{
    &text[..text.floor_char_boundary(most)]
}

/// The last byte that can be raised, and what stands before it.
#[tactic(auto, using(crate::proofs::BoundSteps::bound_rules))]
fn last_rising_byte(bytes: &[u8]) -> Option<(&[u8], u8)>
    ensures none { IfNone result (raised_last byte_rises suc bytes.now ≡ None) }
    ensures some { IfSome result (λ r. raised_last byte_rises suc bytes.now ≡ Some (r.0.now ++ suc r.1 ∷ [])) }
    ensures rises { IfSome result (λ r. r.1 < 255) }
{
    let mut end = bytes.len();
    while end > 0 {
        let last = bytes[end - 1];
        if last < u8::MAX {
            return Some((&bytes[..end - 1], last));
        }
        end -= 1;
    }
    None
}

/// The last character that can be raised, and what stands before it.
#[tactic(auto, using(crate::proofs::TextSteps::rising_rules))]
fn last_rising_char(text: &str) -> Option<(&str, char)>
    ensures none { IfNone result (raised_last char_rises next_char (chars text.now) ≡ None) }
    ensures some { IfSome result (λ r. raised_last char_rises next_char (chars text.now) ≡ Some (chars r.0.now ++ next_char r.1 ∷ [])) }
    ensures rises { IfSome result (λ r. IsTrue (char_rises r.1)) }
    ensures utf8 { IfSome result (λ r. IsTrue (is_utf8 r.0.now)) }
{
    let mut rest = text.chars();
    while let Some(last) = rest.next_back() {
        let before = rest.as_str();
        if last != char::MAX {
            return Some((before, last));
        }
    }
    None
}

/// The next character. Surrogates are none.
#[tactic(auto, using(crate::proofs::TextSteps::next_rules))]
fn next_char(c: char) -> char
    requires { IsTrue (char_rises c) }
    ensures { result ≡ next_char c }
{
    match char::from_u32(c as u32 + 1) {
        Some(next) => next,
        None => '\u{E000}',
    }
}

fn with_byte(alloc: Global, before: &[u8], last: u8) -> Result<Blob, AllocError>
    ensures { IfOk result (λ b. b ≡ before.now ++ last ∷ []) }
{
    let mut bytes = Vec::with_capacity(alloc, before.len() + 1)?;
    bytes.extend_from_slice(before)?;
    bytes.push(last)?;
    Ok(Blob::from(bytes))
}

fn with_char(alloc: Global, before: &str, last: char) -> Result<Text, AllocError>
    ensures { IfOk result (λ t. t ≡ before.now ++ encode_utf8 last) }
{
    let mut text = String::with_capacity(alloc, before.len() + last.len_utf8())?;
    text.push_str(before)?;
    text.push(last)?;
    Ok(Text::from(text))
}
