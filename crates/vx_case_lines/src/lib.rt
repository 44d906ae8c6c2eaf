//! What the cases have in common: lines, their parts, bytes as hex text, and the text of answers.
#![tactic(auto)]

ghost use Rattle.std.specs.Prelude.{◌≡◌, ◌==◌, Ok, IfOk};
ghost use Rattle.std.specs.List.{before_first, after_first};
ghost use Rattle.hex.specs.Hex.{decode_of};

mod answer;

pub use answer::Answer;
use anyhow::Result;
use std::alloc::{AllocError, Global};

/// Whether the line is a case: it isn't empty and doesn't begin with `#`.
pub fn is_case(line: &str) -> bool {
    !line.is_empty() && !line.starts_with('#')
}

/// The text before the first space, and the text behind it.
pub fn cut(text: &str) -> (&str, &str)
    ensures before { result.0.now ≡ before_first (λ b. b == 32) text.now }
    ensures behind { result.1.now ≡ after_first (λ b. b == 32) text.now }
{
    match text.split_once(' ') {
        Some((before, behind)) => (before, behind),
        None => (text, ""),
    }
}

/// The first part, and the parts behind it; nothing behind where it is one part alone.
pub fn halves(text: &str) -> (&str, &str) {
    text.split_once(" / ").unwrap_or((text, ""))
}

/// What stands before ` = `, and the object behind it.
pub fn asked(text: &str) -> (&str, &str) {
    text.split_once(" = ").unwrap_or((text, ""))
}

/// The number that the text is; 0 where it is none.
pub fn number(text: &str) -> u64 {
    text.parse::<u64>().unwrap_or(0)
}

/// The bytes that the hex text is.
pub fn bytes_of(alloc: Global, digits: &str) -> Result<Vec<u8>>
    ensures { IfOk result (λ v. decode_of digits.now ≡ Ok v.items) }
{
    Ok(hex::decode(alloc, digits)?)
}

/// The value in a box. One that is wide and lives beside a `?` makes a proof long, and its box doesn't.
pub fn boxed<T: Drop>(alloc: Global, value: T) -> Result<Box<T>, AllocError> {
    Ok(Box::new(alloc, value)?)
}
