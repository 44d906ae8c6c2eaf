//! Paths.

use std::alloc::{AllocError, Global};
use vx_case_lines::{Answer, halves, number};
use vx_path::owned::{Path, path_le};

/// Of the words `compare` and `child`.
pub(crate) fn tell(alloc: Global, answer: &mut Answer, word: &str, given: &str) {
    let (first, rest) = halves(given);
    let told = if word == "compare" {
        tell_compared(alloc, answer, first, rest)
    } else {
        tell_child(alloc, answer, first, rest)
    };
    if let Err(error) = told {
        answer.push(error);
    }
}

fn path(alloc: Global, text: &str) -> Result<Path, AllocError> {
    let mut numbers = Vec::new(alloc);
    for word in text.split_whitespace() {
        if word != "-" {
            numbers.push(number(word))?;
        }
    }
    Path::from_slice(alloc, &numbers)
}

fn tell_compared(
    alloc: Global,
    answer: &mut Answer,
    one: &str,
    other: &str,
) -> Result<(), AllocError> {
    let one = path(alloc, one)?;
    let other = path(alloc, other)?;
    let less = one < other;
    let equal = one == other;
    let most = path_le(one.as_slice(), other.as_slice());
    let least = path_le(other.as_slice(), one.as_slice());
    write!(
        answer,
        "less {less}, equal {equal}, at most {most}, at least {least}"
    );
    Ok(())
}

fn tell_child(
    alloc: Global,
    answer: &mut Answer,
    stem: &str,
    rest: &str,
) -> Result<(), AllocError> {
    let (index, copied) = halves(rest);
    let stem = path(alloc, stem)?;
    let child = Path::child(alloc, stem.as_slice(), number(index))?;
    let is_copy = path(alloc, copied)?.clone()? == child;
    write!(answer, "{child:?}, a copy {is_copy}");
    Ok(())
}
