//! Masks of fields.

use std::alloc::{AllocError, Global};
use vx_case_lines::Answer;
use vx_field_path::{FieldMask, FieldPath};
use vx_model::Text;

/// The mask below the first name is what the mask becomes, so it is told behind what the mask is.
pub(crate) fn tell(alloc: Global, answer: &mut Answer, given: &str) {
    match mask(alloc, given) {
        Ok(mask) => {
            let mut rest = Answer::new(alloc);
            write!(rest, ", all fields {}, first ", mask.matches_all());
            match mask.starting_field() {
                Some(name) => rest.push_str(name.as_str()),
                None => rest.push_str("-"),
            }
            answer.push_str("below ");
            push_mask(answer, mask.step_into().as_ref());
            answer.push_all(rest);
        }
        Err(error) => answer.push(error),
    }
}

fn path(alloc: Global, words: &str) -> Result<FieldPath, AllocError> {
    let mut names = Vec::new(alloc);
    for word in words.split_whitespace() {
        names.push(Text::from_str(alloc, word)?)?;
    }
    Ok(FieldPath::from(names))
}

pub(crate) fn mask(alloc: Global, text: &str) -> Result<FieldMask, AllocError> {
    if let Some(names) = text.strip_prefix("prefix") {
        Ok(FieldMask::Prefix(path(alloc, names)?))
    } else if let Some(names) = text.strip_prefix("exact") {
        Ok(FieldMask::Exact(path(alloc, names)?))
    } else {
        Ok(FieldMask::All)
    }
}

/// The mask as it is given, and `-` for none.
pub(crate) fn push_mask(answer: &mut Answer, mask: Option<&FieldMask>) {
    match mask {
        None => answer.push_str("-"),
        Some(FieldMask::All) => answer.push_str("all"),
        Some(FieldMask::Prefix(path)) => push_path(answer, "prefix", path),
        Some(FieldMask::Exact(path)) => push_path(answer, "exact", path),
    }
}

/// A word, and the path's names.
pub(crate) fn push_path(answer: &mut Answer, word: &str, path: &FieldPath) {
    answer.push_str(word);
    for name in path.parts() {
        answer.push_str(" ");
        answer.push_str(name.as_str());
    }
}
