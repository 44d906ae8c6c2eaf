//! Writers of paths in tables.

use crate::fields::push_path;
use crate::strategies::flat;
use std::alloc::{AllocError, Global};
use vx_case_lines::{Answer, halves};
use vx_field_path::FieldPath;
use vx_model::Text;
use vx_strategy::{BuildError, TableStrategy};

/// Whether there is a table, or which paths overlap.
pub(crate) fn tell(alloc: Global, answer: &mut Answer, given: &str) {
    let (standing, new) = halves(given);
    match paths(alloc, standing, new) {
        Ok((standing, new)) => match with_writers(alloc, standing, new) {
            Ok(table) => {
                drop(table);
                answer.push_str("Ok");
            }
            Err(error) => {
                match &error {
                    BuildError::OverlappingPath(standing, new) => {
                        push_path(answer, "standing", standing);
                        push_path(answer, ", new", new);
                    }
                    error => answer.push_debug(error),
                }
                drop(error);
            }
        },
        Err(error) => answer.push(error),
    }
}

fn paths(alloc: Global, standing: &str, new: &str) -> Result<(FieldPath, FieldPath), AllocError> {
    let standing = path(alloc, standing)?;
    Ok((standing, path(alloc, new)?))
}

/// The path of one name.
fn path(alloc: Global, name: &str) -> Result<FieldPath, AllocError> {
    FieldPath::from_name(alloc, Text::from_str(alloc, name)?)?.clone()
}

/// A table whose leaf, validity and lists were set after it was made.
fn table(alloc: Global) -> Result<TableStrategy, BuildError> {
    TableStrategy::new(alloc, flat(), flat())?
        .with_default_strategy(alloc, flat())?
        .with_validity_strategy(alloc, flat())?
        .with_list_layout(alloc)
}

/// The table with writers of both paths.
fn with_writers(
    alloc: Global,
    standing: FieldPath,
    new: FieldPath,
) -> Result<TableStrategy, BuildError> {
    table(alloc)?
        .with_field_writer(alloc, standing, flat())?
        .with_field_writer(alloc, new, flat())
}
