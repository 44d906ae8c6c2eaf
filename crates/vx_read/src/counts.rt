//! Rows of several children together: their numbers, and one behind the other.

ghost use Rattle.std.specs.Prelude.{◌≡◌, map, IfOk};
ghost use Rattle.vx_model.specs.TreeView.{val};
ghost use Rattle.vx_layout_spec.specs.Rows.{joined};
ghost use Rattle.vx_read.specs.Parts.{rows_in};
ghost use Rattle.vx_read.specs.Reading.{count_fault, counts_fault, ends_fault};
ghost use Rattle.vx_read.specs.Answers.{TellsFault};

use std::alloc::{AllocError, Global};
use vx_model::Value;
use vx_segment_map::ReadError;

/// Whether the rows are as many as they must be.
#[tactic(auto, using(crate::proofs::PartSteps::count_rules))]
pub(crate) fn test_count(rows: &[Value], needs: u64) -> Result<(), ReadError>
    ensures { TellsFault result (count_fault needs (map val rows.now)) }
{
    let has = rows.len() as u64;
    if has != needs {
        return Err(ReadError::Rows {
            has,
            needs: i128::from(needs),
        });
    }
    Ok(())
}

/// Whether each of several has so many rows.
#[tactic(auto, using(crate::proofs::PartSteps::count_rules))]
pub(crate) fn test_counts(parts: &[Vec<Value>], needs: u64) -> Result<(), ReadError>
    ensures { TellsFault result (counts_fault needs (map rows_in parts.now)) }
{
    for part in parts {
        test_count(part, needs)?;
    }
    Ok(())
}

/// Whether offsets are those of so many lists.
#[tactic(auto, using(crate::proofs::PartSteps::count_rules))]
pub(crate) fn test_ends(offsets: &[Value], lists: u64) -> Result<(), ReadError>
    ensures { TellsFault result (ends_fault lists (map val offsets.now)) }
{
    let has = offsets.len() as u64;
    if has.saturating_sub(1) != lists {
        return Err(ReadError::Rows {
            has,
            needs: i128::from(lists) + 1,
        });
    }
    Ok(())
}

/// The rows one behind the other.
#[tactic(auto, using(crate::proofs::PartSteps::join_rules))]
pub(crate) fn joined(alloc: Global, parts: Vec<Vec<Value>>) -> Result<Vec<Value>, AllocError>
    ensures { IfOk result (λ v. rows_in v ≡ joined (map rows_in parts.items)) }
{
    let mut rows = Vec::new(alloc);
    for mut part in parts {
        rows.append(&mut part)?;
    }
    Ok(rows)
}
