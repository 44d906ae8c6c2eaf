//! Strings as a segment has them.

ghost use Rattle.std.specs.Prelude.{◌≡◌, ◌<◌, ◌≤◌, ◌++◌, [], if◌then◌else◌, true, length, drop, slice_index_or, OnOk};
ghost use Rattle.vx_model.specs.Words.{joined_by, head_or};
ghost use Rattle.vx_model.specs.CellData.{text_spelling, null_cell, flag_bytes, u64_bytes};
ghost use Rattle.vx_typed.specs.Typed.{typed_cells};
ghost use Rattle.vx_strings.specs.StringCells.{strings_between, string_cell, AreStrings};

use crate::kind::StringKind;
use crate::read::string_at;
use std::alloc::AllocError;
use vx_chunk_cells::flag_at;

/// The length of a string behind the flag of a nullable type.
#[tactic(auto, using(crate::proofs::StringSteps::row_rules))]
#[inline(always)]
fn push_head(nullable: bool, count: usize, out: &mut Vec<u8>) -> Result<(), AllocError>
    ensures { OnOk result (out.new.items ≡ out.old.items ++ (flag_bytes nullable true ++ u64_bytes count)) }
{
    let [a, b, c, d, e, f, g, h] = (count as u64).to_le_bytes();
    if nullable {
        out.extend_from_slice(&[1, a, b, c, d, e, f, g, h])
    } else {
        out.extend_from_slice(&[a, b, c, d, e, f, g, h])
    }
}

#[tactic(auto, using(crate::proofs::StringSteps::row_rules))]
#[inline(always)]
fn push_string(
    nullable: bool,
    kind: StringKind,
    string: &[u8],
    out: &mut Vec<u8>,
) -> Result<(), AllocError>
    ensures { OnOk result (out.new.items ≡ out.old.items ++ text_spelling nullable (string_cell kind string.now)) }
{
    push_head(nullable, string.len(), out)?;
    out.extend_from_slice(string)
}

#[tactic(auto, using(crate::proofs::StringSteps::row_rules))]
#[inline(always)]
fn push_null(nullable: bool, out: &mut Vec<u8>) -> Result<(), AllocError>
    ensures { OnOk result (out.new.items ≡ out.old.items ++ text_spelling nullable null_cell) }
{
    if nullable {
        out.push(0)?;
    }
    Ok(())
}

#[tactic(auto, using(crate::proofs::StringSteps::row_rules))]
#[inline(always)]
fn push_row(
    nullable: bool,
    kind: StringKind,
    bytes: &[u8],
    offsets: &[u64],
    valid: &[bool],
    row: usize,
    out: &mut Vec<u8>,
) -> Result<(), AllocError>
    requires strings { AreStrings kind bytes.now offsets.now }
    requires row { row < length (strings_between bytes.now offsets.now) }
    ensures { OnOk result (out.new.items ≡ out.old.items ++ text_spelling nullable (if head_or true (drop row valid.now) then string_cell kind (slice_index_or (strings_between bytes.now offsets.now) row []) else null_cell)) }
{
    if !flag_at(valid, row) {
        return push_null(nullable, out);
    }
    push_string(nullable, kind, string_at(kind, bytes, offsets, row), out)
}

/// What the bytes of strings between these offsets take; more where some are null.
pub(crate) fn room(nullable: bool, offsets: &[u64]) -> usize
    requires { 1 ≤ length offsets.now }
{
    let rows = offsets.len() - 1;
    let strings = offsets[rows].saturating_sub(offsets[0]) as usize;
    rows.saturating_mul(8 + usize::from(nullable))
        .saturating_add(strings)
}

/// The bytes of strings with their flags, behind what was there.
#[tactic(auto, using(crate::proofs::StringSteps::loop_rules))]
pub(crate) fn push_strings(
    nullable: bool,
    kind: StringKind,
    bytes: &[u8],
    offsets: &[u64],
    valid: &[bool],
    out: &mut Vec<u8>,
) -> Result<(), AllocError>
    requires { AreStrings kind bytes.now offsets.now }
    ensures { OnOk result (out.new.items ≡ out.old.items ++ joined_by (text_spelling nullable) (typed_cells (string_cell kind) (strings_between bytes.now offsets.now) valid.now)) }
{
    for row in 0..offsets.len() - 1 {
        push_row(nullable, kind, bytes, offsets, valid, row, out)?;
    }
    Ok(())
}
