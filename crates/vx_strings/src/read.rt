//! Cells of strings, and strings of cells.

ghost use Rattle.std.specs.Prelude.{◌≡◌, ◌<◌, ◌++◌, ◌∷◌, [], if◌then◌else◌, true, false, length, drop, map, slice_index_or, IsTrue, IfOk, IfSome, IfNone, OnOk};
ghost use Rattle.vx_model.specs.Words.{all_by, head_or, total_by};
ghost use Rattle.std.specs.Str.{is_utf8};
ghost use Rattle.vx_model.specs.CellData.{fits, text_fits, bytes_fits, null_cell, text_cell, bytes_cell};
ghost use Rattle.vx_model.specs.TreeView.{tree};
ghost use Rattle.vx_layout_spec.specs.Real.{is_real_cell};
ghost use Rattle.vx_typed.specs.Typed.{typed_cells};
ghost use Rattle.vx_strings.specs.StringCells.{strings_between, is_string, string_cell, string_type, string_length, may_be, AreStrings};
ghost use Rattle.vx_typed.specs.Lent.{lent_cell};

use crate::kind::StringKind;
use std::alloc::{AllocError, Global};
use vx_chunk_cells::flag_at;
use vx_model::{Blob, Cell, Text};
use vx_typed::Lent;

/// The bytes of a row.
#[tactic(auto, using(crate::proofs::StringSteps::at_rules))]
#[inline(always)]
pub(crate) fn string_at<'a>(
    kind: StringKind,
    bytes: &'a [u8],
    offsets: &[u64],
    row: usize,
) -> &'a [u8]
    requires strings { AreStrings kind bytes.now offsets.now }
    requires row { row < length (strings_between bytes.now offsets.now) }
    ensures bytes { result.now ≡ slice_index_or (strings_between bytes.now offsets.now) row [] }
    ensures may_be { IsTrue (may_be kind result.now) }
{
    &bytes[offsets[row] as usize..offsets[row + 1] as usize]
}

/// Does nothing; tells a caller's proof what cells the strings are.
pub(crate) fn are_strings(kind: StringKind, bytes: &[u8], offsets: &[u64], valid: &[bool])
    requires { AreStrings kind bytes.now offsets.now }
    ensures strings { IsTrue (all_by is_string (typed_cells (string_cell kind) (strings_between bytes.now offsets.now) valid.now)) }
    ensures real { IsTrue (all_by is_real_cell (typed_cells (string_cell kind) (strings_between bytes.now offsets.now) valid.now)) }
{
    let _counts = (bytes.len(), offsets.len(), valid.len());
}

/// The length of a row's string; 0 where it is null.
#[tactic(auto, using(crate::proofs::StringSteps::row_rules))]
fn len_at(kind: StringKind, bytes: &[u8], offsets: &[u64], valid: &[bool], row: usize) -> usize
    requires strings { AreStrings kind bytes.now offsets.now }
    requires row { row < length (strings_between bytes.now offsets.now) }
    ensures { result ≡ string_length (if head_or true (drop row valid.now) then string_cell kind (slice_index_or (strings_between bytes.now offsets.now) row []) else null_cell) }
{
    if !flag_at(valid, row) {
        return 0;
    }
    string_at(kind, bytes, offsets, row).len()
}

/// The lengths of all strings together.
#[tactic(auto, using(crate::proofs::StringSteps::loop_rules))]
pub(crate) fn total_len(kind: StringKind, bytes: &[u8], offsets: &[u64], valid: &[bool]) -> u128
    requires { AreStrings kind bytes.now offsets.now }
    ensures { result ≡ total_by string_length (typed_cells (string_cell kind) (strings_between bytes.now offsets.now) valid.now) }
{
    let mut total: u128 = 0;
    for row in 0..offsets.len() - 1 {
        total += len_at(kind, bytes, offsets, valid, row) as u128;
    }
    total
}

/// The cell of a string, a copy.
#[tactic(auto, using(crate::proofs::StringSteps::text_rules))]
fn cell_of(alloc: Global, kind: StringKind, string: &[u8]) -> Result<Cell, AllocError>
    requires { IsTrue (may_be kind string.now) }
    ensures { IfOk result (λ c. tree c ≡ string_cell kind string.now) }
{
    match kind {
        StringKind::Binary => Ok(Cell::Binary(Blob::from_slice(alloc, string)?)),
        StringKind::Utf8 => match str::from_utf8(string) {
            Ok(text) => Ok(Cell::Utf8(Text::from_str(alloc, text)?)),
            Err(_) => unreachable!(),
        },
    }
}

#[tactic(auto, using(crate::proofs::StringSteps::row_rules))]
pub(crate) fn cell_at(
    alloc: Global,
    kind: StringKind,
    bytes: &[u8],
    offsets: &[u64],
    valid: &[bool],
    row: usize,
) -> Result<Cell, AllocError>
    requires strings { AreStrings kind bytes.now offsets.now }
    requires row { row < length (strings_between bytes.now offsets.now) }
    ensures { IfOk result (λ c. tree c ≡ (if head_or true (drop row valid.now) then string_cell kind (slice_index_or (strings_between bytes.now offsets.now) row []) else null_cell)) }
{
    if !flag_at(valid, row) {
        return Ok(Cell::Null);
    }
    cell_of(alloc, kind, string_at(kind, bytes, offsets, row))
}

/// The cell of a string, lent.
#[tactic(auto, using(crate::proofs::StringSteps::text_rules))]
fn lent_of(kind: StringKind, string: &[u8]) -> Lent<'_>
    requires { IsTrue (may_be kind string.now) }
    ensures { lent_cell result ≡ string_cell kind string.now }
{
    match kind {
        StringKind::Binary => Lent::Binary(string),
        StringKind::Utf8 => match str::from_utf8(string) {
            Ok(text) => Lent::Utf8(text),
            Err(_) => unreachable!(),
        },
    }
}

#[tactic(auto, using(crate::proofs::StringSteps::row_rules))]
pub(crate) fn lent_at<'a>(
    kind: StringKind,
    bytes: &'a [u8],
    offsets: &[u64],
    valid: &[bool],
    row: usize,
) -> Lent<'a>
    requires strings { AreStrings kind bytes.now offsets.now }
    requires row { row < length (strings_between bytes.now offsets.now) }
    ensures { lent_cell result ≡ (if head_or true (drop row valid.now) then string_cell kind (slice_index_or (strings_between bytes.now offsets.now) row []) else null_cell) }
{
    if !flag_at(valid, row) {
        return Lent::Null;
    }
    lent_of(kind, string_at(kind, bytes, offsets, row))
}

/// The cells of strings with their flags, behind what was there.
#[tactic(auto, using(crate::proofs::StringSteps::loop_rules))]
pub(crate) fn push_cells(
    kind: StringKind,
    bytes: &[u8],
    offsets: &[u64],
    valid: &[bool],
    out: &mut Vec<Cell>,
) -> Result<(), AllocError>
    requires { AreStrings kind bytes.now offsets.now }
    ensures { OnOk result (map tree out.new.items ≡ map tree out.old.items ++ typed_cells (string_cell kind) (strings_between bytes.now offsets.now) valid.now) }
{
    let alloc = *out.allocator();
    for row in 0..offsets.len() - 1 {
        out.push(cell_at(alloc, kind, bytes, offsets, valid, row)?)?;
    }
    Ok(())
}

/// A string behind the others, and where it ends.
#[tactic(auto, using(crate::proofs::StringSteps::push_rules))]
pub fn push_string(
    string: &[u8],
    bytes: &mut Vec<u8>,
    offsets: &mut Vec<u64>,
) -> Result<(), AllocError>
    ensures bytes { OnOk result (bytes.new.items ≡ bytes.old.items ++ string.now) }
    ensures offsets { OnOk result (offsets.new.items ≡ offsets.old.items ++ length bytes.new.items ∷ []) }
{
    bytes.extend_from_slice(string)?;
    offsets.push(bytes.len() as u64)?;
    Ok(())
}

/// The string in a cell, with whether it is valid; `None` where the kind has no such cell, null or not.
#[tactic(auto, using(crate::proofs::StringSteps::text_rules))]
fn string_in(kind: StringKind, cell: &Cell) -> Option<(bool, &[u8])>
    ensures found { IfSome result (λ x. (if x.0 then string_cell kind x.1.now else null_cell) ≡ tree cell.now) }
    ensures may_be { IfSome result (λ x. IsTrue (may_be kind x.1.now)) }
    ensures none { IfNone result (fits (string_type kind true) (tree cell.now) ≡ false) }
{
    match kind {
        StringKind::Utf8 => text_in(cell),
        StringKind::Binary => bytes_in(cell),
    }
}

#[tactic(auto, using(crate::proofs::StringSteps::text_rules))]
fn text_in(cell: &Cell) -> Option<(bool, &[u8])>
    ensures found { IfSome result (λ x. (if x.0 then text_cell x.1.now else null_cell) ≡ tree cell.now) }
    ensures utf8 { IfSome result (λ x. IsTrue (is_utf8 x.1.now)) }
    ensures none { IfNone result (text_fits true (tree cell.now) ≡ false) }
{
    match cell {
        Cell::Null => Some((false, &[])),
        Cell::Utf8(text) => Some((true, text.as_str().as_bytes())),
        Cell::Bool(_) | Cell::Int(_) | Cell::Binary(_) | Cell::List(..) | Cell::Struct(..) => None,
    }
}

fn bytes_in(cell: &Cell) -> Option<(bool, &[u8])>
    ensures found { IfSome result (λ x. (if x.0 then bytes_cell x.1.now else null_cell) ≡ tree cell.now) }
    ensures none { IfNone result (bytes_fits true (tree cell.now) ≡ false) }
{
    match cell {
        Cell::Null => Some((false, &[])),
        Cell::Binary(blob) => Some((true, blob.as_slice())),
        Cell::Bool(_) | Cell::Int(_) | Cell::Utf8(_) | Cell::List(..) | Cell::Struct(..) => None,
    }
}

/// The strings in cells, where each begins and the last ends, and a flag each; `None` where the kind has not all the
/// cells.
#[tactic(auto, using(crate::proofs::StringSteps::grown_rules))]
pub(crate) fn strings_in(
    alloc: Global,
    kind: StringKind,
    cells: &[Cell],
) -> Result<Option<(Vec<u8>, Vec<u64>, Vec<bool>)>, AllocError>
    ensures cells { IfOk result (λ o. IfSome o (λ x. typed_cells (string_cell kind) (strings_between x.0.items x.1.items) x.2.items ≡ map tree cells.now)) }
    ensures strings { IfOk result (λ o. IfSome o (λ x. AreStrings kind x.0.items x.1.items)) }
    ensures none { IfOk result (λ o. IfNone o (all_by (fits (string_type kind true)) (map tree cells.now) ≡ false)) }
{
    let mut bytes = Vec::new(alloc);
    let mut offsets = Vec::with_capacity(alloc, cells.len().saturating_add(1))?;
    let mut valid = Vec::with_capacity(alloc, cells.len())?;
    offsets.push(0)?;
    for cell in cells {
        let Some((flag, string)) = string_in(kind, cell) else {
            return Ok(None);
        };
        push_string(string, &mut bytes, &mut offsets)?;
        valid.push(flag)?;
    }
    Ok(Some((bytes, offsets, valid)))
}
