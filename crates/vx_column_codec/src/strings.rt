//! Texts and bytes, read one after the other.

ghost use Rattle.std.specs.Prelude.{◌≡◌, ◌++◌, ◌∷◌, [], if◌then◌else◌, option_map, length, IsTrue, IfOk, IfSome, OnOk};
ghost use Rattle.vx_model.specs.CellData.{null_cell};
ghost use Rattle.vx_byte_reader.specs.Fields.{many_at};
ghost use Rattle.vx_cell_codec.specs.Reading.{valid_at as one_valid, cell_at, cells_at};
ghost use Rattle.vx_cell_codec.specs.Views.{Gives};
ghost use Rattle.vx_typed.specs.Typed.{typed_cells};
ghost use Rattle.vx_strings.specs.StringCells.{strings_between, string_cell, string_type, may_be as may, AreStrings};
ghost use Rattle.vx_column_codec.specs.Rows.{string_at as one_string};

use std::alloc::{AllocError, Global};
use vx_byte_reader::{flag_at, front_at, u64_at};
use vx_cell_codec::CellError;
use vx_strings::{StringKind, Strings, push_string};

/// So many strings of a type, nullable or not, which fill the bytes.
#[tactic(auto, using(crate::proofs::StringSteps::fill_rules), unfolding(vx_cell_codec::specs::Reading::cells_at))]
pub(crate) fn read_strings(
    alloc: Global,
    kind: StringKind,
    nullable: bool,
    rows: u64,
    bytes: &[u8],
) -> Result<Strings, CellError>
    ensures { Gives (λ c. c) result (cells_at (string_type kind nullable) rows bytes.now) }
{
    let (taken, rest) = take_strings(alloc, kind, nullable, rows, bytes)?;
    if !rest.is_empty() {
        return Err(CellError::NoCells);
    }
    let Taken {
        strings,
        places,
        valid,
    } = taken;
    Ok(Strings::new(alloc, kind, strings, places, valid)?)
}

/// Strings, where each begins and the last ends, and a flag each.
#[derive(Drop)]
struct Taken {
    strings: Vec<u8>,
    places: Vec<u64>,
    valid: Vec<bool>,
}

impl Taken {
    /// None yet, with room for so many.
    fn new(alloc: Global, room: usize) -> Result<Taken, AllocError>
        ensures strings { IfOk result (λ t. t.strings.items ≡ []) }
        ensures places { IfOk result (λ t. t.places.items ≡ 0 ∷ []) }
        ensures valid { IfOk result (λ t. t.valid.items ≡ []) }
    {
        let mut places = Vec::with_capacity(alloc, room.saturating_add(1))?;
        places.push(0)?;
        Ok(Taken {
            strings: Vec::new(alloc),
            places,
            valid: Vec::with_capacity(alloc, room)?,
        })
    }

    /// One more.
    fn push(&mut self, flag: bool, string: &[u8]) -> Result<(), AllocError>
        ensures strings { OnOk result (self.new.strings.items ≡ self.old.strings.items ++ string.now) }
        ensures places { OnOk result (self.new.places.items ≡ self.old.places.items ++ length self.new.strings.items ∷ []) }
        ensures valid { OnOk result (self.new.valid.items ≡ self.old.valid.items ++ flag ∷ []) }
    {
        push_string(string, &mut self.strings, &mut self.places)?;
        self.valid.push(flag)?;
        Ok(())
    }
}

/// So many strings, and the bytes behind them. The bytes bound their number, whatever `rows` claims.
#[tactic(auto, using(crate::proofs::StringSteps::take_rules))]
fn take_strings(
    alloc: Global,
    kind: StringKind,
    nullable: bool,
    rows: u64,
    bytes: &[u8],
) -> Result<(Taken, &[u8]), CellError>
    ensures cells { Gives (λ x. (typed_cells (string_cell kind) (strings_between x.0.strings.items x.0.places.items) x.0.valid.items, x.1.now)) result (many_at (cell_at (string_type kind nullable)) rows bytes.now) }
    ensures strings { IfOk result (λ x. AreStrings kind x.0.strings.items x.0.places.items) }
{
    let mut taken = Taken::new(alloc, (rows as usize).min(bytes.len()))?;
    let mut rest = bytes;
    for _ in 0..rows {
        let Some((flag, string, after)) = take_row(kind, nullable, rest) else {
            return Err(CellError::NoCells);
        };
        taken.push(flag, string)?;
        rest = after;
    }
    Ok((taken, rest))
}

/// A row: whether it is valid, its string, and the bytes behind it.
#[tactic(auto, using(crate::proofs::StringSteps::row_rules))]
fn take_row(kind: StringKind, nullable: bool, bytes: &[u8]) -> Option<(bool, &[u8], &[u8])>
    ensures seen { option_map (λ x. ((if x.0 then string_cell kind x.1.now else null_cell), x.2.now)) result ≡ cell_at (string_type kind nullable) bytes.now }
    ensures may_be { IfSome result (λ x. IsTrue (may kind x.1.now)) }
{
    let (valid, rest) = valid_at(nullable, bytes)?;
    if !valid {
        return Some((false, &[], rest));
    }
    let (string, rest) = string_at(kind, rest)?;
    Some((true, string, rest))
}

/// Whether a row is valid, where a type that isn't nullable has no flag.
#[tactic(auto, unfolding(vx_cell_codec::specs::Reading::valid_at))]
fn valid_at(nullable: bool, bytes: &[u8]) -> Option<(bool, &[u8])>
    ensures { option_map (λ x. (x.0, x.1.now)) result ≡ one_valid nullable bytes.now }
{
    if nullable {
        return flag_at(bytes);
    }
    Some((true, bytes))
}

/// A string behind its length, and the bytes behind it.
#[tactic(auto, using(crate::proofs::StringSteps::string_rules))]
fn string_at(kind: StringKind, bytes: &[u8]) -> Option<(&[u8], &[u8])>
    ensures seen { option_map (λ x. (x.0.now, x.1.now)) result ≡ one_string kind bytes.now }
    ensures may_be { IfSome result (λ x. IsTrue (may kind x.0.now)) }
{
    let (count, rest) = u64_at(bytes)?;
    let (string, rest) = front_at(count, rest)?;
    if !may_be(kind, string) {
        return None;
    }
    Some((string, rest))
}

/// Whether the bytes are a string of the kind.
#[tactic(auto, using(vx_strings::proofs::StringSteps::text_rules))]
fn may_be(kind: StringKind, string: &[u8]) -> bool
    ensures { result ≡ may kind string.now }
{
    match kind {
        StringKind::Binary => true,
        StringKind::Utf8 => str::from_utf8(string).is_ok(),
    }
}
