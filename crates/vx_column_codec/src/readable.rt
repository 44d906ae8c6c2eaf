//! Values that are read from their bytes.

ghost use Rattle.std.specs.Prelude.{◌≡◌, List, ℕ, true, false, length, option_map, pos};
ghost use Rattle.vx_model.specs.declared.ptype.PType.TheVariants as types;
ghost use Rattle.vx_model.specs.CellData.{bool_cell, int_cell};
ghost use Rattle.vx_byte_reader.specs.Fields.{flag_at as one_flag};
ghost use Rattle.vx_cell_codec.specs.Reading.{cell_at, int_from, int_at};
ghost use Rattle.vx_column_codec.specs.Rows.{flagged_at, flagged_leaf};

use vx_byte_reader::{flag_at, front_at};
use vx_typed::Leaf;

/// A number or a Bool that can be read.
pub trait Readable: Leaf {
    /// What stands in the place of a null.
    fn blank() -> Self;

    /// The value at the front, and the bytes behind it.
    fn take(bytes: &[u8]) -> Option<(Self, &[u8])>
        ensures { option_map (λ x. (Self.as_cell x.0, x.1.now)) result ≡ cell_at (Self.kind false) bytes.now };

    /// In a nullable type it stands behind a flag.
    ghost flagged: { (bytes : List ℕ) → cell_at (Self.kind true) bytes ≡ flagged_at (cell_at (Self.kind false)) bytes };
}

impl Readable for bool {
    ghost flagged = { λ bytes. flagged_leaf bool_cell one_flag bytes };

    fn blank() -> bool {
        false
    }

    #[tactic(auto, using(crate::proofs::LeafSteps::bool_rules))]
    fn take(bytes: &[u8]) -> Option<(bool, &[u8])> {
        flag_at(bytes)
    }
}

impl Readable for u8 {
    ghost flagged = { λ bytes. flagged_leaf int_cell (int_at types.U8) bytes };

    fn blank() -> u8 {
        0
    }

    #[tactic(auto, using(crate::proofs::LeafSteps::int_rules))]
    fn take(bytes: &[u8]) -> Option<(u8, &[u8])> {
        let (s, rest) = front_at(1, bytes)?;
        Some((u8_of(s), rest))
    }
}

impl Readable for u16 {
    ghost flagged = { λ bytes. flagged_leaf int_cell (int_at types.U16) bytes };

    fn blank() -> u16 {
        0
    }

    #[tactic(auto, using(crate::proofs::LeafSteps::int_rules))]
    fn take(bytes: &[u8]) -> Option<(u16, &[u8])> {
        let (s, rest) = front_at(2, bytes)?;
        Some((u16_of(s), rest))
    }
}

impl Readable for u32 {
    ghost flagged = { λ bytes. flagged_leaf int_cell (int_at types.U32) bytes };

    fn blank() -> u32 {
        0
    }

    #[tactic(auto, using(crate::proofs::LeafSteps::int_rules))]
    fn take(bytes: &[u8]) -> Option<(u32, &[u8])> {
        let (s, rest) = front_at(4, bytes)?;
        Some((u32_of(s), rest))
    }
}

impl Readable for u64 {
    ghost flagged = { λ bytes. flagged_leaf int_cell (int_at types.U64) bytes };

    fn blank() -> u64 {
        0
    }

    #[tactic(auto, using(crate::proofs::LeafSteps::int_rules))]
    fn take(bytes: &[u8]) -> Option<(u64, &[u8])> {
        let (s, rest) = front_at(8, bytes)?;
        Some((u64_of(s), rest))
    }
}

impl Readable for i8 {
    ghost flagged = { λ bytes. flagged_leaf int_cell (int_at types.I8) bytes };

    fn blank() -> i8 {
        0
    }

    #[tactic(auto, using(crate::proofs::LeafSteps::int_rules))]
    fn take(bytes: &[u8]) -> Option<(i8, &[u8])> {
        let (s, rest) = front_at(1, bytes)?;
        Some((i8_of(s), rest))
    }
}

impl Readable for i16 {
    ghost flagged = { λ bytes. flagged_leaf int_cell (int_at types.I16) bytes };

    fn blank() -> i16 {
        0
    }

    #[tactic(auto, using(crate::proofs::LeafSteps::int_rules))]
    fn take(bytes: &[u8]) -> Option<(i16, &[u8])> {
        let (s, rest) = front_at(2, bytes)?;
        Some((i16_of(s), rest))
    }
}

impl Readable for i32 {
    ghost flagged = { λ bytes. flagged_leaf int_cell (int_at types.I32) bytes };

    fn blank() -> i32 {
        0
    }

    #[tactic(auto, using(crate::proofs::LeafSteps::int_rules))]
    fn take(bytes: &[u8]) -> Option<(i32, &[u8])> {
        let (s, rest) = front_at(4, bytes)?;
        Some((i32_of(s), rest))
    }
}

impl Readable for i64 {
    ghost flagged = { λ bytes. flagged_leaf int_cell (int_at types.I64) bytes };

    fn blank() -> i64 {
        0
    }

    #[tactic(auto, using(crate::proofs::LeafSteps::int_rules))]
    fn take(bytes: &[u8]) -> Option<(i64, &[u8])> {
        let (s, rest) = front_at(8, bytes)?;
        Some((i64_of(s), rest))
    }
}

fn u8_of(s: &[u8]) -> u8
    requires { length s.now ≡ 1 }
    ensures { pos result ≡ int_from types.U8 s.now }
{
    s[0]
}

fn u16_of(s: &[u8]) -> u16
    requires { length s.now ≡ 2 }
    ensures { pos result ≡ int_from types.U16 s.now }
{
    u16::from_le_bytes([s[0], s[1]])
}

fn u32_of(s: &[u8]) -> u32
    requires { length s.now ≡ 4 }
    ensures { pos result ≡ int_from types.U32 s.now }
{
    u32::from_le_bytes([s[0], s[1], s[2], s[3]])
}

fn u64_of(s: &[u8]) -> u64
    requires { length s.now ≡ 8 }
    ensures { pos result ≡ int_from types.U64 s.now }
{
    u64::from_le_bytes([s[0], s[1], s[2], s[3], s[4], s[5], s[6], s[7]])
}

fn i8_of(s: &[u8]) -> i8
    requires { length s.now ≡ 1 }
    ensures { result ≡ int_from types.I8 s.now }
{
    i8::from_le_bytes([s[0]])
}

fn i16_of(s: &[u8]) -> i16
    requires { length s.now ≡ 2 }
    ensures { result ≡ int_from types.I16 s.now }
{
    i16::from_le_bytes([s[0], s[1]])
}

fn i32_of(s: &[u8]) -> i32
    requires { length s.now ≡ 4 }
    ensures { result ≡ int_from types.I32 s.now }
{
    i32::from_le_bytes([s[0], s[1], s[2], s[3]])
}

fn i64_of(s: &[u8]) -> i64
    requires { length s.now ≡ 8 }
    ensures { result ≡ int_from types.I64 s.now }
{
    i64::from_le_bytes([s[0], s[1], s[2], s[3], s[4], s[5], s[6], s[7]])
}
