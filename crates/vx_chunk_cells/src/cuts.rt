//! Offsets and flags of some of the rows.

ghost use Rattle.std.specs.Prelude.{◌≡◌, ◌<◌, ◌≤◌, ◌+◌, ◌-◌, ◌^◌, ◌++◌, true, length, drop, replicate, IfOk, OnOk};
ghost use Rattle.vx_model.specs.Words.{head_or, tail};
ghost use Rattle.vx_chunk_cells.specs.Window.{window, rebased, counted, last_of, Within};

use std::alloc::{AllocError, Global};

/// The offsets of rows `from` to `to`, one more than rows.
pub fn offsets_between(offsets: &[u64], from: u64, to: u64) -> &[u64]
    requires order { from ≤ to }
    requires within { to < length offsets.now }
    ensures { result.now ≡ window from (to + 1) offsets.now }
{
    &offsets[from as usize..to as usize + 1]
}

/// The offsets counted from the first.
#[tactic(auto, using(crate::proofs::CutSteps::rebase_rules))]
pub fn rebase(alloc: Global, offsets: &[u64]) -> Result<Vec<u64>, AllocError>
    requires { Within (head_or 0 offsets.now) (last_of offsets.now) offsets.now }
    ensures { IfOk result (λ v. v.items ≡ rebased (head_or 0 offsets.now) offsets.now) }
{
    let mut counted = Vec::with_capacity(alloc, offsets.len())?;
    for offset in offsets {
        counted.push(offset - offsets[0])?;
    }
    Ok(counted)
}

/// The flags from a row on; none where there are none.
pub fn flags_from(valid: &[bool], row: u64) -> &[bool]
    ensures { result.now ≡ drop row valid.now }
{
    let row = (row as usize).min(valid.len());
    &valid[row..]
}

/// The flags of rows `from` to `to`; none where there are none.
#[tactic(auto, using(crate::proofs::CutSteps::window_rules))]
pub fn flags_between(valid: &[bool], from: u64, to: u64) -> &[bool]
    requires { from ≤ to }
    ensures { result.now ≡ window from to valid.now }
{
    let end = (to as usize).min(valid.len());
    let start = (from as usize).min(end);
    &valid[start..end]
}

/// The flag of a row; true where there are none.
#[tactic(auto, using(crate::proofs::Steps::flag_rules))]
pub fn flag_at(valid: &[bool], row: usize) -> bool
    ensures { result ≡ head_or true (drop row valid.now) }
{
    if row < valid.len() { valid[row] } else { true }
}

/// The offsets but the first, counted from `base` where the first stands.
#[tactic(auto, using(crate::proofs::CutSteps::counted_rules))]
pub fn push_counted(base: u64, offsets: &[u64], out: &mut Vec<u64>) -> Result<(), AllocError>
    requires some { 1 ≤ length offsets.now }
    requires ascend { Within (head_or 0 offsets.now) (last_of offsets.now) offsets.now }
    requires room { base + (last_of offsets.now - head_or 0 offsets.now) < 2 ^ 64 }
    ensures { OnOk result (out.new.items ≡ out.old.items ++ counted base (head_or 0 offsets.now) (tail offsets.now)) }
{
    for i in 1..offsets.len() {
        out.push(base + (offsets[i] - offsets[0]))?;
    }
    Ok(())
}

/// So many times the offset: rows without an element.
#[tactic(auto, using(crate::proofs::Steps::push_rules))]
pub fn push_same_offset(offset: u64, count: u64, out: &mut Vec<u64>) -> Result<(), AllocError>
    ensures { OnOk result (out.new.items ≡ out.old.items ++ replicate count offset) }
{
    for _i in 0..count {
        out.push(offset)?;
    }
    Ok(())
}
