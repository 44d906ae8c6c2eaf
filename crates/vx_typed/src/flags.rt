//! Which rows are valid.

ghost use Rattle.std.specs.Prelude.{◌≡◌, ◌≤◌, ◌-◌, [], take, drop, IfOk};
ghost use Rattle.vx_model.specs.Words.{all_by};
ghost use Rattle.vx_typed.specs.Typed.{joined_flags, needed_flags};

use crate::shared::Shared;
use std::alloc::{AllocError, Global};
use std::marker::Model;

/// A flag a row, or none where all rows are valid. Columns that are cut from one share its flags.
pub struct Flags {
    kept: Option<Shared<bool>>,
}

impl Model for Flags {
    ghost use Rattle.std.specs.Prelude.{List, Bool};
    ghost use Rattle.vx_typed.specs.Typed.{flags_of};

    ghost Value = { List Bool };

    ghost view = { λ f. flags_of f.kept };
}

impl Flags {
    /// All rows are valid.
    pub fn none() -> Flags
        ensures { result ≡ [] }
    {
        Flags { kept: None }
    }

    /// These flags, one a row; the vector is moved.
    #[tactic(auto, using(crate::proofs::Joins::flag_rules))]
    pub fn new(alloc: Global, flags: Vec<bool>) -> Result<Flags, AllocError>
        ensures { IfOk result (λ f. f ≡ flags.items) }
    {
        if flags.is_empty() {
            return Ok(Flags { kept: None });
        }
        let kept = Shared::new(alloc, flags)?;
        Ok(Flags { kept: Some(kept) })
    }

    /// The flags; none where all rows are valid.
    pub fn as_slice(&self) -> &[bool]
        ensures { result.now ≡ self.now }
    {
        match &self.kept {
            Some(kept) => kept.as_slice(),
            None => &[],
        }
    }

    /// Those of rows `from` to `to`; none where there are none.
    #[tactic(auto, using(crate::proofs::Steps::cut_rules))]
    pub fn slice(&self, from: usize, to: usize) -> Result<Flags, AllocError>
        requires { from ≤ to }
        ensures { IfOk result (λ f. f ≡ take (to - from) (drop from self.now)) }
    {
        let Some(kept) = &self.kept else {
            return Ok(Flags { kept: None });
        };
        let end = to.min(kept.as_slice().len());
        let start = from.min(end);
        let part = kept.slice(start, end)?;
        Ok(Flags { kept: Some(part) })
    }

    /// Those of so many rows, and those of as many others as are told behind them; none where neither has any. In the
    /// same memory where nothing else shares it.
    #[tactic(auto, using(crate::proofs::Joins::flag_rules))]
    pub fn append(
        self,
        alloc: Global,
        rows: usize,
        others: &[bool],
        more: usize,
    ) -> Result<Flags, AllocError>
        ensures { IfOk result (λ f. f ≡ joined_flags rows self more others.now) }
    {
        if self.as_slice().is_empty() && others.is_empty() {
            return Ok(Flags { kept: None });
        }
        let Some(total) = rows.checked_add(more) else {
            return Err(AllocError);
        };
        let mut flags = self.into_vec(alloc, total)?;
        flags.resize(rows, true)?;
        flags.extend_from_slice(others)?;
        flags.resize(total, true)?;
        Flags::new(alloc, flags)
    }

    /// The flags; where they are copied or there are none, with room for so many.
    fn into_vec(self, alloc: Global, room: usize) -> Result<Vec<bool>, AllocError>
        ensures { IfOk result (λ v. v.items ≡ self) }
    {
        let Flags { kept } = self;
        match kept {
            Some(kept) => kept.into_vec(alloc, room),
            None => Vec::with_capacity(alloc, room),
        }
    }
}

/// The flags, or none where all are true.
pub fn needed(mut flags: Vec<bool>) -> Vec<bool>
    ensures { result.items ≡ needed_flags flags.items }
{
    if are_set(&flags) {
        flags.clear();
    }
    flags
}

/// Whether all are true.
#[tactic(auto, using(crate::proofs::Joins::set_rules))]
fn are_set(flags: &[bool]) -> bool
    ensures { result ≡ all_by (λ b. b) flags.now }
{
    for flag in flags {
        if !*flag {
            return false;
        }
    }
    true
}

// As of `Shared`.
impl Drop for Flags {
    fn drop(self) {
        let Flags { kept: _ } = self;
    }
}

impl Clone for Flags {
    ghost is_clone = { λ f copy. copy ≡ f };

    /// The same flags, in the same memory.
    fn clone(&self) -> Result<Flags, AllocError> {
        let Some(kept) = &self.kept else {
            return Ok(Flags { kept: None });
        };
        let kept = kept.clone()?;
        Ok(Flags { kept: Some(kept) })
    }
}
