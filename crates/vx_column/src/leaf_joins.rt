//! Leaves behind others of the same type.

ghost use Rattle.std.specs.Prelude.{◌≡◌, ◌++◌, IfOk, MatchResult};
ghost use Rattle.vx_column.specs.ColumnView.{leaf_cells};

use crate::leaves::AnyLeaves;
use std::alloc::{AllocError, Global};
use vx_typed::Leaves;

/// The leaves, and the others behind them where they are of the same form; else the leaves as they are.
macro_rules! append_as {
    ($form:path, $leaves:expr, $alloc:expr, $others:expr) => {
        match $others {
            $form(more) => Ok(Ok($form($leaves.append($alloc, more)?))),
            _ => Ok(Err($form($leaves))),
        }
    };
}

pub(crate) fn append_bool(
    leaves: Leaves<bool>,
    alloc: Global,
    others: &AnyLeaves,
) -> Result<Result<AnyLeaves, AnyLeaves>, AllocError>
    ensures { IfOk result (λ r. MatchResult r (λ c. leaf_cells c ≡ leaves ++ leaf_cells others.now) (λ c. leaf_cells c ≡ leaves)) }
{
    append_as!(AnyLeaves::Bool, leaves, alloc, others)
}

pub(crate) fn append_u8(
    leaves: Leaves<u8>,
    alloc: Global,
    others: &AnyLeaves,
) -> Result<Result<AnyLeaves, AnyLeaves>, AllocError>
    ensures { IfOk result (λ r. MatchResult r (λ c. leaf_cells c ≡ leaves ++ leaf_cells others.now) (λ c. leaf_cells c ≡ leaves)) }
{
    append_as!(AnyLeaves::U8, leaves, alloc, others)
}

pub(crate) fn append_u16(
    leaves: Leaves<u16>,
    alloc: Global,
    others: &AnyLeaves,
) -> Result<Result<AnyLeaves, AnyLeaves>, AllocError>
    ensures { IfOk result (λ r. MatchResult r (λ c. leaf_cells c ≡ leaves ++ leaf_cells others.now) (λ c. leaf_cells c ≡ leaves)) }
{
    append_as!(AnyLeaves::U16, leaves, alloc, others)
}

pub(crate) fn append_u32(
    leaves: Leaves<u32>,
    alloc: Global,
    others: &AnyLeaves,
) -> Result<Result<AnyLeaves, AnyLeaves>, AllocError>
    ensures { IfOk result (λ r. MatchResult r (λ c. leaf_cells c ≡ leaves ++ leaf_cells others.now) (λ c. leaf_cells c ≡ leaves)) }
{
    append_as!(AnyLeaves::U32, leaves, alloc, others)
}

pub(crate) fn append_u64(
    leaves: Leaves<u64>,
    alloc: Global,
    others: &AnyLeaves,
) -> Result<Result<AnyLeaves, AnyLeaves>, AllocError>
    ensures { IfOk result (λ r. MatchResult r (λ c. leaf_cells c ≡ leaves ++ leaf_cells others.now) (λ c. leaf_cells c ≡ leaves)) }
{
    append_as!(AnyLeaves::U64, leaves, alloc, others)
}

pub(crate) fn append_i8(
    leaves: Leaves<i8>,
    alloc: Global,
    others: &AnyLeaves,
) -> Result<Result<AnyLeaves, AnyLeaves>, AllocError>
    ensures { IfOk result (λ r. MatchResult r (λ c. leaf_cells c ≡ leaves ++ leaf_cells others.now) (λ c. leaf_cells c ≡ leaves)) }
{
    append_as!(AnyLeaves::I8, leaves, alloc, others)
}

pub(crate) fn append_i16(
    leaves: Leaves<i16>,
    alloc: Global,
    others: &AnyLeaves,
) -> Result<Result<AnyLeaves, AnyLeaves>, AllocError>
    ensures { IfOk result (λ r. MatchResult r (λ c. leaf_cells c ≡ leaves ++ leaf_cells others.now) (λ c. leaf_cells c ≡ leaves)) }
{
    append_as!(AnyLeaves::I16, leaves, alloc, others)
}

pub(crate) fn append_i32(
    leaves: Leaves<i32>,
    alloc: Global,
    others: &AnyLeaves,
) -> Result<Result<AnyLeaves, AnyLeaves>, AllocError>
    ensures { IfOk result (λ r. MatchResult r (λ c. leaf_cells c ≡ leaves ++ leaf_cells others.now) (λ c. leaf_cells c ≡ leaves)) }
{
    append_as!(AnyLeaves::I32, leaves, alloc, others)
}

pub(crate) fn append_i64(
    leaves: Leaves<i64>,
    alloc: Global,
    others: &AnyLeaves,
) -> Result<Result<AnyLeaves, AnyLeaves>, AllocError>
    ensures { IfOk result (λ r. MatchResult r (λ c. leaf_cells c ≡ leaves ++ leaf_cells others.now) (λ c. leaf_cells c ≡ leaves)) }
{
    append_as!(AnyLeaves::I64, leaves, alloc, others)
}
