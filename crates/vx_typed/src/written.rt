//! Values as a segment has them.

ghost use Rattle.std.specs.Prelude.{◌≡◌, ◌++◌, if◌then◌else◌, [], OnOk};
ghost use Rattle.vx_model.specs.Words.{joined_by};
ghost use Rattle.vx_model.specs.CellData.{spelling, null_cell};
ghost use Rattle.vx_typed.specs.Typed.{typed_cells};

use crate::leaf::Leaf;
use std::alloc::AllocError;
use vx_chunk_cells::flag_at;

#[inline(always)]
fn push_value<T: Leaf>(nullable: bool, x: T, out: &mut Vec<u8>) -> Result<(), AllocError>
    ensures { OnOk result (out.new.items ≡ out.old.items ++ spelling (T.kind nullable) (T.as_cell x)) }
{
    if nullable {
        x.put_valid(out)
    } else {
        x.put(out)
    }
}

#[tactic(auto, using(crate::proofs::Steps::row_rules))]
#[inline(always)]
fn push_null<T: Leaf>(nullable: bool, out: &mut Vec<u8>) -> Result<(), AllocError>
    ensures { OnOk result (out.new.items ≡ out.old.items ++ spelling (T.kind nullable) null_cell) }
{
    if !nullable {
        return Ok(());
    }
    out.push(0)?;
    Ok(())
}

#[inline(always)]
fn push_row<T: Leaf>(nullable: bool, valid: bool, x: T, out: &mut Vec<u8>) -> Result<(), AllocError>
    ensures { OnOk result (out.new.items ≡ out.old.items ++ spelling (T.kind nullable) (if valid then T.as_cell x else null_cell)) }
{
    if valid {
        push_value(nullable, x, out)
    } else {
        push_null::<T>(nullable, out)
    }
}

/// The bytes of values that are all valid, behind what was there.
#[tactic(auto, using(crate::proofs::Steps::all_rules))]
pub(crate) fn push_valid<T: Leaf>(
    nullable: bool,
    items: &[T],
    out: &mut Vec<u8>,
) -> Result<(), AllocError>
    ensures { OnOk result (out.new.items ≡ out.old.items ++ joined_by (spelling (T.kind nullable)) (typed_cells T.as_cell items.now [])) }
{
    for i in 0..items.len() {
        push_value(nullable, items[i], out)?;
    }
    Ok(())
}

/// The bytes of values with their flags, behind what was there.
#[tactic(auto, using(crate::proofs::Steps::typed_rules))]
pub(crate) fn push_masked<T: Leaf>(
    nullable: bool,
    items: &[T],
    valid: &[bool],
    out: &mut Vec<u8>,
) -> Result<(), AllocError>
    ensures { OnOk result (out.new.items ≡ out.old.items ++ joined_by (spelling (T.kind nullable)) (typed_cells T.as_cell items.now valid.now)) }
{
    for i in 0..items.len() {
        push_row(nullable, flag_at(valid, i), items[i], out)?;
    }
    Ok(())
}
