//! Lists of cells cut out of their elements.

ghost use Rattle.std.specs.Prelude.{◌≡◌, ◌+◌, ◌≤◌, ◌++◌, length, map, IfOk, OnOk};
ghost use Rattle.vx_model.specs.Words.{head_or};
ghost use Rattle.vx_model.specs.TreeView.{tree};
ghost use Rattle.vx_model.specs.ChunkData.{list_rows};
ghost use Rattle.vx_chunk_cells.specs.Window.{rebased, last_of, Within};

use crate::cuts::flag_at;
use std::alloc::AllocError;
use vx_model::Cell;

/// Lists of the elements, which are those from the first offset to the last.
#[tactic(auto, using(crate::proofs::Steps::list_rules))]
pub fn push_lists(
    elements: Vec<Cell>,
    offsets: &[u64],
    valid: &[bool],
    out: &mut Vec<Cell>,
) -> Result<(), AllocError>
    requires some { 1 ≤ length offsets.now }
    requires ascend { Within (head_or 0 offsets.now) (last_of offsets.now) offsets.now }
    requires whole { last_of offsets.now ≡ head_or 0 offsets.now + length elements.items }
    ensures { OnOk result (map tree out.new.items ≡ map tree out.old.items ++ list_rows (map tree elements.items) (rebased (head_or 0 offsets.now) offsets.now) valid.now) }
{
    let mut rows = lists(elements, offsets, valid)?;
    out.append(&mut rows)
}

#[tactic(auto, using(crate::proofs::Steps::list_rules))]
fn lists(mut elements: Vec<Cell>, offsets: &[u64], valid: &[bool]) -> Result<Vec<Cell>, AllocError>
    requires some { 1 ≤ length offsets.now }
    requires ascend { Within (head_or 0 offsets.now) (last_of offsets.now) offsets.now }
    requires whole { last_of offsets.now ≡ head_or 0 offsets.now + length elements.items }
    ensures { IfOk result (λ v. map tree v.items ≡ list_rows (map tree elements.items) (rebased (head_or 0 offsets.now) offsets.now) valid.now) }
{
    let mut row = offsets.len() - 1;
    let mut rows = Vec::with_capacity(*elements.allocator(), row)?;
    // From the back, so that each list is split off at its first element.
    while row > 0 {
        row -= 1;
        let cells = elements.split_off((offsets[row] - offsets[0]) as usize)?;
        rows.push(Cell::List(flag_at(valid, row), cells))?;
    }
    rows.reverse();
    Ok(rows)
}
