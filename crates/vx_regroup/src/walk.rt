//! The sizes of the blocks that leave at a chunk, found by a walk over its check points.

ghost use Rattle.std.specs.Prelude.{◌≡◌, ℕ, ◌<◌, ◌≤◌, ◌-◌, List, ◌∷◌, length, take, IfOk, OnOk, IfErr};
ghost use Rattle.vx_model.specs.Words.{total_by};
ghost use Rattle.vx_model.specs.CellData.{cell_size as size_of};
ghost use Rattle.vx_model.specs.TyView.{ty};
ghost use Rattle.vx_column.specs.ColumnView.{column_cells};
ghost use Rattle.vx_rules.specs.Blocks.{block_sizes as sizes_of, tested_sizes as tests_of, check_points};
ghost use Rattle.vx_regroup.specs.Refusals.{first_past, Refuses};
ghost use Rattle.vx_regroup.specs.Walks.{Stands, sizes_with, past_with};

use std::alloc::Global;
use vx_chunk::ChunkError;
use vx_column::Column;
use vx_model::DType;

/// Block sizes found so far, the last cut, the last check point and the bytes of the rows between these two.
#[derive(Drop)]
pub(crate) struct Walk {
    pub(crate) sizes: Vec<usize>,
    pub(crate) cut: usize,
    pub(crate) seen: usize,
    pub(crate) total: u64,
}

/// Sizes of the blocks that leave, where the first `held` rows were looked at before and take `total` bytes. Each of
/// the other rows is summed once, and once more where it stands behind a cut before the next check point.
pub(crate) fn walked(
    alloc: Global,
    dtype: &DType,
    len: usize,
    minimum: u64,
    column: &Column,
    held: usize,
    total: u64,
) -> Result<Walk, ChunkError>
    requires some { 0 < len }
    requires within { held ≤ length (column_cells column.now) }
    requires summed { total ≡ total_by (size_of (ty dtype.now)) (take held (column_cells column.now)) }
    ensures sizes { IfOk result (λ w. w.sizes.items ≡ sizes_of len minimum (ty dtype.now) 0 (column_cells column.now) (check_points len held (length (column_cells column.now) - held))) }
    ensures stands { IfOk result (λ w. Stands (ty dtype.now) (column_cells column.now) w.sizes.items w.cut (length (column_cells column.now)) w.total) }
    ensures fits { OnOk result (first_past (tests_of len minimum (ty dtype.now) 0 (column_cells column.now) (check_points len held (length (column_cells column.now) - held))) ≡ None) }
    ensures refused { IfErr result (Refuses (first_past (tests_of len minimum (ty dtype.now) 0 (column_cells column.now) (check_points len held (length (column_cells column.now) - held))))) }
{
    let mut walk = Walk {
        sizes: Vec::new(alloc),
        cut: 0,
        seen: held,
        total,
    };
    let count = column.len();
    let inner = (count - held).saturating_sub(1) / len;
    for k in 0..inner {
        let point = walk.seen + len;
        check(&mut walk, dtype, len, minimum, column, point)?;
    }
    check(&mut walk, dtype, len, minimum, column, count)?;
    Ok(walk)
}

/// Goes on to the next check point, and cuts there where a block's rows and the minimum's bytes are before it.
fn check(
    walk: &mut Walk,
    dtype: &DType,
    len: usize,
    minimum: u64,
    column: &Column,
    point: usize,
) -> Result<(), ChunkError>
    requires some { 0 < len }
    requires order { walk.old.seen ≤ point }
    requires within { point ≤ length (column_cells column.now) }
    requires stands { Stands (ty dtype.now) (column_cells column.now) walk.old.sizes.items walk.old.cut walk.old.seen walk.old.total }
    ensures stands { OnOk result (Stands (ty dtype.now) (column_cells column.now) walk.new.sizes.items walk.new.cut point walk.new.total) }
    ensures seen { OnOk result (walk.new.seen ≡ point) }

    // Whatever check points are still to come: the sizes that are found, and the first number that is too large.
    ensures sizes { OnOk result ((ps : List ℕ) → sizes_with len minimum (ty dtype.now) (column_cells column.now) walk.new.sizes.items walk.new.cut ps
        ≡ sizes_with len minimum (ty dtype.now) (column_cells column.now) walk.old.sizes.items walk.old.cut (point ∷ ps)) }
    ensures fits { OnOk result ((ps : List ℕ) → past_with len minimum (ty dtype.now) (column_cells column.now) walk.new.cut ps
        ≡ past_with len minimum (ty dtype.now) (column_cells column.now) walk.old.cut (point ∷ ps)) }
    ensures refused { IfErr result (λ e. (ps : List ℕ) → Refuses (past_with len minimum (ty dtype.now) (column_cells column.now) walk.old.cut (point ∷ ps)) e) }
{
    let added = column.size_between(dtype, walk.seen as u64, point as u64);
    let total = u128::from(walk.total).saturating_add(added);
    if total > u128::from(u64::MAX) {
        return Err(ChunkError::TooLarge(total));
    }
    let rows = point - walk.cut;
    if rows < len || total < u128::from(minimum) {
        walk.total = total as u64;
        walk.seen = point;
        return Ok(());
    }
    let size = len * (rows / len);
    let left = column.size_between(dtype, (walk.cut + size) as u64, point as u64);
    walk.sizes.push(size)?;
    walk.cut += size;
    walk.total = left as u64;
    walk.seen = point;
    Ok(())
}
