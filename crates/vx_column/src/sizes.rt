//! Bytes that columns count for.

ghost use Rattle.std.specs.Prelude.{◌≡◌, ◌≤◌, ◌-◌, ◌^◌, min, length};
ghost use Rattle.vx_model.specs.Words.{total_by};
ghost use Rattle.vx_model.specs.CellData.{cell_size as size_of};
ghost use Rattle.vx_model.specs.TyView.{ty};
ghost use Rattle.vx_chunk_cells.specs.Window.{window};
ghost use Rattle.vx_column.specs.ColumnView.{leaf_cells, column_cells, has_strings as of_strings};

use crate::column::Column;
use crate::leaves::AnyLeaves;
use vx_chunk_cells::{cell_size, cells_size, times};
use vx_model::{Cell, DType};
use vx_strings::Strings;

impl Column {
    /// Bytes that rows `from` to `to` count for in the type, at most the greatest u128.
    #[tactic(auto, using(crate::proofs::Steps::size_rules))]
    pub fn size_between(&self, dtype: &DType, from: u64, to: u64) -> u128
        requires order { from ≤ to }
        requires within { to ≤ length (column_cells self.now) }
        ensures { result ≡ min (total_by (size_of (ty dtype.now)) (window from to (column_cells self.now))) (2 ^ 128 - 1) }
    {
        match self {
            Column::Leaves(leaves) => leaves_size(leaves, dtype, from, to),
            Column::Strings(strings) => strings_size(strings, dtype, from, to),
            Column::Cells(cells) => cells_size(dtype, &cells[from as usize..to as usize]),
        }
    }
}

/// Each counts for as much as null.
#[tactic(auto, using(crate::proofs::Steps::size_rules))]
fn leaves_size(leaves: &AnyLeaves, dtype: &DType, from: u64, to: u64) -> u128
    requires order { from ≤ to }
    requires within { to ≤ length (leaf_cells leaves.now) }
    ensures { result ≡ min (total_by (size_of (ty dtype.now)) (window from to (leaf_cells leaves.now))) (2 ^ 128 - 1) }
{
    leaves.are_leaves();
    times(to - from, cell_size(dtype, &Cell::Null))
}

/// Each counts for as much as null, and in a type of texts or of bytes for its length too.
#[tactic(auto, using(crate::proofs::Steps::size_rules))]
fn strings_size(strings: &Strings, dtype: &DType, from: u64, to: u64) -> u128
    requires order { from ≤ to }
    requires within { to ≤ length strings.now }
    ensures { result ≡ min (total_by (size_of (ty dtype.now)) (window from to strings.now)) (2 ^ 128 - 1) }
{
    strings.are_strings();
    let heads = times(to - from, cell_size(dtype, &Cell::Null));
    if !has_strings(dtype) {
        return heads;
    }
    heads.saturating_add(strings.total_len(from as usize, to as usize))
}

/// Whether the type is one of texts or of bytes, or an extension of one.
fn has_strings(dtype: &DType) -> bool
    ensures { result ≡ of_strings (ty dtype.now) }
{
    match dtype {
        DType::Utf8(_) | DType::Binary(_) => true,
        DType::Extension(ext) => has_strings(&ext.storage),
        DType::Bool(_) | DType::Primitive(..) | DType::List(..) | DType::Struct(..) => false,
    }
}
