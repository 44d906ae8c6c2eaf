//! A column of any type.

ghost use Rattle.std.specs.Prelude.{◌≡◌, ◌≤◌, ◌<◌, length, map, slice_index_or, IsTrue, IfOk};
ghost use Rattle.vx_model.specs.Words.{all_by};
ghost use Rattle.vx_model.specs.CellData.{null_cell};
ghost use Rattle.vx_model.specs.TreeView.{tree};
ghost use Rattle.vx_layout_spec.specs.Real.{is_real_cell};
ghost use Rattle.vx_chunk_cells.specs.Window.{window};
ghost use Rattle.vx_typed.specs.Lent.{lent_cell};
ghost use Rattle.vx_column.specs.ColumnView.{column_cells, column_form};

use crate::leaves::AnyLeaves;
use std::alloc::{AllocError, Global};
use vx_chunk_cells::{copy_cells, real_cells};
use vx_model::Cell;
use vx_strings::Strings;
use vx_typed::{Lent, lend_cell};

/// Rows of one type: typed values, or cells of any type.
#[derive(Drop)]
pub enum Column {
    Leaves(AnyLeaves),
    Strings(Strings),
    Cells(Vec<Cell>),
}

impl Column {
    /// How many rows there are.
    #[tactic(auto, using(crate::proofs::Steps::column_rules))]
    pub fn len(&self) -> usize
        ensures { result ≡ length (column_cells self.now) }
    {
        match self {
            Column::Leaves(leaves) => leaves.len(),
            Column::Strings(strings) => strings.len(),
            Column::Cells(cells) => cells.len(),
        }
    }

    /// The cell of a row, a copy.
    #[tactic(auto, using(crate::proofs::Steps::column_rules))]
    pub fn get(&self, alloc: Global, row: usize) -> Result<Cell, AllocError>
        requires { row < length (column_cells self.now) }
        ensures { IfOk result (λ c. tree c ≡ slice_index_or (column_cells self.now) row null_cell) }
    {
        match self {
            Column::Leaves(leaves) => Ok(leaves.get(row)),
            Column::Strings(strings) => strings.get(alloc, row),
            Column::Cells(cells) => cells[row].clone(),
        }
    }

    /// The cell of a row, lent. It takes no memory.
    #[tactic(auto, using(crate::proofs::Steps::column_rules))]
    pub fn row(&self, row: usize) -> Lent<'_>
        requires { row < length (column_cells self.now) }
        ensures { lent_cell result ≡ slice_index_or (column_cells self.now) row null_cell }
    {
        match self {
            Column::Leaves(leaves) => leaves.row(row),
            Column::Strings(strings) => strings.row(row),
            Column::Cells(cells) => lend_cell(&cells[row]),
        }
    }

    /// All rows, lent.
    #[tactic(auto, using(crate::proofs::Lents::row_rules))]
    pub fn rows(&self, alloc: Global) -> Result<Vec<Lent<'_>>, AllocError>
        ensures { IfOk result (λ v. map lent_cell v.items ≡ column_cells self.now) }
    {
        let mut rows = Vec::with_capacity(alloc, self.len())?;
        for row in 0..self.len() {
            rows.push(self.row(row))?;
        }
        Ok(rows)
    }

    /// Rows `from` to `to`, the last not included: typed values in the same memory, cells as copies.
    #[tactic(auto, using(crate::proofs::Steps::column_rules))]
    pub fn slice(&self, alloc: Global, from: u64, to: u64) -> Result<Column, AllocError>
        requires order { from ≤ to }
        requires within { to ≤ length (column_cells self.now) }
        ensures cells { IfOk result (λ c. column_cells c ≡ window from to (column_cells self.now)) }
        ensures form { IfOk result (λ c. column_form c ≡ column_form self.now) }
    {
        let (from, to) = (from as usize, to as usize);
        match self {
            Column::Leaves(leaves) => Ok(Column::Leaves(leaves.slice(from, to)?)),
            Column::Strings(strings) => Ok(Column::Strings(strings.slice(from, to)?)),
            Column::Cells(cells) => Ok(Column::Cells(copy_cells(alloc, &cells[from..to])?)),
        }
    }

    /// Does nothing; tells a caller's proof that the cells are real.
    #[tactic(auto, using(crate::proofs::Steps::real_rules))]
    pub fn real(&self)
        ensures { IsTrue (all_by is_real_cell (column_cells self.now)) }
    {
        match self {
            Column::Leaves(leaves) => leaves.are_leaves(),
            Column::Strings(strings) => strings.are_strings(),
            Column::Cells(cells) => real_cells(cells),
        }
    }
}

impl Clone for Column {
    ghost is_clone = { λ c copy. (column_cells copy ≡ column_cells c) × (column_form copy ≡ column_form c) };

    /// The same rows: typed values in the same memory, cells as copies.
    fn clone(&self) -> Result<Column, AllocError> {
        match self {
            Column::Leaves(leaves) => Ok(Column::Leaves(leaves.clone()?)),
            Column::Strings(strings) => Ok(Column::Strings(strings.clone()?)),
            Column::Cells(cells) => Ok(Column::Cells(copy_cells(*cells.allocator(), cells)?)),
        }
    }
}
