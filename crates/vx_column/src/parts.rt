//! Columns as lists and structs: flags, elements.

ghost use Rattle.std.specs.Prelude.{◌≡◌, ◌++◌, ◌*◌, ◌-◌, ◌^◌, ◌≤◌, length, map, OnOk};
ghost use Rattle.vx_model.specs.TreeView.{tree};
ghost use Rattle.vx_layout_spec.specs.Parts.{flag_of as is_valid, all_elements, ends};
ghost use Rattle.vx_column.specs.ColumnView.{column_cells};

use crate::column::Column;
use std::alloc::AllocError;
use vx_chunk_cells::{count_elements, push_apart, push_flags, push_same_flag, push_same_offset};
use vx_model::Cell;

impl Column {
    /// A flag a row behind the flags: whether it is no invalid list or struct.
    #[tactic(auto, using(crate::proofs::Steps::part_rules))]
    pub fn push_flags(&self, out: &mut Vec<bool>) -> Result<(), AllocError>
        ensures { OnOk result (out.new.items ≡ out.old.items ++ map is_valid (column_cells self.now)) }
    {
        match self {
            Column::Leaves(leaves) => {
                leaves.are_leaves();
                push_same_flag(true, leaves.len() as u64, out)
            }
            Column::Strings(strings) => {
                strings.are_strings();
                push_same_flag(true, strings.len() as u64, out)
            }
            Column::Cells(cells) => push_flags(cells, out),
        }
    }

    /// Elements of all lists.
    #[tactic(auto, using(crate::proofs::Steps::part_rules))]
    pub fn count_elements(&self) -> u128
        ensures count { result ≡ length (all_elements (column_cells self.now)) }
        ensures bound { result ≤ length (column_cells self.now) * (2 ^ 64 - 1) }
    {
        match self {
            Column::Leaves(leaves) => {
                leaves.are_leaves();
                0
            }
            Column::Strings(strings) => {
                strings.are_strings();
                0
            }
            Column::Cells(cells) => count_elements(cells),
        }
    }

    /// The elements of the lists behind the elements, and where each list ends behind the offsets.
    #[tactic(auto, using(crate::proofs::Steps::part_rules))]
    pub fn push_apart(
        &self,
        elements: &mut Vec<Cell>,
        offsets: &mut Vec<u64>,
    ) -> Result<(), AllocError>
        ensures elements { OnOk result (map tree elements.new.items ≡ map tree elements.old.items ++ all_elements (column_cells self.now)) }
        ensures offsets { OnOk result (offsets.new.items ≡ offsets.old.items ++ ends (length elements.old.items) (column_cells self.now)) }
    {
        let end = elements.len() as u64;
        match self {
            Column::Leaves(leaves) => {
                leaves.are_leaves();
                push_same_offset(end, leaves.len() as u64, offsets)
            }
            Column::Strings(strings) => {
                strings.are_strings();
                push_same_offset(end, strings.len() as u64, offsets)
            }
            Column::Cells(cells) => push_apart(cells, elements, offsets),
        }
    }
}
