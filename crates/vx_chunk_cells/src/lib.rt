//! Cells in columns: lists and structs put together of columns, and what a reader sees of them; tests of the codes,
//! offsets, flags and types that chunks are made of.
#![tactic(auto)]

mod cells;
mod codes;
mod cuts;
mod lists;
mod offsets;
mod parts;
mod real;
mod sizes;
mod structs;
mod types;
mod values;

pub use cells::{copy_cells, push_cells, push_copies};
pub use codes::{are_places, is_code};
pub use cuts::{
    flag_at, flags_between, flags_from, offsets_between, push_counted, push_same_offset, rebase,
};
pub use lists::push_lists;
pub use offsets::{are_offsets, cover, span_len};
pub use parts::{
    bool_cells, columns_of, copied_elements, count_elements, element_len, flag_of, push_apart,
    push_copies_apart, push_flags, push_row_flags, push_same_flag,
};
pub use real::{real_cell, real_cells};
pub use sizes::{cell_size, cells_size, null_byte, times};
pub use structs::{empty_rows, push_each, push_structs};
pub use types::{
    are_flags, has_elements, has_storage, is_code_type, is_dict_type, items_of, types_of,
};
pub use values::{into_value, into_values};
