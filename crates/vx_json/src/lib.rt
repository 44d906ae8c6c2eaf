//! JSON values by their parts: members of objects, numbers, texts, lists.
#![tactic(auto)]

mod error;
mod lists;
mod members;
mod values;

pub use error::JsonError;
pub use lists::{read_flags, read_numbers, read_texts};
pub use members::{
    array_at, count, has_one, has_three, has_two, member, number_at, object_at, read_text_at,
};
pub use values::{
    flag_at, has_members, only_member, optional_at, pair, read_flag, read_items, read_pair,
    read_text, read_u32, read_u64, u16_at, u32_at, u64_at, value_at,
};
