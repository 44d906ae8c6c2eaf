//! Columns of any type: typed values where the type has them, else cells.
#![tactic(auto)]

mod cells;
mod codes;
mod column;
mod joined;
mod leaf_joins;
mod leaves;
mod parts;
mod sizes;

pub use codes::place_of;
pub use column::Column;
pub use joined::no_rows;
pub use leaves::AnyLeaves;
