//! Records of zones: one value for each aggregate of a column, folded over the zone's rows.
#![tactic(auto)]

mod bounds;
mod error;
mod filter;
mod folds;
mod held;
mod parts;
mod row;
mod scalar;
mod values;
mod zones;

pub use error::RecordError;
pub use held::held_aggregates;
pub use parts::{
    cells_value, greater, lesser, lower_bound, null_count, null_rows, rows_value, upper_bound,
};
pub use row::Row;
pub use scalar::{Scalar, is_at_most};
pub use zones::{cells_record, lent_record, zone_record};
