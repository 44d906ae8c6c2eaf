//! Aggregates of zones and statistics: names, options, and the types of their values and tables.
#![tactic(auto)]

mod aggregate;
mod ids;
mod spec;
mod stat;
mod state;
mod table;

pub use aggregate::AggregateFn;
pub use spec::SpecError;
pub use stat::Stat;
pub use state::sum_ptype;
pub use table::{
    MAX_IS_TRUNCATED, MIN_IS_TRUNCATED, aggregate_stats_table_dtype, default_zoned_aggregate_fns,
    legacy_stats_table_dtype,
};
