//! Tasks that start others: a chunked one its next child, a table's writer its child, a dictionary codes, values and fallback.
#![tactic(auto)]

mod chunked;
mod dict_start;
mod table_start;

pub use chunked::take_chunked;
pub use dict_start::{start_codes, start_fallback, start_values};
pub use table_start::start_table;
pub use vx_machine_start::start_task;
