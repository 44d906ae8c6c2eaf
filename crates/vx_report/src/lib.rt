//! The text of reports: what was written, and the rows that are read from it.
#![tactic(auto)]

mod report_text;
mod row_text;
mod trace_text;
mod zone_text;

pub use report_text::{columns_head, refused_columns, refused_report, report, report_head};
pub use row_text::row_lines;
pub use zone_text::TableRows;
