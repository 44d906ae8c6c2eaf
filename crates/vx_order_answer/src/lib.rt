//! What a try to write in order answers: which segment was written, or why none was. It stands below all that write in
//! order.
#![tactic(auto)]

mod errors;
mod receipt;

pub use errors::{OrderError, WriteErrorName};
pub use receipt::Receipt;
