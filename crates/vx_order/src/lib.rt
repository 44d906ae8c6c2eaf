//! The ordered write: segments are appended in the order of their paths.
#![tactic(auto)]

mod attempt;
mod ids;
mod local;
mod ordered;

pub use attempt::Attempt;
pub use ids::{make_ids, split_off};
pub use local::LocalOrder;
pub use ordered::Order;
pub use vx_order_answer::{OrderError, Receipt, WriteErrorName};
