//! The sink that columns share, without its lock: the columns' fronts, the history of writes, and what its ledgers count.
#![tactic(auto)]

mod fronts;
mod pairs;
mod seat;
mod shares;
mod state;
mod turn;

pub use pairs::Pairs;
pub use seat::{Seat, SeatError};
pub use state::SinkState;
pub use turn::Turn;
pub use vx_order_answer::{OrderError, Receipt, WriteErrorName};
