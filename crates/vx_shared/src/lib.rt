//! What columns on threads share: the ordered sink, and the count of the bytes that they hold back.
#![tactic(auto)]

mod bytes;
mod ordered;
mod total;

pub use bytes::SharedBytesTracker;
pub use ordered::OrderedSink;
pub use total::BytesSeat;
pub use vx_seats::{OrderError, Pairs, Receipt, Seat, SeatError, SinkState, Turn, WriteErrorName};
