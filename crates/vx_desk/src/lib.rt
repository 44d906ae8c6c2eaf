//! The order under which a column's own machine runs: what is written is kept until it is taken on.
#![tactic(auto)]

mod desk;

pub use desk::{Desk, Unfailing};
