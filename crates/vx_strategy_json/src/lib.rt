//! Strategies read from JSON.
#![tactic(auto)]

mod error;
mod made;
mod options;
mod strategy;

pub use error::StrategyError;
pub use options::read_aggregate;
pub use strategy::{read_strategy, read_wrap};
