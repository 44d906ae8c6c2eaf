//! The generated table: rows of an id, a city and an amount, made as they are asked for, a thousand at a time, and how it is
//! written.
#![tactic(auto)]

mod row;
mod source;
mod strategy;

pub use source::GeneratedSource;
pub use strategy::table_strategy;
