//! What tasks do without starting others: they put chunks on queues, append segments, join layouts, take what needs no child of
//! its own, and the end of their streams.
#![tactic(auto)]

mod acts;
mod dict_join;
mod ends;
mod join;
mod takes;

pub use acts::{append_due, close_all, hand_over, join_due, put};
pub use ends::end;
pub use takes::{ask_first, cut_runs, regroup};
