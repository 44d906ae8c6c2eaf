//! Ids in balance: how often a value holds each path, against the paths that are active, and calls that keep the balance.
//! Each function of this file has an empty body; its contract is a law.
#![tactic(auto)]

ghost use Rattle.vx_machine_ids.specs.Laws.{AdvanceMoves, DescendMoves, SplitMoves, ReleaseMoves, MovesNothing, MovesOn, MovesBeside, OwnsOn, LeavesNone};

mod ids;

pub use ids::{
    give_up_id, give_up_pointer, index_fits, take_below, take_children, take_id, take_inside,
};

/// What each call on ids and pointers moves.
pub fn calls()
    ensures advance { AdvanceMoves }
    ensures descend { DescendMoves }
    ensures split { SplitMoves }
    ensures release { ReleaseMoves }
{}

/// Moves follow each other, and leave alone what others hold.
pub fn moves()
    ensures nothing { MovesNothing }
    ensures then { MovesOn }
    ensures beside { MovesBeside }
    ensures owned { OwnsOn }
{}

/// Where one holds all that is active and gives it up, nothing stays active.
pub fn ends()
    ensures { LeavesNone }
{}
