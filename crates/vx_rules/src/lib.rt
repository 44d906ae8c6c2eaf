//! What the nodes make of a stream's chunks: blocks, flushes, columns and runs, and their laws.
//! Each function here has an empty body; its contract is a law, proved for every stream.
#![tactic(auto)]

ghost use Rattle.vx_rules.specs.Statements.{RegroupingKeepsRows, BlocksAreMultiples, BufferHoldsLess, RunsGiveRows, RunsAreLongest};

/// Each regrouping keeps the rows, in order.
pub fn regrouping_keeps_rows()
    ensures { RegroupingKeepsRows }
{}

/// Every block but the last has a positive multiple of the block length in rows.
pub fn blocks_are_multiples()
    ensures { BlocksAreMultiples }
{}

/// A buffer of a size above 0 holds less than twice its size before each chunk.
pub fn buffers_hold_less()
    ensures { BufferHoldsLess }
{}

/// The codes of each run, applied to its values, give its rows.
pub fn runs_give_rows()
    ensures { RunsGiveRows }
{}

/// A run ends only before a row with which its distinct cells don't fit any more.
pub fn runs_are_longest()
    ensures { RunsAreLongest }
{}
