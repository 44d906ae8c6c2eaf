//! What holds of all layouts.

ghost use Rattle.vx_read.specs.Agreement.{RowsWithoutFault};

/// A law, no work: whatever segments are read by, a layout has rows exactly where nothing in it is at fault.
#[tactic(auto, using(crate::proofs::FaultLaws::law_rules))]
pub fn rows_without_fault()
    ensures { RowsWithoutFault }
{}
