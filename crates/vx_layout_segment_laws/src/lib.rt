//! The segments that a plan's layout names, against those that the plan writes.
//! The function here has an empty body; its contract is a law, proved for every plan.
#![tactic(auto)]

ghost use Rattle.vx_layout_segment_laws.specs.Statements.{LayoutsNamePairs, PairsNamedOnce};

/// The layout names exactly the segments that are written, each once; and so in order of path, where each segment's number
/// is its place.
pub fn layouts_name_pairs()
    ensures pairs { LayoutsNamePairs }
    ensures once { PairsNamedOnce }
{}
