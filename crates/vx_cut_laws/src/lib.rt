//! Trees of tasks where a refusal ends its task: all is left out that no run can reach, and runs are the same.
//! Each function here has an empty body; its contract is a law, proved for every tree that keeps the rules.
#![tactic(auto)]

ghost use Rattle.vx_cut_laws.specs.Laws.{SameMoves, SameHeld, SameRuns, SameTrace, RefusedEarly, CutIsDone, NothingCut};

/// The same can be done in each state, so runs and traces are the same.
pub fn same()
    ensures moves { SameMoves }
    ensures held { SameHeld }
    ensures runs { SameRuns }
    ensures traces { SameTrace }
{}

/// The work of the cut tree: more than the steps before a refusal, and all steps where nothing is left.
pub fn work()
    ensures refused { RefusedEarly }
    ensures done { CutIsDone }
{}

/// Where no task refuses, nothing is cut.
pub fn whole()
    ensures { NothingCut }
{}
