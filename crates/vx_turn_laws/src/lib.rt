//! Tasks of nodes against the rules that react, and the guard of zones against what is planned.
//! Each function here has an empty body; its contract is a law, proved for every node and stream.
#![tactic(auto)]

ghost use Rattle.vx_turn_laws.specs.Statements.{GroupTurnsReact, CollectTurnsReact, RunTurnsReact, RunsStart, ZonedTurnsGuard, GuardsArePlanned};

/// What a regrouping node puts on its child's queue is what its rule gives.
pub fn group_turns_react()
    ensures { GroupTurnsReact }
{}

/// What a collecting node holds is what the collector holds, and what it puts on its child's queue is what that gives.
pub fn collect_turns_react()
    ensures { CollectTurnsReact }
{}

/// What a dictionary node puts on the queues of its runs' children is what the cutter gives, from the first cut on.
pub fn run_turns_react()
    ensures turns { RunTurnsReact }
    ensures start { RunsStart }
{}

/// What a zoned node refuses, records and keeps of a chunk is what the guard of zones does.
pub fn zoned_turns_guard()
    ensures { ZonedTurnsGuard }
{}

/// What the guard of zones refuses first of a stream is the first fault of the plan, and what it records makes the
/// plan's table.
pub fn guards_are_planned()
    ensures { GuardsArePlanned }
{}
