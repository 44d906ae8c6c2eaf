//! The laws of every tree of tasks that keeps the rules.

ghost use Rattle.vx_tasks.specs.Laws.{MoveLowers, WorkIsShared, SomeReady, NoneReady, PendingCovered, WrittenAscends, WrittenBelow, WrittenFirst, EndIsWhole, RunLeads, RunStops, RunIsWhole, RefusedEarly, NamesAscend, QueuesStand};

/// The work left: a number that each step lowers by one.
pub fn left()
    ensures moves { MoveLowers }
    ensures shared { WorkIsShared }
    ensures refused { RefusedEarly }
{}

/// Nothing gets stuck: as long as work is left, a task is ready.
pub fn ready()
    ensures some { SomeReady }
    ensures none { NoneReady }
{}

/// The order of appends: nothing still to come is below the least path that is held.
pub fn order()
    ensures covered { PendingCovered }
    ensures ascends { WrittenAscends }
    ensures below { WrittenBelow }
{}

/// The appends so far are a beginning of all appends in order of path.
pub fn numbered()
    ensures { WrittenFirst }
{}

/// Once no work is left.
pub fn ended()
    ensures { EndIsWhole }
{}

/// Runs under a schedule, whatever it picks.
pub fn scheduled()
    ensures leads { RunLeads }
    ensures stops { RunStops }
    ensures whole { RunIsWhole }
{}

/// The order in which ready tasks are counted.
pub fn named()
    ensures { NamesAscend }
{}

/// The queues: nothing is taken that wasn't given, the end is seen on an empty queue alone, and a task that
/// isn't started has done nothing.
pub fn queues()
    ensures { QueuesStand }
{}
