//! The step machine over data, and its laws: a tree of tasks that each know what they do next, and its steps. Each step is
//! one of the theory of tasks, on a tree of scripts that is read off the state and never changes.
//! Each function here has an empty body; its contract is a law, proved for every state that stands.
#![tactic(auto)]

ghost use Rattle.vx_machine_turns.specs.Acts.{written_by, raised_in, lowered_in};
ghost use Rattle.vx_machine_turns.specs.Readings.{pair_reading, fault_reading, layout_reading, number_reading, index_reading, start_reading, raise_reading, lower_reading};
ghost use Rattle.vx_machine_steps.specs.StartPlanned.{StartAtIsPlanned, StartIsPlanned};
ghost use Rattle.vx_machine_steps.specs.Laws.{MovesAgree, HeldAgrees, MoveKeeps, RunsLead, ReadingStays, ScatteredIsOne, AppendedFirst, AllSorted, JoinsAreFree, EndIsFree, OverIsDone, SomeMove, MovesLower, RunsCount, NotesAgree, NotesGrow, NotesEnd, Sums, Lists, BirthsWithin, RefusalsWithin, NoneRefused, StartReads, StartOpens, TidyIsNeat, StartIsNeat, StartStands};

/// Each move is one of the theory, and the state that it leads to stands again.
pub fn steps()
    ensures moves { MovesAgree }
    ensures held { HeldAgrees }
    ensures keeps { MoveKeeps }
    ensures runs { RunsLead }
{}

/// What is read off a state never changes.
pub fn readings()
    ensures pairs { ReadingStays pair_reading }
    ensures faults { ReadingStays fault_reading }
    ensures layouts { ReadingStays layout_reading }
    ensures numbers { ReadingStays number_reading }
    ensures indices { ReadingStays index_reading }
    ensures starts { ReadingStays start_reading }
    ensures raised { ReadingStays raise_reading }
    ensures lowered { ReadingStays lower_reading }
{}

/// What is appended: the first of all pairs in order of path, and in the end all.
pub fn appends()
    ensures one { ScatteredIsOne }
    ensures first { AppendedFirst }
    ensures sorted { AllSorted }
{}

/// Where tasks below have done all.
pub fn ends()
    ensures joins { JoinsAreFree }
    ensures free { EndIsFree }
    ensures done { OverIsDone }
{}

/// Nothing gets stuck, and the work left falls by one with each move.
pub fn progress()
    ensures some { SomeMove }
    ensures lowers { MovesLower }
    ensures counts { RunsCount }
{}

/// Runs under a schedule: what is noted of them is the theory's trace.
pub fn traces()
    ensures agree { NotesAgree }
    ensures grow { NotesGrow }
    ensures whole { NotesEnd }
{}

/// What moves count, against what is read off a state.
pub fn totals()
    ensures raised { Sums raised_in raise_reading }
    ensures lowered { Sums lowered_in lower_reading }
    ensures pairs { Lists (λ a. written_by a.kind a.bytes) pair_reading }
    ensures numbers { Lists (λ a. a.numbers) number_reading }
    ensures indices { Lists (λ a. a.indices) index_reading }
    ensures births { BirthsWithin }
{}

/// What a move refuses.
pub fn refusals()
    ensures within { RefusalsWithin }
    ensures none { NoneRefused }
{}

/// The start of a strategy's machine: it stands, and what is read off it is planned, wherever it can begin; the root's can.
pub fn start_is_planned()
    ensures planned { StartAtIsPlanned }
    ensures root { StartIsPlanned }
{}

/// The start.
pub fn starts()
    ensures pairs { StartReads pair_reading }
    ensures faults { StartReads fault_reading }
    ensures layouts { StartReads layout_reading }
    ensures numbers { StartReads number_reading }
    ensures indices { StartReads index_reading }
    ensures starts { StartReads start_reading }
    ensures opened { StartOpens }
    ensures raised { StartReads raise_reading }
    ensures lowered { StartReads lower_reading }
    ensures tidy { TidyIsNeat }
    ensures neat { StartIsNeat }
    ensures stands { StartStands }
{}
