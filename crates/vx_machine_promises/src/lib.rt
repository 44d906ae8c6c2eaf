//! What a write's machine promises, for every future of its source that is still open.
//! Each function here has an empty body; its contract is a law, proved wherever a write has come.
#![tactic(auto)]

ghost use Rattle.vx_named_tasks.specs.Names.{Outset};
ghost use Rattle.vx_machine_promises.specs.Promises.{StartIsReachedAt, StepIsReachedAt, StateStandsAt, SomethingIsReadyAt, WorkFallsAt, HistoryIsFirstAt, PathsAreApartAt, EndIsPlannedAt, RefusalsHaveCauseAt, MovesAreCountedAt, StartIsCountedAt, ValidIsSoundAt, StartIsReached, StepIsReached, SomethingIsReady, WorkFalls, WorkIsShared, SeenIsFirst, SeenIsWhole, AllSteps, FewerSteps, HistoryIsFirst, EndIsPlanned, RefusalsHaveCause, MovesAreCounted, StartIsCounted, ValidIsSound, AppendsFit, TakenIsPlanned};

/// Wherever a machine begins, over whatever sink: from the start on, step by step; something is ready, each move lowers the work left by
/// one, and what was appended are the first of all pairs. Where all is done it is as planned, and what a move refuses and counts is.
pub fn anywhere()
    ensures start { (o : Outset) → StartIsReachedAt o }
    ensures step { (o : Outset) → StepIsReachedAt o }
    ensures stands { (o : Outset) → StateStandsAt o }
    ensures ready { (o : Outset) → SomethingIsReadyAt o }
    ensures falls { (o : Outset) → WorkFallsAt o }
    ensures front { (o : Outset) → HistoryIsFirstAt o }
    ensures apart { (o : Outset) → PathsAreApartAt o }
    ensures ends { (o : Outset) → EndIsPlannedAt o }
    ensures refusals { (o : Outset) → RefusalsHaveCauseAt o }
    ensures moves { (o : Outset) → MovesAreCountedAt o }
    ensures starts { (o : Outset) → StartIsCountedAt o }
    ensures sound { (o : Outset) → ValidIsSoundAt o }
{}

/// From the start on, step by step.
pub fn steps()
    ensures start { StartIsReached }
    ensures step { StepIsReached }
{}

/// Nothing gets stuck, and the work left falls with each step.
pub fn progress()
    ensures ready { SomethingIsReady }
    ensures falls { WorkFalls }
    ensures shared { WorkIsShared }
{}

/// What is noted of the steps, and how many there are.
pub fn traces()
    ensures first { SeenIsFirst }
    ensures whole { SeenIsWhole }
    ensures all { AllSteps }
    ensures fewer { FewerSteps }
{}

/// What was appended.
pub fn fronts()
    ensures { HistoryIsFirst }
{}

/// Where all is done.
pub fn ends()
    ensures { EndIsPlanned }
{}

/// What a move refuses and counts has its cause in the plan.
pub fn causes()
    ensures refusals { RefusalsHaveCause }
    ensures moves { MovesAreCounted }
    ensures start { StartIsCounted }
    ensures taken { TakenIsPlanned }
{}

/// Of a valid input nothing is refused, and each count fits.
pub fn valid()
    ensures sound { ValidIsSound }
    ensures appends { AppendsFit }
{}
