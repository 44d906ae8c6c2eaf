//! Runs of the step machine as the program keeps it, step by step: each is a write that is under way, with what is promised
//! of one. Each function here is a law; its body calls the laws that it stands on.
#![tactic(auto)]

ghost use Rattle.vx_machine_runs.specs.Runs.{StartIsUnderway, StepIsUnderway, RunByIsUnderway, PlacesArePicks, RunIsUnderway, ScheduleIsFree, NumberIsFree};
ghost use Rattle.vx_machine_runs.specs.Courses.{CourseIsUnderway, CourseIsReady, CourseIsFront, CourseGoesOn, CourseHasNames, CourseEnds, CourseHasCause, CourseMisfitIsRead, CourseStartHasCause, CourseIsCounted, CourseFits};
ghost use Rattle.vx_machine_runs.specs.Ends.{StaysReady, EndsWhole, StepsHaveCause};
ghost use Rattle.vx_machine_runs.specs.Steps.{IdleIsFinished, MisfitIsRead, HistoryIsFront, AppendIsOneMore, PastIsCaused, StartIsCaused, ValidIsSound, ValidStarts};
ghost use Rattle.vx_machine_runs.specs.Answers.{AskedBeforeEnd, AnswersAreNoted, TakenAreTyped, TakenAreWhole};
ghost use Rattle.vx_machine_runs.specs.Traces.{ReadyIsWithinLeft, ReadyIsWithinWork, NextIsWithinWork, NotesAreWithinWork, NotesAreFirst, NotesAreFewer, ReadyIsMore, NotesAreWhole, RefusalIsLast, MisfitIsLast, AppendsAreNoted};
ghost use Rattle.vx_machine_runs.specs.Picks.{PicksAreExact, ReadyIsWithinSteps, ReadyIsWithinAll};
ghost use Rattle.vx_machine_runs.specs.Numbers.{NumbersAreCounted, NumbersFit};
ghost use Rattle.vx_machine_runs.specs.Tracked.{StepIsTracked, StepsAreTracked, TrackerComes, TrackerComesWithin};

/// From the start on, step by step.
pub fn runs()
    ensures start { StartIsUnderway }
    ensures step { StepIsUnderway }
    ensures by { RunByIsUnderway }
    ensures picks { PlacesArePicks }
    ensures run { RunIsUnderway }
    ensures free { ScheduleIsFree }
{
    vx_machine_promises::steps();
}

/// Wherever a run begins and over whatever sink, also one that others use too: it is under way, something is ready until the machine has
/// finished, what it has appended are the first pairs of the plan, each step leaves one act less, and each batch takes one of its paths.
pub fn courses()
    ensures underway { CourseIsUnderway }
    ensures ready { CourseIsReady }
    ensures front { CourseIsFront }
    ensures on { CourseGoesOn }
    ensures names { CourseHasNames }
{
    vx_machine_promises::anywhere();
}

/// Where such a run ends all is written as planned, and what a step of it is refused for has its cause in the plan.
pub fn course_ends()
    ensures ends { CourseEnds }
    ensures causes { CourseHasCause }
    ensures misfits { CourseMisfitIsRead }
    ensures starts { CourseStartHasCause }
{
    vx_machine_promises::anywhere();
}

/// What such a run has counted where it has finished, against the plan's numbers.
pub fn course_counts()
    ensures counted { CourseIsCounted }
    ensures fit { CourseFits }
{
    vx_machine_promises::anywhere();
}

/// The number of the next segment is told by appends alone.
pub fn numbers()
    ensures { NumberIsFree }
{}

/// What is ready, where a run ends, and why a step is refused.
pub fn ends()
    ensures ready { StaysReady }
    ensures whole { EndsWhole }
    ensures causes { StepsHaveCause }
{
    vx_machine_promises::ends();
    vx_machine_promises::causes();
}

/// What was appended, wherever a run stands, and what holds of the next step.
pub fn stands()
    ensures idle { IdleIsFinished }
    ensures misfits { MisfitIsRead }
    ensures front { HistoryIsFront }
    ensures append { AppendIsOneMore }
    ensures past { PastIsCaused }
    ensures start { StartIsCaused }
    ensures valid { ValidIsSound }
    ensures begins { ValidStarts }
{
    vx_machine_promises::fronts();
    vx_machine_promises::causes();
    vx_machine_promises::valid();
}

/// What the source told.
pub fn answers()
    ensures asked { AskedBeforeEnd }
    ensures noted { AnswersAreNoted }
    ensures typed { TakenAreTyped }
    ensures whole { TakenAreWhole }
{}

/// How many are ready, and what is noted, against the work of the tree of scripts.
pub fn traces()
    ensures left { ReadyIsWithinLeft }
    ensures work { ReadyIsWithinWork }
    ensures next { NextIsWithinWork }
    ensures within { NotesAreWithinWork }
    ensures first { NotesAreFirst }
    ensures fewer { NotesAreFewer }
    ensures more { ReadyIsMore }
    ensures whole { NotesAreWhole }
    ensures refused { RefusalIsLast }
    ensures misfit { MisfitIsLast }
    ensures appends { AppendsAreNoted }
{
    vx_machine_promises::progress();
    vx_machine_promises::traces();
    vx_machine_promises::ends();
}

/// Places that are picked by a count that stops at a greatest number.
pub fn picks()
    ensures exact { PicksAreExact }
    ensures steps { ReadyIsWithinSteps }
    ensures all { ReadyIsWithinAll }
{
    vx_machine_promises::steps();
    vx_machine_promises::traces();
    vx_machine_promises::ends();
}

/// What a finished run has counted, against the plan's numbers.
pub fn counts()
    ensures counted { NumbersAreCounted }
    ensures fit { NumbersFit }
{
    vx_machine_promises::steps();
    vx_machine_promises::ends();
}

/// What the tracker counts in a run.
pub fn tracks()
    ensures step { StepIsTracked }
    ensures within { StepsAreTracked }
    ensures comes { TrackerComes }
    ensures fits { TrackerComesWithin }
{
    vx_machine_promises::causes();
}
