//! Runs of the step machine in code are writes: what a run has written at its end, and what stands where it stopped.
//! Each function here is a law; its body calls the laws that it stands on.

ghost use Rattle.vx_write.specs.Ran.{RunsAreLed};
ghost use Rattle.vx_write.specs.Runs.{DoneIsWritten, StoppedHalts, RunsLeaveSinks};
ghost use Rattle.vx_write.specs.Answered.{AnswersAreWritten, AnswersLeaveSinks, AnswersAreComplete, MisfitsAreRead};

/// The steps of a run lead on in plain data, and each counts what fits 64 bits.
pub fn leads()
    ensures { RunsAreLed }
{}

/// A run that is done has written the plan of all batches, and one that stopped a front of the plan of those taken.
pub fn writes()
    ensures done { DoneIsWritten }
    ensures stopped { StoppedHalts }
    ensures left { RunsLeaveSinks }
{
    vx_plan::rows_come_back();
    vx_machine_promises::steps();
    vx_machine_runs::runs();
    vx_machine_runs::ends();
    vx_machine_runs::stands();
    vx_machine_runs::traces();
    vx_machine_runs::counts();
    vx_machine_runs::tracks();
}

/// From before the start on: a write that was answered has written the plan, or a front of it. Of valid input it is refused
/// only for want of memory, or since the source or the sink failed.
pub fn answers()
    ensures written { AnswersAreWritten }
    ensures sink { AnswersLeaveSinks }
    ensures complete { AnswersAreComplete }
    ensures misfit { MisfitsAreRead }
{
    writes();
    vx_plan::start_faults_stand();
    vx_machine_turns::start_faults_agree();
    vx_machine_runs::runs();
    vx_machine_runs::stands();
    vx_machine_runs::tracks();
}
