//! What each kind of node does with its stream, as a task: item by item, and at the end.
//! Each function here has an empty body; its contract is a law, proved for every strategy and type.
#![tactic(auto)]

ghost use Rattle.vx_machine_turns.specs.Paths.{TurnsGo, TasksAreGood};
ghost use Rattle.vx_machine_turns.specs.Planned.{TasksArePlanned, FuelIsEnough, StartFaultsAgree};
ghost use Rattle.vx_machine_turns.specs.Scripts.{TurnsAreCalm};
ghost use Rattle.vx_machine_turns.specs.Tidy.{ScriptsAreTidy, FirstsAreStarted};
ghost use Rattle.vx_machine_turns.specs.Whole.{SourceIsSilent, SourceIsTidy, MachineIsPlanned, MachineIsGood, RootIsSource};

/// The tasks of a strategy at a type append, refuse, lay out and count what is planned.
pub fn tasks_are_planned()
    ensures { TasksArePlanned }
{}

/// A form has the type that its strategy is walked at, and its own fuel is enough for all its tasks.
pub fn fuel_is_enough()
    ensures { FuelIsEnough }
{}

/// What a form's start refuses is what the plan refuses at the start.
pub fn start_faults_agree()
    ensures { StartFaultsAgree }
{}

/// Behind the first action of a block none takes.
pub fn turns_are_calm()
    ensures { TurnsAreCalm }
{}

/// A script gives nothing to a child that it hasn't started or whose queue it has closed.
pub fn scripts_are_tidy()
    ensures tidy { ScriptsAreTidy }
    ensures firsts { FirstsAreStarted }
{}

/// What a turn holds, gives and starts goes on from what its task knows; and a strategy's tasks keep the rules of the theory,
/// on a stream before the eof path.
pub fn tasks_are_good()
    ensures turns { TurnsGo }
    ensures good { TasksAreGood }
{}

/// A strategy's whole machine, with the source on top, is what is planned of the source's batches, and its scripts keep the rules
/// of the theory: wherever it begins. The root's begins at its first pointer.
pub fn machines_are_planned()
    ensures silent { SourceIsSilent }
    ensures tidy { SourceIsTidy }
    ensures planned { MachineIsPlanned }
    ensures good { MachineIsGood }
    ensures root { RootIsSource }
{}
