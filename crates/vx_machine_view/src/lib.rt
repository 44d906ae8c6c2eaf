//! The whole step machine in plain data, its source and its tasks; and its laws: it shows a state of the abstract machine, and
//! what it does is what that can do.
//! Each function here has an empty body; its contract is a law.
#![tactic(auto)]

ghost use Rattle.vx_machine_view.specs.Steps.{StepsShow};
ghost use Rattle.vx_machine_view.specs.Reserved.{StepsReserve, StartReservesAt, WholeReservesAt, FinishReserves};
ghost use Rattle.vx_machine_state.specs.Images.{ImagesAreCareful};
ghost use Rattle.vx_machine_view.specs.Suited.{FormsAreSuited};
ghost use Rattle.vx_machine_view.specs.Places.{WholeIsReady, SourcePlace, RootPlace};
ghost use Rattle.vx_machine_view.specs.Underway.{ReachedStands, AppendIsNext, WriteMoves, WriteSteps, WriteReady, WriteEnds, WriteJoins};
ghost use Rattle.vx_named_tasks.specs.Names.{Names, Outset};
ghost use Rattle.vx_path.specs.Path.{Eof};
ghost use Rattle.vx_machine_view.specs.Whole.{StartShowsAt, StepShowsAt, ReadyShowsAt, HeldShowsAt, FinishShowsAt, LayoutShowsAt, SoundIsTyped, LeastAgrees};

/// What tasks can do is what the abstract ones can, and after it they show the state after it.
pub fn tasks()
    ensures { StepsShow }
{}

/// How many are ready, and where the steps of the source and of the root stand among all.
pub fn places()
    ensures whole { WholeIsReady }
    ensures source { SourcePlace }
    ensures root { RootPlace }
{}

/// The whole machine shows a state from its start on, wherever it begins, step by step, for each future of its source.
pub fn steps()
    ensures start { (names : Names) (eof : Eof) → StartShowsAt names eof }
    ensures step { (o : Outset) → StepShowsAt o }
    ensures ready { (o : Outset) → ReadyShowsAt o }
{}

/// What it holds, when it has finished, and with which layout.
pub fn ends()
    ensures held { (o : Outset) → HeldShowsAt o }
    ensures finish { (o : Outset) → FinishShowsAt o }
    ensures layout { (o : Outset) → LayoutShowsAt o }
{}

/// What tasks have reserved in the tracker: each step changes it by what it adds to the tracker and takes from it.
pub fn reserves()
    ensures start { (names : Names) (eof : Eof) → StartReservesAt names eof }
    ensures steps { StepsReserve }
    ensures whole { (o : Outset) → WholeReservesAt o }
    ensures finish { FinishReserves }
{}

/// In a write that is under way: each step of the machine, as its schedule picks it, is a step of the write.
pub fn writes()
    ensures stands { ReachedStands }
    ensures number { AppendIsNext }
    ensures moves { WriteMoves }
    ensures steps { WriteSteps }
    ensures ready { WriteReady }
    ensures ends { WriteEnds }
    ensures joins { WriteJoins }
{}

/// What these laws ask of the forms of strategies, of chunks, images and lists of paths.
pub fn conditions()
    ensures suited { FormsAreSuited }
    ensures typed { SoundIsTyped }
    ensures least { LeastAgrees }
    ensures images { ImagesAreCareful }
{}
