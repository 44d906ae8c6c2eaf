//! Machines whose runs are told, and small trees that show what each rule excludes.

ghost use Rattle.std.specs.Prelude.{[], ◌∷◌};
ghost use Rattle.vx_tasks.specs.Runs.{ChunkedSteps, StructSteps, OneBatch, NoBatch, TwoBatches, TwoColumns, ManyChunks, WrongBatch};
ghost use Rattle.vx_tasks.specs.Broken.{IsStuck, IsDisordered, never_started, unread, early_append, early_join, late_close, late_start, never_closed, open_join, kept_path, two_held, low_join, falling, low_item, low_birth, low_append, IsOverdrawn, IsHasty, one_item, greedy, late_gift, taker, hasty};

/// How many steps a run takes, whatever the schedule.
pub fn step_counts()
    ensures chunks { ChunkedSteps }
    ensures columns { StructSteps }
{}

/// Traces of small runs.
pub fn traces()
    ensures one { OneBatch }
    ensures none { NoBatch }
    ensures two { TwoBatches }
    ensures columns { TwoColumns }
{}

/// Runs that end with a refusal.
pub fn refusals()
    ensures chunks { ManyChunks }
    ensures batch { WrongBatch }
{}

/// Trees that break one rule each: the run gets stuck.
pub fn stuck()
    ensures begun { IsStuck never_started }
    ensures reads_all { IsStuck unread }
    ensures reads_first { IsStuck early_append × IsStuck early_join }
    ensures closed_first { IsStuck late_close }
    ensures started_first { IsStuck late_start }
    ensures open_refuses { IsStuck never_closed }
    ensures open_moves { IsStuck open_join }
    ensures at_end { IsStuck kept_path }
    ensures keeps { IsStuck two_held }
    ensures apart { IsStuck low_join }
{}

/// Trees that break one rule of order each: the appends don't ascend.
pub fn disordered()
    ensures own { IsDisordered falling }
    ensures unsent { IsDisordered low_item }
    ensures unborn { IsDisordered low_birth }
    ensures inside { IsDisordered low_append }
{}

/// Tasks that break a rule on the queue between them: what is taken isn't what was given.
pub fn miscounted()
    ensures enough { IsOverdrawn one_item greedy [] 4 }
    ensures shut_last { IsOverdrawn late_gift taker (0 ∷ 1 ∷ []) 2 }
    ensures reads_first { IsHasty one_item hasty [] 1 }
{}
