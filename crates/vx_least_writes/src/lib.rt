//! Where the machine's acts write: at the least of the paths that are held.
//! The function here has an empty body; its contract is a law, proved for every machine.
#![tactic(auto)]

ghost use Rattle.vx_least_writes.specs.LeastWrites.{StepsWriteLeast};

/// A ready task's act writes nothing, or one segment, whose path is the least of all.
pub fn writes()
    ensures { StepsWriteLeast }
{}
