//! Pruning over the zone tables of what was written.
//! The function here has an empty body; its contract is a law, proved for every plan.
#![tactic(auto)]

ghost use Rattle.vx_prune_laws.specs.Statements.{PruningKeepsRows};

/// Pruning over the zone table of each zoned node loses no row that matches.
pub fn pruning_keeps_rows()
    ensures { PruningKeepsRows }
{}
