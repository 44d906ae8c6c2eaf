//! Trees of scripts whose source is handed its batches' paths, or takes them from a pointer on.
//! The function here has an empty body; its contract is a law, proved for every tree.
#![tactic(auto)]

ghost use Rattle.vx_named_tasks.specs.Statements.{NamedSourcesKeep, OnwardIsSource, RootBegins, ColumnBegins};

/// Such a source on top of a root that is good for its batches makes a tree that keeps all rules and the order, with names
/// that ascend; a pointer's is the source of whole machines. The root's can begin with any number of batches, and a column's
/// with its own.
pub fn named_sources()
    ensures keep { NamedSourcesKeep }
    ensures onward { OnwardIsSource }
    ensures root { RootBegins }
    ensures column { ColumnBegins }
{}
