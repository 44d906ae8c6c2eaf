//! What a table strategy stands for at a type.
//! The function here has an empty body; its contract is a law, proved for every strategy and type.
#![tactic(auto)]

ghost use Rattle.vx_dispatch.specs.Statements.{TablesAreDispatched};

/// A table writes what the strategy writes for which it stands at the type.
pub fn tables_are_dispatched()
    ensures { TablesAreDispatched }
{}
