//! A zone table is a chunk that can be in memory.
//! Each function here has an empty body; its contract is a law, proved for every table.
#![tactic(auto)]

ghost use Rattle.vx_zone_table_laws.specs.Statements.{TablesAreWhole};

/// The table of the records of zones is a whole chunk of the table's type.
pub fn tables_are_whole()
    ensures { TablesAreWhole }
{}
