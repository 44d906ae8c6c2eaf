//! Laws of zone maps: each function has an empty body.

ghost use Rattle.vx_zone_map.specs.Statements.{FinishedTablesAreTaken};

/// The table of a builder has the type of its aggregates and a row a zone, so `ZoneMap::try_new` refuses it for its
/// rows at most; and a zone's record in it is the one that was pushed, but for columns that are null in every zone.
pub fn finished_tables_are_taken()
    ensures { FinishedTablesAreTaken }
{}
