//! What is written: the plan of a strategy over a stream of batches, and its laws.
//! Each function here has an empty body; its contract is a law, proved for every plan.
#![tactic(auto)]

ghost use Rattle.vx_plan.specs.InOrder.{ChunksInOrder};
ghost use Rattle.vx_plan.specs.Statements.{RowsComeBack, PathsDistinct, PathsInRegion, PrefixWithin, StreamsGrow, StartFaultIsFixed, StartFaultStands, NoStartFault, FrontOfTaken, CountsRows, RecordsAreOfZones, ZonesAreTrue};

/// The rows of the numbered layout are the batches' rows, in order.
pub fn rows_come_back()
    ensures { RowsComeBack }
{}

/// No path of a segment is a prefix of another's.
pub fn paths_are_distinct()
    ensures { PathsDistinct }
{}

/// Each path goes on from a batch's path or from an eof path of the root.
pub fn paths_lie_in_region()
    ensures { PathsInRegion }
{}

/// What is written of the first batches is written of all, and what is wrong with the first is wrong with all.
pub fn prefixes_lie_within()
    ensures { PrefixWithin }
{}

/// Of the stream of any node, what is written of its first chunks is written of all, and what is wrong with them is wrong
/// with all.
pub fn streams_grow()
    ensures { StreamsGrow }
{}

/// What a node refuses before a chunk comes depends on its strategy, type and mark alone, and stands in each of its plans.
pub fn start_faults_stand()
    ensures fixed { StartFaultIsFixed }
    ensures stands { StartFaultStands }
    ensures none { NoStartFault }
{}

/// A front of all segments that the batches taken give is a front of those that these batches give.
pub fn fronts_are_of_taken()
    ensures { FrontOfTaken }
{}

/// The layout has the schema's type and as many rows as the batches.
pub fn layouts_count_rows()
    ensures { CountsRows }
{}

/// Chunking over flat writes each batch's segment, in order.
pub fn chunks_stand_in_order()
    ensures { ChunksInOrder }
{}

/// Record z of a zoned node is of the rows of zone z.
pub fn records_are_of_zones()
    ensures { RecordsAreOfZones }
{}

/// Each zoned node has a table of the records of exactly the rows of its zones.
pub fn zones_are_true()
    ensures { ZonesAreTrue }
{}
