//! Laws of fronts. Each function here has an empty body; its contract is a law, proved for all rows.

ghost use Rattle.vx_dict_encoder.specs.Statements.{FrontsGiveRows, FrontsJoin, FrontsCutRuns, FrontsBegin};

/// The codes of a front, applied to its cells, give its rows; its cells fit, with the next row they don't, and those that
/// were there before keep their places.
pub fn fronts_give_rows()
    ensures { FrontsGiveRows }
{}

/// The front of two batches is that of the first, and where it has all of the first, then that of the second.
pub fn fronts_join()
    ensures { FrontsJoin }
{}

/// Fronts, with the dictionary emptied behind each, cut rows into the runs of a dictionary node.
pub fn fronts_cut_runs()
    ensures { FrontsCutRuns }
{}

/// Of a dictionary without cells at least one row fits.
pub fn fronts_begin()
    ensures { FrontsBegin }
{}
