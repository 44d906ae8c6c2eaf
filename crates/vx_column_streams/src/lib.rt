//! What the workers of a struct's columns read, against the streams that its node gives its columns.
//! The function here has an empty body; its contract is a law, proved for every struct and all batches.
#![tactic(auto)]

ghost use Rattle.vx_column_streams.specs.Streams.{StreamsAreColumns};

/// The chunks that are split off for a column, at the ids that are made for it, are the column's stream.
pub fn streams()
    ensures { StreamsAreColumns }
{}
