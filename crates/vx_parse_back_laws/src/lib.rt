//! What is written is read again as the same layout.
//! The function here has an empty body; its contract is a law, proved for every plan.
#![tactic(auto)]

ghost use Rattle.vx_parse_back_laws.specs.Statements.{WrittenIsParsed, WrittenIsKnown, SessionKnowsWrites};

/// The bytes of a layout that a write gives are built into the same layout, at the schema's type and within limits, in a
/// scope that knows the layout: the kinds of its nodes, the encodings of its segments, the aggregates of its zone tables,
/// of which each table has fewer than 2^32, as their number has 32 bits in metadata. A session of all kinds and all
/// aggregates knows each layout that is written by its encodings.
pub fn written_is_parsed()
    ensures parsed { WrittenIsParsed }
    ensures known { WrittenIsKnown }
    ensures session { SessionKnowsWrites }
{}
