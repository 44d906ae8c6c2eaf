//! What holds of all bytes.

ghost use Rattle.vx_layout_codec_spec.specs.Again.{ParsedIsSpelled, SpelledIsParsed};

/// A law, no work: a layout that bytes are built into, and of which every node can be built, is spelled as these bytes in
/// the same context. So a layout has one spelling.
#[tactic(auto, using(crate::proofs::SpelledAgain::again_rules))]
pub fn parsed_is_spelled()
    ensures { ParsedIsSpelled }
{}

/// A law, no work: the bytes of a sound layout are built into that layout, at its type, in a scope that knows its kinds and
/// aggregates, and within limits that it keeps.
#[tactic(auto, using(crate::proofs::ParsedBack::back_rules))]
pub fn spelled_is_parsed()
    ensures { SpelledIsParsed }
{}
