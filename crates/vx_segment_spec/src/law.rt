//! What holds of all segments.

ghost use Rattle.std.specs.Prelude.{◌≡◌, List, None, Ok, Err};
ghost use Rattle.vx_model.specs.declared.encoding.EncodingId.{EncodingId};
ghost use Rattle.vx_model.specs.Distinct.{first_repeat};
ghost use Rattle.vx_layout_spec.specs.Codec.{Lawful};
ghost use Rattle.vx_segment_spec.specs.Codec.{segment_codec};
ghost use Rattle.vx_segment_spec.specs.Reading.{bad_grammar, bad_type};
ghost use Rattle.vx_segment_spec.specs.Examples.{one_and_two, as_integers, integers};

/// A law, no work: in each context the codec of segments gives each whole chunk back.
pub fn segments_read_back()
    ensures { (ctx : List EncodingId) → first_repeat ctx ≡ None → Lawful segment_codec ctx }
{}

/// Examples, no work: the segment of 1 and 2, and copies with one byte changed.
pub fn segment_examples()
    ensures read { as_integers (one_and_two 1 0 2) ≡ Ok integers }
    ensures wrong_flag { as_integers (one_and_two 2 0 2) ≡ Err (bad_grammar 16) }
    ensures another_encoding { as_integers (one_and_two 1 1 2) ≡ Err (bad_type 0) }
    ensures a_row_more { as_integers (one_and_two 1 0 3) ≡ Err (bad_type 0) }
{}
