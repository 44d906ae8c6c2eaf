//! Sizes of segments.

ghost use Rattle.std.specs.Prelude.{◌≡◌};
ghost use Rattle.vx_run.specs.Summary.{bytes_in};

use vx_model::Blob;

/// The bytes of all segments.
#[tactic(auto, using(crate::proofs::SummarySteps::byte_rules))]
pub(crate) fn total_bytes(segments: &[Blob]) -> u128
    ensures { result ≡ bytes_in segments.now }
{
    let mut total = 0u128;
    for segment in segments {
        total += segment.as_slice().len() as u128;
    }
    total
}
