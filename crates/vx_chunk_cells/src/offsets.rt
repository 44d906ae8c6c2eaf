//! Tests of offsets, and how far they reach.

ghost use Rattle.std.specs.Prelude.{◌≡◌, ◌≤◌, ◌-◌, ◌*◌, ◌^◌, length};
ghost use Rattle.vx_model.specs.Words.{head_or};
ghost use Rattle.vx_model.specs.ChunkData.{are_offsets as ascend};
ghost use Rattle.vx_chunk_cells.specs.Window.{last_of, Within};
ghost use Rattle.vx_chunk_cells.specs.Parts.{cover};

/// Whether the offsets, at least one, ascend and end within so many elements.
#[tactic(auto, using(crate::proofs::OffsetLaws::offset_rules))]
pub fn are_offsets(offsets: &[u64], count: u64) -> bool
    ensures { result ≡ ascend count offsets.now }
{
    if offsets.is_empty() {
        return false;
    }
    for i in 1..offsets.len() {
        if offsets[i - 1] > offsets[i] {
            return false;
        }
    }
    offsets[offsets.len() - 1] <= count
}

/// Whether the offsets begin at 0 and end at the number of elements.
#[tactic(auto, using(crate::proofs::OffsetLaws::cover_rules))]
pub fn cover(offsets: &[u64], count: u64) -> bool
    requires { 1 ≤ length offsets.now }
    ensures { result ≡ cover count offsets.now }
{
    offsets[0] == 0 && offsets[offsets.len() - 1] == count
}

/// How far it is from the first place to the last.
pub fn span_len(places: &[u64]) -> u128
    requires some { 1 ≤ length places.now }
    requires ascend { Within (head_or 0 places.now) (last_of places.now) places.now }
    ensures span { result ≡ last_of places.now - head_or 0 places.now }
    ensures bound { result ≤ (length places.now - 1) * (2 ^ 64 - 1) }
{
    u128::from(places[places.len() - 1] - places[0])
}
