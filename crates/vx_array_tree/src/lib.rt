//! The array tree of a segment: the tree of its encodings, which a layout may keep.
#![tactic(auto)]

ghost use Rattle.std.specs.Prelude.{◌≡◌, Bool, List, Some};
ghost use Rattle.vx_model.specs.declared.encoding.EncodingId.{EncodingId};
ghost use Rattle.vx_model.specs.ChunkData.{ChunkData};
ghost use Rattle.vx_segment_writer.specs.Segment.{encode, tree_bytes};
ghost use Rattle.vx_array_tree.specs.Written.{IsEncoded};

/// The segment's tree: what stands before the last eight bytes, which are its length.
pub fn array_tree(segment: &[u8]) -> &[u8]
    requires { IsEncoded segment.now }
    ensures { (ctx : List EncodingId) (padded : Bool) (p : ChunkData) → encode ctx padded p ≡ Some segment.now → result.now ≡ tree_bytes ctx padded p }
{
    let Some((front, last)) = segment.split_last_chunk::<8>() else {
        unreachable!();
    };
    let length = u64::from_le_bytes(*last) as usize;
    &front[front.len() - length..]
}
