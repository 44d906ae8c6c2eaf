ghost use Rattle.std.specs.Prelude.{◌≡◌};
ghost use Rattle.std.specs.Option.{option_copied};
ghost use Rattle.vx_segment_map.specs.SegmentView.{segment_in};

use vx_model::Blob;

/// Segments with numbers that follow one another.
#[derive(Debug, Drop)]
pub struct SegmentMap {
    /// The number of the first.
    pub first: u32,
    pub list: Vec<Blob>,
}

impl SegmentMap {
    /// The segment of this number.
    pub fn segment(&self, number: u32) -> Option<&Blob>
        ensures { option_copied result ≡ segment_in self.now number }
    {
        if number < self.first {
            return None;
        }
        self.list.get((number - self.first) as usize)
    }
}
