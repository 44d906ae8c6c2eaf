use crate::precision::Precision;
use vx_aggregate::Stat;

/// What is known of each statistic of a column.
#[derive(Debug, Drop)]
pub struct StatsSet {
    pub(crate) max: Precision,
    pub(crate) min: Precision,
    pub(crate) sum: Precision,
    pub(crate) null_count: Precision,
    pub(crate) size: Precision,
}

impl StatsSet {
    ghost use Rattle.std.specs.Prelude.{◌≡◌};
    ghost use Rattle.vx_file_stats.specs.Precisions.{precision, set_data, stat_in};

    /// What is known of the statistic.
    pub fn get(&self, stat: Stat) -> &Precision
        ensures { precision result.now ≡ stat_in (set_data self.now) stat }
    {
        match stat {
            Stat::Max => &self.max,
            Stat::Min => &self.min,
            Stat::Sum => &self.sum,
            Stat::NullCount => &self.null_count,
            Stat::UncompressedSizeInBytes => &self.size,
        }
    }
}
