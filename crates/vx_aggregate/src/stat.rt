use crate::aggregate::AggregateFn;

/// A statistic, in the order of its number.
#[derive(Clone, Copy, Debug, PartialEq, Eq, PartialOrd, Ord)]
pub enum Stat {
    Max,
    Min,
    Sum,
    NullCount,
    UncompressedSizeInBytes,
}

impl Stat {
    ghost use Rattle.std.specs.Prelude.{◌≡◌, MatchOption, option_map};
    ghost use Rattle.vx_aggregate.specs.AggregateView.{aggregate};
    ghost use Rattle.vx_aggregate.specs.Stats.{stat_number, stat_name, stat_aggregate};

    /// The statistics in order.
    pub const ALL: [Stat; 5] = [
        Stat::Max,
        Stat::Min,
        Stat::Sum,
        Stat::NullCount,
        Stat::UncompressedSizeInBytes,
    ];

    /// The bit that stands for the statistic in bytes.
    pub fn number(self) -> u8
        ensures { result ≡ stat_number self }
    {
        match self {
            Stat::Max => 0,
            Stat::Min => 1,
            Stat::Sum => 2,
            Stat::NullCount => 3,
            Stat::UncompressedSizeInBytes => 4,
        }
    }

    /// The name that texts show.
    pub fn name(self) -> &'static str
        ensures { result.now ≡ stat_name self }
    {
        match self {
            Stat::Max => "max",
            Stat::Min => "min",
            Stat::Sum => "sum",
            Stat::NullCount => "null_count",
            Stat::UncompressedSizeInBytes => "uncompressed_size_in_bytes",
        }
    }

    /// The aggregate of this name, where there is one.
    pub fn aggregate_fn(&self) -> Option<AggregateFn>
        ensures { option_map aggregate result ≡ stat_aggregate self.now }
    {
        match self {
            Stat::Max => Some(AggregateFn::Max),
            Stat::Min => Some(AggregateFn::Min),
            Stat::Sum => Some(AggregateFn::Sum),
            Stat::NullCount => Some(AggregateFn::NullCount),
            Stat::UncompressedSizeInBytes => None,
        }
    }
}
