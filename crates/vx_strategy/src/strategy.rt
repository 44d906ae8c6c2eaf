use crate::chunked::ChunkedLayoutStrategy;
use crate::compressing::CompressingStrategy;
use crate::dict::DictStrategy;
use crate::flat::FlatLayoutStrategy;
use crate::grouping::{BufferedStrategy, CollectStrategy, RepartitionStrategy};
use crate::list::ListLayoutStrategy;
use crate::structs::StructStrategy;
use crate::table::TableStrategy;
use crate::zoned::ZonedStrategy;
use std::alloc::AllocError;
use std::fmt;

/// How a stream of chunks is written: a tree of nodes. Constructors alone make one, so each is admitted.
#[derive(Drop)]
#[cycle(strategy)]
pub enum Strategy {
    Flat(FlatLayoutStrategy),
    Chunked(ChunkedLayoutStrategy),
    Struct(StructStrategy),
    List(ListLayoutStrategy),
    Dict(DictStrategy),
    Zoned(ZonedStrategy),
    Repartition(RepartitionStrategy),
    Buffered(BufferedStrategy),
    Collect(CollectStrategy),
    Compressing(CompressingStrategy),
    Table(TableStrategy),
}

impl Clone for Strategy {
    ghost use Rattle.std.specs.Prelude.{◌≡◌};
    ghost use Rattle.vx_strategy.specs.StrategyView.{strategy_data};

    ghost is_clone = { λ s copy. strategy_data copy ≡ strategy_data s };

    /// Shares what the strategy holds; what is copied are the names and paths of fields.
    fn clone(&self) -> Result<Strategy, AllocError> {
        match self {
            Strategy::Flat(s) => Ok(s.into_strategy()),
            Strategy::Chunked(s) => Ok(s.clone()?.into_strategy()),
            Strategy::Struct(s) => Ok(s.clone()?.into_strategy()),
            Strategy::List(s) => Ok(s.clone()?.into_strategy()),
            Strategy::Dict(s) => Ok(s.clone()?.into_strategy()),
            Strategy::Zoned(s) => Ok(s.clone()?.into_strategy()),
            Strategy::Repartition(s) => Ok(s.clone()?.into_strategy()),
            Strategy::Buffered(s) => Ok(s.clone()?.into_strategy()),
            Strategy::Collect(s) => Ok(s.clone()?.into_strategy()),
            Strategy::Compressing(s) => Ok(s.clone()?.into_strategy()),
            Strategy::Table(s) => Ok(s.clone()?.into_strategy()),
        }
    }
}

impl fmt::Debug for Strategy {
    ghost use Rattle.std.specs.Prelude.{None};

    ghost debug_output = { λ s. None };

    /// The kind alone.
    fn fmt<W: fmt::Write>(&self, f: &mut fmt::Formatter<W>) -> fmt::Result {
        f.write_str(kind(self))
    }
}

fn kind(strategy: &Strategy) -> &'static str {
    match strategy {
        Strategy::Flat(_) => "Flat",
        Strategy::Chunked(_) => "Chunked",
        Strategy::Struct(_) => "Struct",
        Strategy::List(_) => "List",
        Strategy::Dict(_) => "Dict",
        Strategy::Zoned(_) => "Zoned",
        Strategy::Repartition(_) => "Repartition",
        Strategy::Buffered(_) => "Buffered",
        Strategy::Collect(_) => "Collect",
        Strategy::Compressing(_) => "Compressing",
        Strategy::Table(_) => "Table",
    }
}
