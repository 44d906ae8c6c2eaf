//! Nodes of strategies under one name: strategies, what stands for a table at a type, and the rules of the nodes, with
//! what each gives at a chunk and why it refuses.
#![tactic(auto)]

mod error;
mod outputs;
mod rule;

pub use error::NodeError;
pub use outputs::{Output, Outputs};
pub use rule::Rule;
pub use vx_react::Place;
pub use vx_regroup::{Buffered, Collect, Regroup, Repartition};
pub use vx_runs::RunCutter;
pub use vx_split::{ColumnSplit, ListSplit, SplitError};
pub use vx_strategy::{
    BufferedStrategy, BuildError, ChildStrategy, ChunkedLayoutStrategy, CollectStrategy,
    CompressingStrategy, DictStrategy, FlatLayoutStrategy, ListLayoutStrategy, ListWrapper,
    RepartitionStrategy, Strategy, StructStrategy, TableStrategy, ZonedStrategy,
    dict_layout_supported,
};
pub use vx_strategy_options::{
    DictLayoutConstraints, DictLayoutOptions, RepartitionWriterOptions, ZonedLayoutOptions,
};
pub use vx_table_dispatch::dispatch;
pub use vx_zone_guard::{GuardError, ZoneGuard};
