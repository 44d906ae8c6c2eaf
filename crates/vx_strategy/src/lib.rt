//! Strategies: trees of writing nodes.
#![tactic(auto)]

mod child;
mod chunked;
mod compressing;
mod dict;
mod field_writer;
mod flat;
mod grouping;
mod list;
mod overrides;
mod strategy;
mod structs;
mod table;
mod wrapper;
mod zoned;

pub use child::ChildStrategy;
pub use chunked::ChunkedLayoutStrategy;
pub use compressing::CompressingStrategy;
pub use dict::DictStrategy;
pub use field_writer::FieldWriter;
pub use flat::FlatLayoutStrategy;
pub use grouping::{BufferedStrategy, CollectStrategy, RepartitionStrategy};
pub use list::ListLayoutStrategy;
pub use overrides::{Overrides, PathWriter};
pub use strategy::Strategy;
pub use structs::StructStrategy;
pub use table::TableStrategy;
pub use vx_strategy_options::{
    BuildError, DictLayoutConstraints, DictLayoutOptions, RepartitionWriterOptions,
    ZonedLayoutOptions, dict_layout_supported,
};
pub use wrapper::{ListWrapper, Wrapper};
pub use zoned::ZonedStrategy;
