//! Options of strategies, tests of them, and why no strategy is made.
#![tactic(auto)]

mod block_rule;
mod dict;
mod error;
mod options;
mod zone_rule;
mod zones;

pub use block_rule::BlockRule;
pub use dict::dict_layout_supported;
pub use error::BuildError;
pub use options::{
    DictLayoutConstraints, DictLayoutOptions, RepartitionWriterOptions, ZonedLayoutOptions,
};
pub use zone_rule::ZoneRule;
pub use zones::{are_few, zone_length};
