//! What a task's node is by itself: what it has in mind between two chunks, what is next of it, and how it gives up what it holds.
#![tactic(auto)]

mod dict_node;
mod given_up;
mod grouped_node;
mod item;
mod kinds;
mod node;
mod zoned_node;

pub use dict_node::{DictNode, DictProbe, DictRuns, RunStart, RunsSoFar};
pub use given_up::{
    give_up_grouped, give_up_newest, give_up_probe, give_up_runs, give_up_so_far, give_up_zoned,
    into_ended, release_all,
};
pub use grouped_node::GroupedNode;
pub use item::{Due, Item, Segment, Stored, give_up_dues, give_up_item, give_up_items, release};
pub use kinds::{ChunkedNode, ColumnsNode, FlatNode, ListsNode};
pub use node::{Local, Shape, give_up_local, set_local};
pub use zoned_node::{TableStart, ZonedNode, Zones};
