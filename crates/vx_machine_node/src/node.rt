//! What a task's node is, and what it has in mind.

ghost use Rattle.std.specs.Prelude.{◌≡◌, ◌≤◌, ◌+◌};
ghost use Rattle.vx_machine_ids.specs.Stock.{none, both};
ghost use Rattle.vx_machine_ids.specs.Balance.{Owned, Moved};
ghost use Rattle.vx_sink.specs.ContextView.{counted};
ghost use Rattle.vx_machine_node.specs.Ledger.{Paid, told_by, local_reserved};
ghost use Rattle.vx_machine_node.specs.Stocks.{local_stock};

use crate::dict_node::{DictNode, DictRuns};
use crate::given_up::{give_up_grouped, give_up_runs, give_up_zoned};
use crate::grouped_node::GroupedNode;
use crate::item::{Stored, give_up_stored};
use crate::kinds::{ChunkedNode, ColumnsNode, FlatNode, ListsNode};
use crate::zoned_node::{ZonedNode, Zones};
use std::mem;
use std::sync::Arc;
use vx_layout_tree::{Layout, drop_layout};
use vx_machine_ids::give_up_pointer;
use vx_model::DType;
use vx_order::Order;
use vx_sequence::SequencePointer;
use vx_sink::LayoutWriterContext;

/// What a task has in mind between two chunks.
pub enum Local {
    /// A flat node's: no chunk came.
    Empty(FlatNode),
    Full(Stored),
    /// With the pointer to the next child's eof path, and the rows so far.
    Chunked(ChunkedNode, SequencePointer, u64),
    /// With the rows so far.
    Columns(ColumnsNode, u64),
    /// With the rows so far.
    Lists(ListsNode, u64),
    Grouped(GroupedNode),
    Zoned(ZonedNode),
    /// A compressing node's: the compressor's number.
    Pressing(u32),
    /// It hands on each chunk as it is.
    AsIs,
    /// A dictionary node's: no chunk came; with its pointer.
    Probe(Arc<DictNode>, SequencePointer),
    /// The compressor is called for its first chunk.
    Asking,
    Runs(DictRuns),
    /// It has seen the end of its stream.
    Over,
    /// So it has, and its layout is its only child's.
    Passing,
    /// It has done all.
    Made(Layout),
}

/// How a layout is made of the children's.
#[derive(Drop)]
pub enum Shape {
    Chunks(Arc<DType>),
    /// With the rows.
    Columns(ColumnsNode, u64),
    /// With the rows.
    Lists(ListsNode, u64),
    Zones(Zones),
    /// Of a dictionary node, with the rows of each run.
    Runs(Arc<DictNode>, Vec<u64>),
}

/// Gives up its id or pointer, and what it has reserved.
pub fn give_up_local<O: Order>(ctx: &mut LayoutWriterContext, order: &mut O, local: Local)
    requires owned { Owned (O.active order.old) (local_stock local) }
    requires reserved { local_reserved local ≤ counted ctx.old }
    ensures moved { Moved (O.active order.old) (O.active order.new) (local_stock local) none }
    ensures tracked { Paid ctx.old ctx.new (local_reserved local) 0 }
    ensures context { told_by ctx.new ≡ told_by ctx.old }
    ensures outlet { O.outlet order.new ≡ O.outlet order.old }
    ensures sink { O.sink order.new ≡ O.sink order.old }
{
    match local {
        Local::Empty(node) => drop(node),
        Local::Full(stored) => give_up_stored(order, stored),
        Local::Chunked(node, eof, _) => {
            drop(node);
            give_up_pointer(order, eof);
        }
        Local::Columns(node, _) => drop(node),
        Local::Lists(node, _) => drop(node),
        Local::Grouped(node) => give_up_grouped(ctx, order, node),
        Local::Zoned(node) => give_up_zoned(order, node),
        Local::Pressing(_) => {}
        Local::AsIs => {}
        Local::Probe(node, eof) => {
            drop(node);
            give_up_pointer(order, eof);
        }
        Local::Asking => {}
        Local::Runs(runs) => give_up_runs(order, runs),
        Local::Over => {}
        Local::Passing => {}
        Local::Made(layout) => drop_layout(layout),
    }
}

/// Puts something else in mind. What was there is given up.
pub fn set_local<O: Order>(
    ctx: &mut LayoutWriterContext,
    order: &mut O,
    local: &mut Local,
    new: Local,
)
    requires owned { Owned (O.active order.old) (both (local_stock local.old) (local_stock new)) }
    requires reserved { local_reserved local.old ≤ counted ctx.old }
    ensures moved { Moved (O.active order.old) (O.active order.new) (both (local_stock local.old) (local_stock new)) (local_stock local.new) }
    ensures tracked { Paid ctx.old ctx.new (local_reserved local.old) 0 }
    ensures context { told_by ctx.new ≡ told_by ctx.old }
    ensures local { local.new ≡ new }
    ensures outlet { O.outlet order.new ≡ O.outlet order.old }
    ensures sink { O.sink order.new ≡ O.sink order.old }
{
    let old = mem::replace(local, new);
    give_up_local(ctx, order, old);
}
