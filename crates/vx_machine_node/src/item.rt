//! Chunks at their places: as they stand in queues, and as segments that are to be appended.

ghost use Rattle.std.specs.Prelude.{◌≡◌, ◌≤◌, ◌+◌};
ghost use Rattle.vx_machine_ids.specs.Stock.{none};
ghost use Rattle.vx_machine_ids.specs.Balance.{Owned, Moved};
ghost use Rattle.vx_sink.specs.ContextView.{counted};
ghost use Rattle.vx_machine_node.specs.Ledger.{Paid, told_by, some_bytes, due_reserved, dues_reserved};
ghost use Rattle.vx_machine_node.specs.Stocks.{item_stock, items_stock, stored_stock, due_stock, dues_stock};

use crate::dict_node::{DictProbe, RunStart};
use crate::given_up::{give_up_probe, give_up_run, give_up_table};
use crate::node::Shape;
use crate::zoned_node::TableStart;
use std::collections::VecDeque;
use std::sync::Arc;
use vx_chunk::Chunk;
use vx_machine_ids::{give_up_id, give_up_pointer};
use vx_model::{Blob, DType};
use vx_order::Order;
use vx_sequence::{SequenceId, SequencePointer};
use vx_sink::{BufferedBytesReservation, LayoutWriterContext};

/// A chunk, and the place of what is written of it.
pub struct Item {
    pub id: SequenceId,
    pub chunk: Chunk,
}

/// A chunk's segment, and what its layout needs.
pub struct Stored {
    pub id: SequenceId,
    pub segment: Segment,
}

/// A segment's bytes, and what its layout tells of it.
#[derive(Drop)]
pub struct Segment {
    pub bytes: Vec<u8>,
    /// Its tree of encodings, where the layout keeps it.
    pub tree: Option<Blob>,
    pub rows: u64,
    pub dtype: Arc<DType>,
}

/// What is left of a task's present block.
pub enum Due {
    Put {
        child: usize,
        item: Item,
    },
    /// On the queue of the only child; then the reservation is released.
    HandOn {
        item: Item,
        reservation: Option<BufferedBytesReservation>,
    },
    /// It calls the compressor under the number for the item's chunk; the image is then handed on in its place.
    Press {
        which: u32,
        item: Item,
    },
    Append(Stored),
    /// Closes the queues of all children.
    Close,
    Join(Shape),
    /// Once the data child has done all: starts the child of a zone table.
    Table(TableStart),
    /// Once the only child has done all: gives the pointer up.
    Leave(SequencePointer),
    /// It calls the compressor for a dictionary node's first chunk, and goes on by the image.
    Ask(DictProbe),
    /// It starts codes and values of a run, and puts the first codes on their queue.
    OpenRun {
        run: RunStart,
        item: Item,
    },
    /// On the queue of the child behind this one, a run's values; then the queues of both are closed.
    EndRun {
        child: usize,
        item: Item,
    },
}

/// Gives up its id.
pub fn give_up_item<O: Order>(order: &mut O, item: Item)
    requires { Owned (O.active order.old) (item_stock item) }
    ensures moved { Moved (O.active order.old) (O.active order.new) (item_stock item) none }
    ensures outlet { O.outlet order.new ≡ O.outlet order.old }
    ensures sink { O.sink order.new ≡ O.sink order.old }
{
    let Item { id, chunk } = item;
    drop(chunk);
    give_up_id(order, id);
}

pub(crate) fn give_up_stored<O: Order>(order: &mut O, stored: Stored)
    requires { Owned (O.active order.old) (stored_stock stored) }
    ensures moved { Moved (O.active order.old) (O.active order.new) (stored_stock stored) none }
    ensures outlet { O.outlet order.new ≡ O.outlet order.old }
    ensures sink { O.sink order.new ≡ O.sink order.old }
{
    let Stored { id, segment } = stored;
    drop(segment);
    give_up_id(order, id);
}

/// Releases what is reserved.
pub fn release(ctx: &mut LayoutWriterContext, reservation: Option<BufferedBytesReservation>)
    requires { some_bytes reservation ≤ counted ctx.old }
    ensures tracked { Paid ctx.old ctx.new (some_bytes reservation) 0 }
    ensures context { told_by ctx.new ≡ told_by ctx.old }
{
    match reservation {
        Some(reservation) => ctx.release_buffered_bytes(reservation),
        None => {}
    }
}

/// Gives up its id, and what it has reserved.
pub(crate) fn give_up_due<O: Order>(ctx: &mut LayoutWriterContext, order: &mut O, due: Due)
    requires owned { Owned (O.active order.old) (due_stock due) }
    requires reserved { due_reserved due ≤ counted ctx.old }
    ensures moved { Moved (O.active order.old) (O.active order.new) (due_stock due) none }
    ensures tracked { Paid ctx.old ctx.new (due_reserved due) 0 }
    ensures context { told_by ctx.new ≡ told_by ctx.old }
    ensures outlet { O.outlet order.new ≡ O.outlet order.old }
    ensures sink { O.sink order.new ≡ O.sink order.old }
{
    match due {
        Due::Put { child: _, item } => give_up_item(order, item),
        Due::HandOn { item, reservation } => {
            release(ctx, reservation);
            give_up_item(order, item);
        }
        Due::Press { which: _, item } => give_up_item(order, item),
        Due::Append(stored) => give_up_stored(order, stored),
        Due::Close => {}
        Due::Join(shape) => drop(shape),
        Due::Table(table) => give_up_table(order, table),
        Due::Leave(eof) => give_up_pointer(order, eof),
        Due::Ask(probe) => give_up_probe(order, probe),
        Due::OpenRun { run, item } => {
            give_up_run(order, run);
            give_up_item(order, item);
        }
        Due::EndRun { child: _, item } => give_up_item(order, item),
    }
}

/// Gives up their ids.
pub fn give_up_items<O: Order>(order: &mut O, mut items: VecDeque<Item>)
    requires { Owned (O.active order.old) (items_stock items.items) }
    ensures moved { Moved (O.active order.old) (O.active order.new) (items_stock items.items) none }
    ensures outlet { O.outlet order.new ≡ O.outlet order.old }
    ensures sink { O.sink order.new ≡ O.sink order.old }
{
    'items: while let Some(item) = items.pop_back() {
        give_up_item(order, item);
    }
    items.destroy_empty();
}

/// Gives up their ids, and what they have reserved.
pub fn give_up_dues<O: Order>(ctx: &mut LayoutWriterContext, order: &mut O, mut dues: VecDeque<Due>)
    requires owned { Owned (O.active order.old) (dues_stock dues.items) }
    requires reserved { dues_reserved dues.items ≤ counted ctx.old }
    ensures moved { Moved (O.active order.old) (O.active order.new) (dues_stock dues.items) none }
    ensures tracked { Paid ctx.old ctx.new (dues_reserved dues.items) 0 }
    ensures context { told_by ctx.new ≡ told_by ctx.old }
    ensures outlet { O.outlet order.new ≡ O.outlet order.old }
    ensures sink { O.sink order.new ≡ O.sink order.old }
{
    'dues: while let Some(due) = dues.pop_back() {
        give_up_due(ctx, order, due);
    }
    dues.destroy_empty();
}
