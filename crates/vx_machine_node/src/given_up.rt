//! How nodes, and what is next of them, give up what they hold.

ghost use Rattle.std.specs.Prelude.{◌≡◌, ◌≤◌};
ghost use Rattle.vx_machine_ids.specs.Stock.{none, end_stock, some_stock};
ghost use Rattle.vx_machine_ids.specs.Balance.{Owned, Moved};
ghost use Rattle.vx_machine_node.specs.Ledger.{Paid, told_by, node_reserved};
ghost use Rattle.vx_machine_node.specs.Stocks.{item_stock, probe_stock, runs_stock, run_stock, node_stock, zoned_stock, table_stock};
ghost use Rattle.vx_sink.specs.ContextView.{counted};
ghost use Rattle.vx_machine_node.specs.Sizes.{sum_of};

use crate::dict_node::{DictProbe, DictRuns, RunStart, RunsSoFar};
use crate::grouped_node::GroupedNode;
use crate::item::{Item, give_up_item};
use crate::zoned_node::{TableStart, ZonedNode};
use std::collections::VecDeque;
use vx_machine_ids::{give_up_id, give_up_pointer};
use vx_order::Order;
use vx_sink::{BufferedBytesReservation, LayoutWriterContext};

/// Gives up its pointer, and the id.
pub fn give_up_probe<O: Order>(order: &mut O, probe: DictProbe)
    requires { Owned (O.active order.old) (probe_stock probe) }
    ensures moved { Moved (O.active order.old) (O.active order.new) (probe_stock probe) none }
    ensures outlet { O.outlet order.new ≡ O.outlet order.old }
    ensures sink { O.sink order.new ≡ O.sink order.old }
{
    let DictProbe {
        node,
        pointer,
        item,
    } = probe;
    drop(node);
    give_up_pointer(order, pointer);
    give_up_item(order, item);
}

/// Gives up the newest chunk's id and the runs' pointer.
pub fn give_up_runs<O: Order>(order: &mut O, runs: DictRuns)
    requires { Owned (O.active order.old) (runs_stock runs) }
    ensures moved { Moved (O.active order.old) (O.active order.new) (runs_stock runs) none }
    ensures outlet { O.outlet order.new ≡ O.outlet order.old }
    ensures sink { O.sink order.new ≡ O.sink order.old }
{
    let DictRuns {
        node,
        cutter,
        newest,
        rows: _,
        runs,
    } = runs;
    drop((node, cutter));
    give_up_item(order, newest);
    give_up_so_far(order, runs);
}

/// Gives up its pointer.
pub fn give_up_so_far<O: Order>(order: &mut O, runs: RunsSoFar)
    requires { Owned (O.active order.old) (end_stock runs.pointer) }
    ensures moved { Moved (O.active order.old) (O.active order.new) (end_stock runs.pointer) none }
    ensures outlet { O.outlet order.new ≡ O.outlet order.old }
    ensures sink { O.sink order.new ≡ O.sink order.old }
{
    drop(into_ended(order, runs));
}

/// Gives up its pointer. The rows of each run before the one that goes on are left.
pub fn into_ended<O: Order>(order: &mut O, runs: RunsSoFar) -> Vec<u64>
    requires { Owned (O.active order.old) (end_stock runs.pointer) }
    ensures moved { Moved (O.active order.old) (O.active order.new) (end_stock runs.pointer) none }
    ensures ended { result.items ≡ runs.ended.items }
    ensures outlet { O.outlet order.new ≡ O.outlet order.old }
    ensures sink { O.sink order.new ≡ O.sink order.old }
{
    let RunsSoFar {
        pointer,
        begun: _,
        rows: _,
        ended,
    } = runs;
    give_up_pointer(order, pointer);
    ended
}

pub(crate) fn give_up_run<O: Order>(order: &mut O, run: RunStart)
    requires { Owned (O.active order.old) (run_stock run) }
    ensures moved { Moved (O.active order.old) (O.active order.new) (run_stock run) none }
    ensures outlet { O.outlet order.new ≡ O.outlet order.old }
    ensures sink { O.sink order.new ≡ O.sink order.old }
{
    let RunStart {
        node,
        child: _,
        codes,
        values,
    } = run;
    drop(node);
    give_up_id(order, codes);
    give_up_id(order, values);
}

/// Releases all that is reserved, the latest first.
pub fn release_all(ctx: &mut LayoutWriterContext, mut reserved: VecDeque<BufferedBytesReservation>)
    requires { sum_of reserved.items ≤ counted ctx.old }
    ensures tracked { Paid ctx.old ctx.new (sum_of reserved.items) 0 }
    ensures context { told_by ctx.new ≡ told_by ctx.old }
{
    'reserved: while let Some(reservation) = reserved.pop_back() {
        ctx.release_buffered_bytes(reservation);
    }
    reserved.destroy_empty();
}

/// Gives up the newest chunk's id, and releases what is reserved.
pub fn give_up_grouped<O: Order>(ctx: &mut LayoutWriterContext, order: &mut O, node: GroupedNode)
    requires owned { Owned (O.active order.old) (node_stock node) }
    requires reserved { node_reserved node ≤ counted ctx.old }
    ensures moved { Moved (O.active order.old) (O.active order.new) (node_stock node) none }
    ensures tracked { Paid ctx.old ctx.new (node_reserved node) 0 }
    ensures context { told_by ctx.new ≡ told_by ctx.old }
    ensures outlet { O.outlet order.new ≡ O.outlet order.old }
    ensures sink { O.sink order.new ≡ O.sink order.old }
{
    let GroupedNode {
        dtype,
        rule,
        newest,
        rows: _,
        reserved,
    } = node;
    drop((dtype, rule));
    release_all(ctx, reserved);
    give_up_newest(order, newest);
}

/// Gives up the chunk's id, where there is a chunk.
pub fn give_up_newest<O: Order>(order: &mut O, newest: Option<Item>)
    requires { Owned (O.active order.old) (some_stock item_stock newest) }
    ensures moved { Moved (O.active order.old) (O.active order.new) (some_stock item_stock newest) none }
    ensures outlet { O.outlet order.new ≡ O.outlet order.old }
    ensures sink { O.sink order.new ≡ O.sink order.old }
{
    match newest {
        Some(item) => give_up_item(order, item),
        None => {}
    }
}

/// Gives up its pointer.
pub fn give_up_zoned<O: Order>(order: &mut O, node: ZonedNode)
    requires { Owned (O.active order.old) (zoned_stock node) }
    ensures moved { Moved (O.active order.old) (O.active order.new) (zoned_stock node) none }
    ensures outlet { O.outlet order.new ≡ O.outlet order.old }
    ensures sink { O.sink order.new ≡ O.sink order.old }
{
    let ZonedNode {
        dtype,
        zone_len: _,
        guard,
        records,
        stats,
        eof,
        rows: _,
    } = node;
    drop((dtype, guard, records, stats));
    give_up_pointer(order, eof);
}

pub(crate) fn give_up_table<O: Order>(order: &mut O, table: TableStart)
    requires { Owned (O.active order.old) (table_stock table) }
    ensures moved { Moved (O.active order.old) (O.active order.new) (table_stock table) none }
    ensures outlet { O.outlet order.new ≡ O.outlet order.old }
    ensures sink { O.sink order.new ≡ O.sink order.old }
{
    let TableStart { stats, chunk, eof } = table;
    drop((stats, chunk));
    give_up_pointer(order, eof);
}
