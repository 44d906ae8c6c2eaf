//! A dictionary node has its first chunk probed. Then it cuts its stream into runs, of which each has codes and values for
//! children of its own.

ghost use Rattle.std.specs.Prelude.{◌≡◌, ◌+◌, ℕ, List, [], length, IfOk, IfErr, OnOk};
ghost use Rattle.std.specs.Arc.{arc_value};
ghost use Rattle.vx_model.specs.ChunkData.{piece_type, cells};
ghost use Rattle.vx_model.specs.TyView.{ty};
ghost use Rattle.vx_machine_ids.specs.Stock.{both, end_stock, ok_stock};
ghost use Rattle.vx_machine_ids.specs.Balance.{Owned, Moved};
ghost use Rattle.vx_plan.specs.DictNode.{is_dictionary as has_codes};
ghost use Rattle.vx_plan.specs.PlanData.{Setting, rows_in};
ghost use Rattle.vx_machine_state.specs.State.{Tasks, by_run};
ghost use Rattle.vx_machine_state.specs.Coding.{no_runs};
ghost use Rattle.vx_machine_nodes.specs.Acting.{taken, Took, TakeRefused, EndTaken, EndRefused};
ghost use Rattle.vx_machine_node.specs.Causes.{MayCome};
ghost use Rattle.vx_machine_node.specs.Ledger.{dues_reserved, local_reserved};
ghost use Rattle.vx_machine_node.specs.Stocks.{item_stock, dues_stock, local_stock, probe_stock, runs_stock};
ghost use Rattle.vx_machine_node.specs.View.{coder_in, item_of, todo_of, mind_of};
ghost use Rattle.vx_machine_node.specs.declared.node.Local.TheVariants.{Probe, Asking, Runs};

use crate::columns::{add_rows, has_type};
use crate::cuts::cut;
use std::alloc::Global;
use std::collections::VecDeque;
use std::sync::Arc;
use vx_chunk::Chunk;
use vx_machine_ids::{give_up_id, give_up_pointer};
use vx_machine_node::{
    DictNode, DictProbe, DictRuns, Due, Item, Local, RunsSoFar, Shape, give_up_item, give_up_probe,
    give_up_runs, give_up_so_far, into_ended,
};
use vx_model::{DType, EncodingId};
use vx_order::Order;
use vx_runs::RunCutter;
use vx_sequence::SequencePointer;
use vx_write_answer::WriteError;

// ---- the first chunk

/// Takes the first chunk, for which the compressor is called next.
pub fn take_probe<O: Order>(
    order: &mut O,
    node: Arc<DictNode>,
    pointer: SequencePointer,
    todo: &mut VecDeque<Due>,
    item: Item,
) -> Result<(), WriteError>
    requires { Owned (O.active order.old) (both (both (end_stock pointer) (dues_stock todo.old.items)) (item_stock item)) }
    ensures moved { Moved (O.active order.old) (O.active order.new) (both (both (end_stock pointer) (dues_stock todo.old.items)) (item_stock item)) (dues_stock todo.new.items) }
    ensures reserved { dues_reserved todo.new.items ≡ dues_reserved todo.old.items }
    ensures done { OnOk result ((s : Setting) (name : List ℕ) (ks : Tasks)
        → Took (taken s name ks (item_of item) (mind_of (Probe node pointer))) (mind_of Asking) (todo_of todo.new.items) (todo_of todo.old.items) ks) }
    ensures refused { IfErr result (λ e. (s : Setting) (name : List ℕ) (ks : Tasks) → TakeRefused (taken s name ks (item_of item) (mind_of (Probe node pointer))) e) }
    ensures outlet { O.outlet order.new ≡ O.outlet order.old }
    ensures sink { O.sink order.new ≡ O.sink order.old }
    ensures cause { IfErr result MayCome }
{
    if !has_type(&item.chunk, &node.dtype) {
        let Item { id, chunk } = item;
        drop(node);
        give_up_pointer(order, pointer);
        give_up_id(order, id);
        return Err(WriteError::BatchType(chunk));
    }
    // They are counted once the image is known, and fit by themselves.
    let _rows = item.chunk.len();
    let probe = DictProbe {
        node,
        pointer,
        item,
    };
    match todo.reserve(1) {
        Ok(()) => {
            todo.push_front_reserved(Due::Ask(probe));
            Ok(())
        }
        Err(_) => {
            give_up_probe(order, probe);
            Err(WriteError::OutOfMemory)
        }
    }
}

/// Whether the chunk is a dictionary.
pub fn is_dictionary(chunk: &Chunk) -> bool
    ensures { result ≡ has_codes chunk.now }
{
    match chunk.encoding() {
        EncodingId::Dict => true,
        EncodingId::Plain | EncodingId::Constant | EncodingId::Chunked => false,
        EncodingId::List | EncodingId::Struct | EncodingId::Extension => false,
    }
}

/// No run has begun, and the chunk that was probed is the newest one.
pub fn first_runs<O: Order>(
    alloc: Global,
    order: &mut O,
    probe: DictProbe,
) -> Result<DictRuns, WriteError>
    requires { Owned (O.active order.old) (probe_stock probe) }
    ensures moved { Moved (O.active order.old) (O.active order.new) (probe_stock probe) (ok_stock runs_stock result) }
    ensures mind { IfOk result (λ r. mind_of (Runs r) ≡ by_run (coder_in (arc_value probe.node)) (no_runs probe.pointer) (item_of probe.item) (0 + rows_in probe.item.chunk)) }
    ensures memory { IfErr result (λ e. e ≡ WriteError.OutOfMemory) }
    ensures outlet { O.outlet order.new ≡ O.outlet order.old }
    ensures sink { O.sink order.new ≡ O.sink order.old }
{
    let Ok(dtype) = DType::clone(&probe.node.dtype) else {
        give_up_probe(order, probe);
        return Err(WriteError::OutOfMemory);
    };
    let DictProbe {
        node,
        pointer,
        item,
    } = probe;
    Ok(DictRuns {
        cutter: RunCutter::new(alloc, node.constraints, dtype),
        node,
        rows: item.chunk.len(),
        newest: item,
        runs: RunsSoFar {
            pointer,
            begun: false,
            rows: 0,
            ended: Vec::new(alloc),
        },
    })
}

// ---- further chunks

/// Takes a chunk: the newest one is cut, and this one is then the newest. Refused, all that the node holds is given up.
pub fn take_runs<O: Order>(
    alloc: Global,
    order: &mut O,
    runs: DictRuns,
    todo: &mut VecDeque<Due>,
    item: Item,
) -> Result<DictRuns, WriteError>
    requires { Owned (O.active order.old) (both (both (runs_stock runs) (dues_stock todo.old.items)) (item_stock item)) }
    ensures moved { Moved (O.active order.old) (O.active order.new) (both (both (runs_stock runs) (dues_stock todo.old.items)) (item_stock item)) (both (ok_stock runs_stock result) (dues_stock todo.new.items)) }
    ensures reserved { dues_reserved todo.new.items ≡ dues_reserved todo.old.items }
    ensures done { todo.old.items ≡ [] → IfOk result (λ r. (s : Setting) (name : List ℕ) (ks : Tasks)
        → Took (taken s name ks (item_of item) (mind_of (Runs runs))) (mind_of (Runs r)) (todo_of todo.new.items) (todo_of todo.old.items) ks) }
    ensures refused { IfErr result (λ e. (s : Setting) (name : List ℕ) (ks : Tasks) → TakeRefused (taken s name ks (item_of item) (mind_of (Runs runs))) e) }
    ensures outlet { O.outlet order.new ≡ O.outlet order.old }
    ensures sink { O.sink order.new ≡ O.sink order.old }
    ensures cause { IfErr result MayCome }
{
    if !has_type(&item.chunk, &runs.node.dtype) {
        let Item { id, chunk } = item;
        give_up_id(order, id);
        give_up_runs(order, runs);
        return Err(WriteError::BatchType(chunk));
    }
    match add_rows(runs.rows, item.chunk.len()) {
        Ok(rows) => take_counted(alloc, order, runs, rows, todo, item),
        Err(error) => {
            give_up_item(order, item);
            give_up_runs(order, runs);
            Err(error)
        }
    }
}

/// The same of a chunk of the node's type, with so many rows in all.
fn take_counted<O: Order>(
    alloc: Global,
    order: &mut O,
    runs: DictRuns,
    rows: u64,
    todo: &mut VecDeque<Due>,
    item: Item,
) -> Result<DictRuns, WriteError>
    requires owned { Owned (O.active order.old) (both (both (runs_stock runs) (dues_stock todo.old.items)) (item_stock item)) }
    requires typed { piece_type item.chunk ≡ ty (arc_value (arc_value runs.node).dtype) }
    requires counted { rows ≡ runs.rows + length (cells item.chunk) }
    ensures moved { Moved (O.active order.old) (O.active order.new) (both (both (runs_stock runs) (dues_stock todo.old.items)) (item_stock item)) (both (ok_stock runs_stock result) (dues_stock todo.new.items)) }
    ensures reserved { dues_reserved todo.new.items ≡ dues_reserved todo.old.items }
    ensures done { todo.old.items ≡ [] → IfOk result (λ r. (s : Setting) (name : List ℕ) (ks : Tasks)
        → Took (taken s name ks (item_of item) (mind_of (Runs runs))) (mind_of (Runs r)) (todo_of todo.new.items) (todo_of todo.old.items) ks) }
    ensures refused { IfErr result (λ e. (s : Setting) (name : List ℕ) (ks : Tasks) → TakeRefused (taken s name ks (item_of item) (mind_of (Runs runs))) e) }
    ensures outlet { O.outlet order.new ≡ O.outlet order.old }
    ensures sink { O.sink order.new ≡ O.sink order.old }
    ensures cause { IfErr result MayCome }
{
    let DictRuns {
        node,
        mut cutter,
        newest,
        rows: _,
        mut runs,
    } = runs;
    match cut(
        alloc,
        order,
        &node,
        &mut cutter,
        &mut runs,
        newest,
        todo,
        false,
    ) {
        Ok(()) => Ok(DictRuns {
            node,
            cutter,
            newest: item,
            rows,
            runs,
        }),
        Err(error) => {
            drop((node, cutter));
            give_up_so_far(order, runs);
            give_up_item(order, item);
            Err(error)
        }
    }
}

// ---- the end

/// What a node that cuts runs has in mind behind the end: all runs end, and then their layouts are joined.
pub fn end_runs<O: Order>(
    alloc: Global,
    order: &mut O,
    todo: &mut VecDeque<Due>,
    runs: DictRuns,
) -> Result<Local, WriteError>
    requires { Owned (O.active order.old) (both (runs_stock runs) (dues_stock todo.old.items)) }
    ensures moved { Moved (O.active order.old) (O.active order.new) (both (runs_stock runs) (dues_stock todo.old.items)) (both (ok_stock local_stock result) (dues_stock todo.new.items)) }
    ensures reserved { dues_reserved todo.new.items ≡ dues_reserved todo.old.items }
    ensures unreserved { IfOk result (λ l. local_reserved l ≡ 0) }
    ensures done { (kids : ℕ) → IfOk result (λ l. EndTaken (Runs runs) kids l (todo_of todo.new.items) (todo_of todo.old.items)) }
    ensures refused { (kids : ℕ) → IfErr result (EndRefused (Runs runs) kids) }
    ensures outlet { O.outlet order.new ≡ O.outlet order.old }
    ensures sink { O.sink order.new ≡ O.sink order.old }
    ensures cause { IfErr result MayCome }
{
    let DictRuns {
        node,
        mut cutter,
        newest,
        rows: _,
        mut runs,
    } = runs;
    let cut = cut(
        alloc,
        order,
        &node,
        &mut cutter,
        &mut runs,
        newest,
        todo,
        true,
    );
    drop(cutter);
    let ended = into_ended(order, runs);
    match cut {
        Ok(()) => match todo.reserve(1) {
            Ok(()) => {
                todo.push_back_reserved(Due::Join(Shape::Runs(node, ended)));
                Ok(Local::Over)
            }
            Err(_) => {
                drop((node, ended));
                Err(WriteError::OutOfMemory)
            }
        },
        Err(error) => {
            drop((node, ended));
            Err(error)
        }
    }
}
