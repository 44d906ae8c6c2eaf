//! What a dictionary node does with the runs that its cutter makes of a chunk.

ghost use Rattle.std.specs.Prelude.{◌≡◌, ◌+◌, ◌++◌, ◌∷◌, ◌<◌, ◌≤◌, ◌^◌, ℕ, List, [], true, false, length, IsTrue, IsFalse, IfOk, IfErr, OnOk};
ghost use Rattle.std.specs.Arc.{arc_value};
ghost use Rattle.std.specs.VecDeque.{deque_len, deque_capacity};
ghost use Rattle.vx_path.specs.Path.{eof_path, next};
ghost use Rattle.vx_model.specs.CellData.{CellData};
ghost use Rattle.vx_model.specs.ChunkData.{piece_type, cells};
ghost use Rattle.vx_model.specs.TyView.{ty};
ghost use Rattle.vx_chunk.specs.Conditions.{IsTooLarge};
ghost use Rattle.vx_react.specs.Reactor.{Output};
ghost use Rattle.vx_react.specs.declared.place.Place.TheVariants.{Codes, Values};
ghost use Rattle.vx_runs.specs.CutterData.{gives_at, held_at, with_cutting};
ghost use Rattle.vx_machine_turns.specs.Dict.{rest_eof};
ghost use Rattle.vx_machine_state.specs.Coder.{Coder};
ghost use Rattle.vx_machine_ids.specs.Stock.{none, both, id_stock, end_stock, ok_stock};
ghost use Rattle.vx_machine_ids.specs.Balance.{Owned, Moved};
ghost use Rattle.vx_machine_node.specs.Causes.{MayCome};
ghost use Rattle.vx_machine_node.specs.Ledger.{dues_reserved};
ghost use Rattle.vx_machine_node.specs.Outcome.{AllFit};
ghost use Rattle.vx_machine_nodes.specs.Runs.{behind, next_at, may_follow, rows_of, behind_all, nexts_at, are_runs, all_rows, CutRefused};
ghost use Rattle.vx_machine_node.specs.Stocks.{item_stock, dues_stock, run_stock};
ghost use Rattle.vx_machine_node.specs.View.{coder_in, runs_in, item_of, todo_of};

use std::alloc::Global;
use std::collections::VecDeque;
use std::sync::Arc;
use vx_chunk::{Chunk, ChunkError};
use vx_machine_ids::{give_up_id, give_up_pointer, index_fits, take_id, take_inside};
use vx_machine_node::{DictNode, Due, Item, RunStart, RunsSoFar, give_up_item};
use vx_order::Order;
use vx_react::Place;
use vx_runs::RunCutter;
use vx_sequence::{SequenceId, SequencePointer};
use vx_write_answer::WriteError;

/// Two paths for the next run, the codes' and the values', from the pointer on.
fn begin_run<O: Order>(
    order: &mut O,
    node: &Arc<DictNode>,
    pointer: &mut SequencePointer,
    child: usize,
) -> Result<RunStart, WriteError>
    requires owned { Owned (O.active order.old) (end_stock pointer.old) }
    requires few { child + 1 < 2 ^ 64 }
    ensures moved { Moved (O.active order.old) (O.active order.new) (end_stock pointer.old) (both (end_stock pointer.new) (ok_stock run_stock result)) }
    ensures run { IfOk result (λ r. (arc_value r.node ≡ arc_value node.now) × (r.child ≡ child) × (r.codes ≡ eof_path pointer.old) × (r.values ≡ eof_path (next pointer.old))) }
    ensures pointer { OnOk result (pointer.new ≡ next (next pointer.old)) }
    ensures later { pointer.old.last ≤ pointer.new.last }
    ensures refused { IfErr result (λ e. (below : ℕ) → CutRefused (pointer.old.last + 2) below e) }
    ensures outlet { O.outlet order.new ≡ O.outlet order.old }
    ensures sink { O.sink order.new ≡ O.sink order.old }
    ensures cause { IfErr result MayCome }
{
    let node = Arc::try_clone(node)?;
    match take_both(order, pointer) {
        Ok((codes, values)) => Ok(RunStart {
            node,
            child,
            codes,
            values,
        }),
        Err(error) => {
            drop(node);
            Err(error)
        }
    }
}

fn take_both<O: Order>(
    order: &mut O,
    pointer: &mut SequencePointer,
) -> Result<(SequenceId, SequenceId), WriteError>
    requires { Owned (O.active order.old) (end_stock pointer.old) }
    ensures moved { Moved (O.active order.old) (O.active order.new) (end_stock pointer.old) (both (end_stock pointer.new) (ok_stock (λ r. both (id_stock r.0) (id_stock r.1)) result)) }
    ensures ids { IfOk result (λ r. (r.0 ≡ eof_path pointer.old) × (r.1 ≡ eof_path (next pointer.old))) }
    ensures pointer { OnOk result (pointer.new ≡ next (next pointer.old)) }
    ensures later { pointer.old.last ≤ pointer.new.last }
    ensures refused { IfErr result (λ e. (below : ℕ) → CutRefused (pointer.old.last + 2) below e) }
    ensures outlet { O.outlet order.new ≡ O.outlet order.old }
    ensures sink { O.sink order.new ≡ O.sink order.old }
    ensures cause { IfErr result MayCome }
{
    let first = take_id(order, pointer)?;
    match take_id(order, pointer) {
        Ok(second) => Ok((first, second)),
        Err(error) => {
            give_up_id(order, first);
            Err(error.into())
        }
    }
}

/// Codes are to be put on the queue of the run that goes on; the first ones of a run start its children.
fn put_codes<O: Order>(
    order: &mut O,
    node: &Arc<DictNode>,
    runs: &mut RunsSoFar,
    todo: &mut VecDeque<Due>,
    item: Item,
) -> Result<(), WriteError>
    requires owned { Owned (O.active order.old) (both (both (end_stock runs.old.pointer) (dues_stock todo.old.items)) (item_stock item)) }
    requires few { runs.old.rows + length (cells item.chunk) < 2 ^ 64 }
    ensures moved { Moved (O.active order.old) (O.active order.new) (both (both (end_stock runs.old.pointer) (dues_stock todo.old.items)) (item_stock item)) (both (end_stock runs.new.pointer) (dues_stock todo.new.items)) }
    ensures reserved { dues_reserved todo.new.items ≡ dues_reserved todo.old.items }
    ensures runs { OnOk result ((ds : List CellData) (k : ℕ) → runs_in runs.new ds ≡ behind (runs_in runs.old ds) (Codes k) item.chunk) }
    ensures todo { OnOk result ((ds : List CellData) (k : ℕ) → todo_of todo.new.items ≡ todo_of todo.old.items ++ (next_at (coder_in (arc_value node.now)) (runs_in runs.old ds) (Codes k) (item_of item) ∷ [])) }
    ensures refused { IfErr result (λ e. (k below : ℕ) → CutRefused (rest_eof (behind (runs_in runs.old []) (Codes k) item.chunk)).last below e) }
    ensures outlet { O.outlet order.new ≡ O.outlet order.old }
    ensures sink { O.sink order.new ≡ O.sink order.old }
    ensures cause { IfErr result MayCome }
{
    if let Err(_) = todo.reserve(1) {
        give_up_item(order, item);
        return Err(WriteError::OutOfMemory);
    }
    let child = 2 * runs.ended.len();
    let rows = runs.rows + item.chunk.len();
    if runs.begun {
        runs.rows = rows;
        todo.push_back_reserved(Due::Put { child, item });
        return Ok(());
    }
    match begin_run(order, node, &mut runs.pointer, child) {
        Ok(run) => {
            runs.begun = true;
            runs.rows = rows;
            todo.push_back_reserved(Due::OpenRun { run, item });
            Ok(())
        }
        Err(error) => {
            give_up_item(order, item);
            Err(error)
        }
    }
}

/// Values are to be put on the queue of the run that goes on, which then ends.
fn put_values<O: Order>(
    order: &mut O,
    runs: &mut RunsSoFar,
    todo: &mut VecDeque<Due>,
    item: Item,
) -> Result<(), WriteError>
    requires owned { Owned (O.active order.old) (both (dues_stock todo.old.items) (item_stock item)) }
    requires begun { IsTrue runs.old.begun }
    ensures moved { Moved (O.active order.old) (O.active order.new) (both (dues_stock todo.old.items) (item_stock item)) (dues_stock todo.new.items) }
    ensures reserved { dues_reserved todo.new.items ≡ dues_reserved todo.old.items }
    ensures pointer { runs.new.pointer ≡ runs.old.pointer }
    ensures runs { OnOk result ((ds : List CellData) (k : ℕ) → runs_in runs.new ds ≡ behind (runs_in runs.old ds) (Values k) item.chunk) }
    ensures todo { OnOk result ((n : Coder) (ds : List CellData) (k : ℕ) → todo_of todo.new.items ≡ todo_of todo.old.items ++ (next_at n (runs_in runs.old ds) (Values k) (item_of item) ∷ [])) }
    ensures memory { IfErr result (λ e. e ≡ WriteError.OutOfMemory) }
    ensures outlet { O.outlet order.new ≡ O.outlet order.old }
    ensures sink { O.sink order.new ≡ O.sink order.old }
{
    if let Err(_) = todo.reserve(1) {
        give_up_item(order, item);
        return Err(WriteError::OutOfMemory);
    }
    let child = 2 * runs.ended.len();
    if let Err(_) = runs.ended.push(runs.rows) {
        give_up_item(order, item);
        return Err(WriteError::OutOfMemory);
    }
    runs.rows = 0;
    runs.begun = false;
    todo.push_back_reserved(Due::EndRun { child, item });
    Ok(())
}

/// An output of the cutter is to be put on its queue, under the next path below the chunk's.
fn put_output<O: Order>(
    order: &mut O,
    node: &Arc<DictNode>,
    runs: &mut RunsSoFar,
    below: &mut SequencePointer,
    todo: &mut VecDeque<Due>,
    place: Place,
    chunk: Chunk,
) -> Result<(), WriteError>
    requires owned { Owned (O.active order.old) (both (both (end_stock runs.old.pointer) (dues_stock todo.old.items)) (end_stock below.old)) }
    requires follows { IsTrue (may_follow runs.old.begun place) }
    requires few { runs.old.rows + rows_of place chunk < 2 ^ 64 }
    ensures moved { Moved (O.active order.old) (O.active order.new) (both (both (end_stock runs.old.pointer) (dues_stock todo.old.items)) (end_stock below.old)) (both (both (end_stock runs.new.pointer) (dues_stock todo.new.items)) (end_stock below.new)) }
    ensures reserved { dues_reserved todo.new.items ≡ dues_reserved todo.old.items }
    ensures runs { OnOk result ((ds : List CellData) → runs_in runs.new ds ≡ behind (runs_in runs.old ds) place chunk) }
    ensures todo { OnOk result ((ds : List CellData) → todo_of todo.new.items ≡ todo_of todo.old.items ++ (next_at (coder_in (arc_value node.now)) (runs_in runs.old ds) place (eof_path below.old, chunk) ∷ [])) }
    ensures below { OnOk result (below.new ≡ next below.old) }
    ensures fits { OnOk result (below.old.last + 1 < 2 ^ 64) }
    ensures refused { IfErr result (CutRefused (rest_eof (behind (runs_in runs.old []) place chunk)).last (below.old.last + 1)) }
    ensures outlet { O.outlet order.new ≡ O.outlet order.old }
    ensures sink { O.sink order.new ≡ O.sink order.old }
    ensures cause { IfErr result MayCome }
{
    match take_id(order, below) {
        Ok(id) => {
            let item = Item { id, chunk };
            match place {
                Place::Codes(_) => put_codes(order, node, runs, todo, item),
                Place::Values(_) => put_values(order, runs, todo, item),
                Place::Child | Place::Column(_) => unreachable!(),
            }
        }
        Err(error) => {
            drop(chunk);
            Err(error.into())
        }
    }
}

/// So is each of them.
fn put_outputs<O: Order>(
    order: &mut O,
    node: &Arc<DictNode>,
    runs: &mut RunsSoFar,
    below: &mut SequencePointer,
    todo: &mut VecDeque<Due>,
    outputs: Vec<(Place, Chunk)>,
) -> Result<(), WriteError>
    requires owned { Owned (O.active order.old) (both (both (end_stock runs.old.pointer) (dues_stock todo.old.items)) (end_stock below.old)) }
    requires follow { IsTrue (are_runs runs.old.begun outputs.items) }
    requires few { runs.old.rows + all_rows outputs.items < 2 ^ 64 }
    ensures moved { Moved (O.active order.old) (O.active order.new) (both (both (end_stock runs.old.pointer) (dues_stock todo.old.items)) (end_stock below.old)) (both (both (end_stock runs.new.pointer) (dues_stock todo.new.items)) (end_stock below.new)) }
    ensures reserved { dues_reserved todo.new.items ≡ dues_reserved todo.old.items }
    ensures runs { OnOk result ((ds : List CellData) → runs_in runs.new ds ≡ behind_all (runs_in runs.old ds) outputs.items) }
    ensures todo { OnOk result ((ds : List CellData) → todo_of todo.new.items ≡ todo_of todo.old.items ++ nexts_at (coder_in (arc_value node.now)) (runs_in runs.old ds) below.old.stem below.old.last outputs.items) }
    ensures rows { OnOk result (runs.new.rows ≤ runs.old.rows + all_rows outputs.items) }
    ensures fits { OnOk result (below.old.last < 2 ^ 64 → below.old.last + length outputs.items < 2 ^ 64) }
    ensures refused { IfErr result (CutRefused (rest_eof (behind_all (runs_in runs.old []) outputs.items)).last (below.old.last + length outputs.items)) }
    ensures outlet { O.outlet order.new ≡ O.outlet order.old }
    ensures sink { O.sink order.new ≡ O.sink order.old }
    ensures cause { IfErr result MayCome }
{
    'outputs: for output in outputs {
        let (place, chunk) = output;
        put_output(order, node, runs, below, todo, place, chunk)?;
    }
    Ok(())
}

/// So is each of them, under children of the id, which is given up.
fn put_below<O: Order>(
    order: &mut O,
    node: &Arc<DictNode>,
    runs: &mut RunsSoFar,
    id: SequenceId,
    todo: &mut VecDeque<Due>,
    outputs: Vec<(Place, Chunk)>,
) -> Result<(), WriteError>
    requires owned { Owned (O.active order.old) (both (both (end_stock runs.old.pointer) (dues_stock todo.old.items)) (id_stock id)) }
    requires follow { IsTrue (are_runs runs.old.begun outputs.items) }
    requires few { runs.old.rows + all_rows outputs.items < 2 ^ 64 }
    ensures moved { Moved (O.active order.old) (O.active order.new) (both (both (end_stock runs.old.pointer) (dues_stock todo.old.items)) (id_stock id)) (both (end_stock runs.new.pointer) (dues_stock todo.new.items)) }
    ensures reserved { dues_reserved todo.new.items ≡ dues_reserved todo.old.items }
    ensures runs { OnOk result ((ds : List CellData) → runs_in runs.new ds ≡ behind_all (runs_in runs.old ds) outputs.items) }
    ensures todo { OnOk result ((ds : List CellData) → todo_of todo.new.items ≡ todo_of todo.old.items ++ nexts_at (coder_in (arc_value node.now)) (runs_in runs.old ds) id 0 outputs.items) }
    ensures rows { OnOk result (runs.new.rows ≤ runs.old.rows + all_rows outputs.items) }
    ensures fits { OnOk result (length outputs.items < 2 ^ 64) }
    ensures refused { IfErr result (CutRefused (rest_eof (behind_all (runs_in runs.old []) outputs.items)).last (length outputs.items)) }
    ensures outlet { O.outlet order.new ≡ O.outlet order.old }
    ensures sink { O.sink order.new ≡ O.sink order.old }
    ensures cause { IfErr result MayCome }
{
    match take_inside(order, id) {
        Ok(mut below) => {
            let put = put_outputs(order, node, runs, &mut below, todo, outputs);
            give_up_pointer(order, below);
            put
        }
        Err(error) => {
            drop(outputs);
            Err(error.into())
        }
    }
}

/// Why a chunk isn't cut: the runs are too many, and so their eof paths, of which each has two.
fn cut_refusal(error: ChunkError) -> WriteError
    ensures refused { (number eof below : ℕ) → IsTooLarge number error → number ≤ eof → CutRefused eof below result }
    ensures cause { MayCome result }
{
    match error {
        ChunkError::TooLarge(_) => WriteError::TooLarge(u128::from(u64::MAX) + 1),
        ChunkError::OutOfMemory => WriteError::OutOfMemory,
    }
}

/// As `cut`.
fn cut_newest<O: Order>(
    alloc: Global,
    order: &mut O,
    node: &Arc<DictNode>,
    cutter: &mut RunCutter,
    runs: &mut RunsSoFar,
    newest: Item,
    todo: &mut VecDeque<Due>,
    last: bool,
) -> Result<(), WriteError>
    requires owned { Owned (O.active order.old) (both (both (end_stock runs.old.pointer) (dues_stock todo.old.items)) (item_stock newest)) }
    requires typed { piece_type newest.chunk ≡ cutter.old.typed }
    requires number { cutter.old.number ≡ length runs.old.ended.items }
    requires few { runs.old.rows + length (cells newest.chunk) < 2 ^ 64 }
    ensures moved { Moved (O.active order.old) (O.active order.new) (both (both (end_stock runs.old.pointer) (dues_stock todo.old.items)) (item_stock newest)) (both (end_stock runs.new.pointer) (dues_stock todo.new.items)) }
    ensures reserved { dues_reserved todo.new.items ≡ dues_reserved todo.old.items }
    ensures cutter { OnOk result (last ≡ false → cutter.new ≡ with_cutting cutter.old (held_at (arc_value node.now).probe cutter.old newest.chunk)) }
    ensures runs { OnOk result ((ds : List CellData) → runs_in runs.new ds ≡ behind_all (runs_in runs.old ds) (gives_at (arc_value node.now).probe cutter.old newest.chunk last)) }
    ensures todo { OnOk result ((ds : List CellData) → todo_of todo.new.items ≡ todo_of todo.old.items ++ nexts_at (coder_in (arc_value node.now)) (runs_in runs.old ds) newest.id 0 (gives_at (arc_value node.now).probe cutter.old newest.chunk last)) }
    ensures rows { OnOk result (runs.new.rows ≤ runs.old.rows + length (cells newest.chunk)) }
    ensures fits { OnOk result (length (gives_at (arc_value node.now).probe cutter.old newest.chunk last) < 2 ^ 64) }
    ensures refused { IfErr result (CutRefused (rest_eof (behind_all (runs_in runs.old []) (gives_at (arc_value node.now).probe cutter.old newest.chunk last))).last (length (gives_at (arc_value node.now).probe cutter.old newest.chunk last))) }
    ensures outlet { O.outlet order.new ≡ O.outlet order.old }
    ensures sink { O.sink order.new ≡ O.sink order.old }
    ensures cause { IfErr result MayCome }
{
    let Item { id, chunk } = newest;
    match cutter.react(alloc, chunk, last) {
        Ok(outputs) => put_below(order, node, runs, id, todo, outputs),
        Err(error) => {
            give_up_id(order, id);
            Err(cut_refusal(error))
        }
    }
}

/// Cuts the newest chunk: what the cutter gives is to be put on the queues of the runs' children. At the end all runs end.
pub(crate) fn cut<O: Order>(
    alloc: Global,
    order: &mut O,
    node: &Arc<DictNode>,
    cutter: &mut RunCutter,
    runs: &mut RunsSoFar,
    newest: Item,
    todo: &mut VecDeque<Due>,
    last: bool,
) -> Result<(), WriteError>
    requires owned { Owned (O.active order.old) (both (both (end_stock runs.old.pointer) (dues_stock todo.old.items)) (item_stock newest)) }
    requires typed { piece_type newest.chunk ≡ cutter.old.typed }
    requires number { cutter.old.number ≡ length runs.old.ended.items }
    requires few { runs.old.rows + length (cells newest.chunk) < 2 ^ 64 }
    ensures moved { Moved (O.active order.old) (O.active order.new) (both (both (end_stock runs.old.pointer) (dues_stock todo.old.items)) (item_stock newest)) (both (end_stock runs.new.pointer) (dues_stock todo.new.items)) }
    ensures reserved { dues_reserved todo.new.items ≡ dues_reserved todo.old.items }
    ensures cutter { OnOk result (last ≡ false → cutter.new ≡ with_cutting cutter.old (held_at (arc_value node.now).probe cutter.old newest.chunk)) }
    ensures runs { OnOk result ((ds : List CellData) → runs_in runs.new ds ≡ behind_all (runs_in runs.old ds) (gives_at (arc_value node.now).probe cutter.old newest.chunk last)) }
    ensures todo { OnOk result ((ds : List CellData) → todo_of todo.new.items ≡ todo_of todo.old.items ++ nexts_at (coder_in (arc_value node.now)) (runs_in runs.old ds) newest.id 0 (gives_at (arc_value node.now).probe cutter.old newest.chunk last)) }
    ensures rows { OnOk result (runs.new.rows ≤ runs.old.rows + length (cells newest.chunk)) }
    ensures eofs { runs.new.pointer.last < 2 ^ 64 }
    ensures fits { OnOk result (length (gives_at (arc_value node.now).probe cutter.old newest.chunk last) < 2 ^ 64) }
    ensures refused { IfErr result (CutRefused (rest_eof (behind_all (runs_in runs.old []) (gives_at (arc_value node.now).probe cutter.old newest.chunk last))).last (length (gives_at (arc_value node.now).probe cutter.old newest.chunk last))) }
    ensures outlet { O.outlet order.new ≡ O.outlet order.old }
    ensures sink { O.sink order.new ≡ O.sink order.old }
    ensures cause { IfErr result MayCome }
{
    let cut = cut_newest(alloc, order, node, cutter, runs, newest, todo, last);
    index_fits(&runs.pointer);
    cut
}
