//! A node that regroups holds chunks back, and hands what leaves to its only child.

ghost use Rattle.std.specs.Prelude.{◌≡◌, ◌+◌, ◌++◌, ◌<◌, ◌≤◌, ◌^◌, ℕ, List, [], ◌∷◌, false, map, length, vec_len, IsTrue, IsFalse, IfOk, IfErr, OnOk};
ghost use Rattle.std.specs.VecDeque.{deque_len, deque_capacity};
ghost use Rattle.vx_model.specs.ChunkData.{ChunkData, cells, held};
ghost use Rattle.vx_model.specs.TyView.{ty};
ghost use Rattle.vx_sink.specs.ContextView.{counted};
ghost use Rattle.vx_path.specs.Path.{under};
ghost use Rattle.vx_order.specs.Ids.{children};
ghost use Rattle.vx_rules.specs.Regroup.{ranked};
ghost use Rattle.vx_regroup.specs.Refusals.{first_past, Refuses};
ghost use Rattle.vx_machine_ids.specs.Stock.{none, both, id_stock, all_ids, some_stock, ok_stock};
ghost use Rattle.vx_machine_ids.specs.Balance.{Owned, Moved};
ghost use Rattle.vx_plan.specs.PlanData.{Setting};
ghost use Rattle.vx_machine_state.specs.State.{Tasks, hand_on};
ghost use Rattle.vx_machine_state.specs.Acts.{hand_all};
ghost use Rattle.vx_machine_nodes.specs.Acting.{ListRefused, TakeStopped, taken, Took, EndTaken, EndRefused};
ghost use Rattle.vx_machine_node.specs.Causes.{MayCome};
ghost use Rattle.vx_machine_node.specs.Ledger.{Paid, told_by, some_bytes, ok_bytes, dues_reserved, local_reserved, node_reserved};
ghost use Rattle.vx_machine_node.specs.Regrouped.{is_of, misfits, misfit_in, weight_in, reserved_of, sizes_in, is_idle, rows_counted, Weighs, taken_sizes, handed, ActedOn, acted_numbers, is_collection, rest_hands, RestFits};
ghost use Rattle.vx_machine_node.specs.Sizes.{sum_of};
ghost use Rattle.vx_machine_node.specs.Stocks.{item_stock, dues_stock, local_stock, node_stock};
ghost use Rattle.vx_machine_node.specs.View.{item_of, todo_of, mind_of};
ghost use Rattle.vx_machine_node.specs.declared.node.Local.{Local};

use crate::columns::{add_rows, has_type};
use std::alloc::Global;
use std::collections::VecDeque;
use vx_chunk::{Chunk, ChunkError};
use vx_machine_ids::{give_up_id, take_children};
use vx_machine_node::{
    Due, GroupedNode, Item, Local, give_up_grouped, give_up_item, give_up_newest, release_all,
};
use vx_model::DType;
use vx_order::Order;
use vx_regroup::Regroup;
use vx_sequence::SequenceId;
use vx_sink::{BufferedBytesReservation, LayoutWriterContext, TooLarge};
use vx_write_answer::WriteError;

// ---- what a chunk must have

/// Why a chunk isn't weighed or regrouped. The greatest u128 may stand for more bytes, and no memory holds so many.
fn refusal(error: ChunkError) -> WriteError
    ensures refused { (ns : List ℕ) → Refuses (first_past ns) error → ListRefused false ns result }
    ensures cause { (ns : List ℕ) → Refuses (first_past ns) error → MayCome result }
{
    match error {
        ChunkError::TooLarge(n) => {
            if n == u128::MAX {
                return WriteError::OutOfMemory;
            }
            WriteError::TooLarge(n)
        }
        ChunkError::OutOfMemory => WriteError::OutOfMemory,
    }
}

/// Whether the chunk has another type than the rule's.
fn is_misfit(rule: &Regroup, dtype: &DType, chunk: &Chunk) -> bool
    requires { IsTrue (is_of rule.now (ty dtype.now)) }
    ensures { result ≡ misfits rule.now chunk.now }
{
    match rule {
        Regroup::Buffered(_) => false,
        Regroup::Repartition(_) | Regroup::Collect(_) => !has_type(chunk, dtype),
    }
}

/// Reserves what the tracker counts of a chunk that is taken.
fn reserve(
    ctx: &mut LayoutWriterContext,
    rule: &Regroup,
    chunk: &Chunk,
) -> Result<Option<BufferedBytesReservation>, WriteError>
    ensures bytes { IfOk result (λ r. r ≡ reserved_of rule.now chunk.now) }
    ensures tracked { Paid ctx.old ctx.new 0 (ok_bytes some_bytes result) }
    ensures context { told_by ctx.new ≡ told_by ctx.old }
    ensures fits { OnOk result (Weighs (counted ctx.old) rule.now chunk.now) }
    ensures refused { IfErr result (ListRefused false ((counted ctx.old + weight_in rule.now chunk.now) ∷ taken_sizes rule.now chunk.now)) }
    ensures cause { IfErr result MayCome }
{
    match rule {
        Regroup::Buffered(_) => match chunk.nbytes() {
            Ok(bytes) => match ctx.reserve_buffered_bytes(bytes) {
                Ok(reservation) => Ok(Some(reservation)),
                Err(TooLarge(total)) => Err(WriteError::TooLarge(total)),
            },
            Err(error) => Err(refusal(error)),
        },
        Regroup::Repartition(_) | Regroup::Collect(_) => Ok(None),
    }
}

/// The rows with the chunk's, and what is reserved for it. Where it is refused nothing has changed.
fn admit(
    ctx: &mut LayoutWriterContext,
    rule: &Regroup,
    rows: u64,
    reserved: &mut VecDeque<BufferedBytesReservation>,
    chunk: &Chunk,
) -> Result<(u64, Option<BufferedBytesReservation>), WriteError>
    ensures same { reserved.new.items ≡ reserved.old.items }
    ensures room { OnOk result (deque_len reserved.new < deque_capacity reserved.new) }
    ensures rows { IfOk result (λ r. r.0 ≡ rows + length (cells chunk.now)) }
    ensures rows_fit { OnOk result (rows + length (cells chunk.now) < 2 ^ 64) }
    ensures bytes { IfOk result (λ r. r.1 ≡ reserved_of rule.now chunk.now) }
    ensures tracked { Paid ctx.old ctx.new 0 (ok_bytes (λ r. some_bytes r.1) result) }
    ensures context { told_by ctx.new ≡ told_by ctx.old }
    ensures fits { OnOk result (Weighs (counted ctx.old) rule.now chunk.now) }
    ensures refused { IfErr result (ListRefused false ((counted ctx.old + weight_in rule.now chunk.now) ∷ (rows + length (cells chunk.now)) ∷ taken_sizes rule.now chunk.now)) }
    ensures cause { IfErr result MayCome }
{
    let total = add_rows(rows, chunk.len())?;
    reserved.reserve(1)?;
    let reservation = reserve(ctx, rule, chunk)?;
    Ok((total, reservation))
}

fn keep(
    reserved: &mut VecDeque<BufferedBytesReservation>,
    reservation: Option<BufferedBytesReservation>,
)
    requires { deque_len reserved.old < deque_capacity reserved.old }
    ensures { reserved.new.items ≡ reserved.old.items ++ handed reservation }
{
    match reservation {
        Some(reservation) => reserved.push_back_reserved(reservation),
        None => {}
    }
}

// ---- what leaves

/// The chunk is to be handed on next, under the last one of the ids, which it takes. It takes the last one of the
/// reservations too, where there is one.
fn add_hand(
    todo: &mut VecDeque<Due>,
    ids: &mut Vec<SequenceId>,
    reserved: &mut VecDeque<BufferedBytesReservation>,
    chunk: Chunk,
)
    requires some { 0 < vec_len ids.old }
    requires room { deque_len todo.old < deque_capacity todo.old }
    ensures stock { both (all_ids ids.new) (dues_stock todo.new.items) ≡ both (all_ids ids.old) (dues_stock todo.old.items) }
    ensures balance { dues_reserved todo.new.items + sum_of reserved.new.items ≡ dues_reserved todo.old.items + sum_of reserved.old.items }
    ensures rest { (p : List ℕ) → ids.old.items ≡ children p (vec_len ids.old) → ids.new.items ≡ children p (vec_len ids.new) }
    ensures weighed { (p rest : List ℕ) (n : ℕ) → ids.old.items ≡ children p (vec_len ids.old) → reserved.old.items ≡ rest ++ (n ∷ [])
        → (reserved.new.items ≡ rest) × (todo_of todo.new.items ≡ hand_on n (under p (vec_len ids.new), chunk) ∷ todo_of todo.old.items) }
    ensures unweighed { (p : List ℕ) → ids.old.items ≡ children p (vec_len ids.old) → reserved.old.items ≡ []
        → (reserved.new.items ≡ []) × (todo_of todo.new.items ≡ hand_on 0 (under p (vec_len ids.new), chunk) ∷ todo_of todo.old.items) }
    ensures ids { vec_len ids.new + 1 ≡ vec_len ids.old }
    ensures todo { deque_len todo.new ≡ deque_len todo.old + 1 }
    ensures capacity { deque_capacity todo.new ≡ deque_capacity todo.old }
    ensures room { deque_len reserved.old < deque_capacity reserved.old → deque_len reserved.new < deque_capacity reserved.new }
{
    match ids.pop() {
        Some(id) => {
            let reservation = reserved.pop_back();
            let item = Item { id, chunk };
            todo.push_front_reserved(Due::HandOn { item, reservation });
        }
        None => unreachable!(),
    }
}

/// Each chunk is to be handed on, under the id of its place.
fn add_hands(
    todo: &mut VecDeque<Due>,
    mut ids: Vec<SequenceId>,
    mut chunks: Vec<Chunk>,
    reserved: &mut VecDeque<BufferedBytesReservation>,
)
    requires same { vec_len ids ≡ vec_len chunks }
    requires room { deque_len todo.old + vec_len chunks ≤ deque_capacity todo.old }
    ensures stock { dues_stock todo.new.items ≡ both (all_ids ids) (dues_stock todo.old.items) }
    ensures balance { dues_reserved todo.new.items + sum_of reserved.new.items ≡ dues_reserved todo.old.items + sum_of reserved.old.items }
    ensures room { deque_len reserved.old < deque_capacity reserved.old → deque_len reserved.new < deque_capacity reserved.new }
    ensures weighed { (p : List ℕ) (rest : List ℕ) → ids.items ≡ children p (vec_len ids) → reserved.old.items ≡ rest ++ map held chunks.items
        → (reserved.new.items ≡ rest) × (todo_of todo.new.items ≡ hand_all held (ranked p 0 chunks.items) ++ todo_of todo.old.items) }
    ensures unweighed { (p : List ℕ) → ids.items ≡ children p (vec_len ids) → reserved.old.items ≡ []
        → (reserved.new.items ≡ []) × (todo_of todo.new.items ≡ hand_all (λ c. 0) (ranked p 0 chunks.items) ++ todo_of todo.old.items) }
{
    'hands: while let Some(chunk) = chunks.pop() {
        add_hand(todo, &mut ids, reserved, chunk);
    }
    ids.destroy_empty();
    drop(chunks);
}

/// The first ones come last, if there are so many.
fn turn(reserved: &mut VecDeque<BufferedBytesReservation>, count: usize)
    ensures turned { (xs ys : List ℕ) → reserved.old.items ≡ xs ++ ys → length xs ≡ count → reserved.new.items ≡ ys ++ xs }
    ensures none { reserved.old.items ≡ [] → reserved.new.items ≡ [] }
    ensures sum { sum_of reserved.new.items ≡ sum_of reserved.old.items }
    ensures room { deque_len reserved.old < deque_capacity reserved.old → deque_len reserved.new < deque_capacity reserved.new }
{
    if count <= reserved.len() {
        reserved.rotate_left(count);
    }
}

/// The chunks that leave are to be handed on, under children of the id. Where there is none it is given up.
fn hand<O: Order>(
    alloc: Global,
    order: &mut O,
    id: SequenceId,
    chunks: Vec<Chunk>,
    todo: &mut VecDeque<Due>,
    reserved: &mut VecDeque<BufferedBytesReservation>,
) -> Result<(), WriteError>
    requires { Owned (O.active order.old) (both (id_stock id) (dues_stock todo.old.items)) }
    ensures moved { Moved (O.active order.old) (O.active order.new) (both (id_stock id) (dues_stock todo.old.items)) (dues_stock todo.new.items) }
    ensures balance { dues_reserved todo.new.items + sum_of reserved.new.items ≡ dues_reserved todo.old.items + sum_of reserved.old.items }
    ensures room { deque_len reserved.old < deque_capacity reserved.old → deque_len reserved.new < deque_capacity reserved.new }
    ensures weighed { OnOk result ((rest : List ℕ) → reserved.old.items ≡ map held chunks.items ++ rest
        → (reserved.new.items ≡ rest) × (todo_of todo.new.items ≡ hand_all held (ranked id 0 chunks.items) ++ todo_of todo.old.items)) }
    ensures unweighed { OnOk result (reserved.old.items ≡ []
        → (reserved.new.items ≡ []) × (todo_of todo.new.items ≡ hand_all (λ c. 0) (ranked id 0 chunks.items) ++ todo_of todo.old.items)) }
    ensures fits { OnOk result (length chunks.items < 2 ^ 64) }
    ensures memory { IfErr result (λ e. e ≡ WriteError.OutOfMemory) }
    ensures outlet { O.outlet order.new ≡ O.outlet order.old }
    ensures sink { O.sink order.new ≡ O.sink order.old }
{
    match todo.reserve(chunks.len()) {
        Ok(()) => match take_children(alloc, order, id, chunks.len()) {
            Ok(ids) => {
                turn(reserved, chunks.len());
                add_hands(todo, ids, chunks, reserved);
                Ok(())
            }
            Err(_) => {
                drop(chunks);
                Err(WriteError::OutOfMemory)
            }
        },
        Err(_) => {
            drop(chunks);
            give_up_id(order, id);
            Err(WriteError::OutOfMemory)
        }
    }
}

/// The rule behind the newest chunk, where there is one. What leaves at it is to be handed on.
fn act_on<O: Order>(
    alloc: Global,
    order: &mut O,
    mut rule: Regroup,
    newest: Option<Item>,
    todo: &mut VecDeque<Due>,
    reserved: &mut VecDeque<BufferedBytesReservation>,
) -> Result<Regroup, WriteError>
    requires owned { Owned (O.active order.old) (both (some_stock item_stock newest) (dues_stock todo.old.items)) }
    requires typed { IsFalse (misfit_in rule newest) }
    requires weighed { reserved.old.items ≡ sizes_in rule newest }
    requires few { sum_of reserved.old.items < 2 ^ 64 }
    ensures moved { Moved (O.active order.old) (O.active order.new) (both (some_stock item_stock newest) (dues_stock todo.old.items)) (dues_stock todo.new.items) }
    ensures balance { dues_reserved todo.new.items + sum_of reserved.new.items ≡ dues_reserved todo.old.items + sum_of reserved.old.items }
    ensures room { deque_len reserved.old < deque_capacity reserved.old → deque_len reserved.new < deque_capacity reserved.new }
    ensures done { IfOk result (λ r. ActedOn rule newest r reserved.new.items (todo_of todo.new.items) (todo_of todo.old.items)) }
    ensures refused { IfErr result (ListRefused false (acted_numbers rule newest)) }
    ensures cause { IfErr result MayCome }
    ensures outlet { O.outlet order.new ≡ O.outlet order.old }
    ensures sink { O.sink order.new ≡ O.sink order.old }
{
    let Some(Item { id, chunk }) = newest else {
        return Ok(rule);
    };
    match rule.react(alloc, chunk, false) {
        Ok(chunks) => match hand(alloc, order, id, chunks, todo, reserved) {
            Ok(()) => Ok(rule),
            Err(error) => {
                drop(rule);
                Err(error)
            }
        },
        Err(error) => {
            drop(rule);
            give_up_id(order, id);
            Err(refusal(error))
        }
    }
}

// ---- takes

/// Takes a chunk of the rule's type: reserves for it, and acts on the one before it.
fn take_fitting<O: Order>(
    alloc: Global,
    ctx: &mut LayoutWriterContext,
    order: &mut O,
    node: GroupedNode,
    todo: &mut VecDeque<Due>,
    item: Item,
) -> Result<GroupedNode, WriteError>
    requires owned { Owned (O.active order.old) (both (both (node_stock node) (dues_stock todo.old.items)) (item_stock item)) }
    requires reserved { node_reserved node + dues_reserved todo.old.items ≤ counted ctx.old }
    requires typed { IsFalse (misfits node.rule item.chunk) }
    ensures moved { Moved (O.active order.old) (O.active order.new) (both (both (node_stock node) (dues_stock todo.old.items)) (item_stock item)) (both (ok_stock node_stock result) (dues_stock todo.new.items)) }
    ensures tracked { Paid ctx.old ctx.new (node_reserved node + dues_reserved todo.old.items) (ok_bytes node_reserved result + dues_reserved todo.new.items) }
    ensures context { told_by ctx.new ≡ told_by ctx.old }
    ensures done { IfOk result (λ n. (s : Setting) (name : List ℕ) (ks : Tasks)
        → Took (taken s name ks (item_of item) (mind_of (Local.Grouped node))) (mind_of (Local.Grouped n)) (todo_of todo.new.items) (todo_of todo.old.items) ks) }
    ensures refused { IfErr result (λ e. (s : Setting) (name : List ℕ) (ks : Tasks)
        → TakeStopped (counted ctx.old) (taken s name ks (item_of item) (mind_of (Local.Grouped node))) e) }
    ensures cause { IfErr result MayCome }
    ensures outlet { O.outlet order.new ≡ O.outlet order.old }
    ensures sink { O.sink order.new ≡ O.sink order.old }
{
    let GroupedNode {
        dtype,
        rule,
        newest,
        rows,
        mut reserved,
    } = node;
    match admit(ctx, &rule, rows, &mut reserved, &item.chunk) {
        Ok((rows, reservation)) => {
            let acted = act_on(alloc, order, rule, newest, todo, &mut reserved);
            keep(&mut reserved, reservation);
            match acted {
                Ok(rule) => Ok(GroupedNode {
                    dtype,
                    rule,
                    newest: Some(item),
                    rows,
                    reserved,
                }),
                Err(error) => {
                    drop(dtype);
                    release_all(ctx, reserved);
                    give_up_item(order, item);
                    Err(error)
                }
            }
        }
        Err(error) => {
            drop((dtype, rule));
            release_all(ctx, reserved);
            give_up_newest(order, newest);
            give_up_item(order, item);
            Err(error)
        }
    }
}

/// Takes a chunk. Refused, all that the node holds is given up.
pub fn take_grouped<O: Order>(
    alloc: Global,
    ctx: &mut LayoutWriterContext,
    order: &mut O,
    node: GroupedNode,
    todo: &mut VecDeque<Due>,
    item: Item,
) -> Result<GroupedNode, WriteError>
    requires owned { Owned (O.active order.old) (both (both (node_stock node) (dues_stock todo.old.items)) (item_stock item)) }
    requires reserved { node_reserved node + dues_reserved todo.old.items ≤ counted ctx.old }
    ensures moved { Moved (O.active order.old) (O.active order.new) (both (both (node_stock node) (dues_stock todo.old.items)) (item_stock item)) (both (ok_stock node_stock result) (dues_stock todo.new.items)) }
    ensures tracked { Paid ctx.old ctx.new (node_reserved node + dues_reserved todo.old.items) (ok_bytes node_reserved result + dues_reserved todo.new.items) }
    ensures context { told_by ctx.new ≡ told_by ctx.old }
    ensures done { IfOk result (λ n. (s : Setting) (name : List ℕ) (ks : Tasks)
        → Took (taken s name ks (item_of item) (mind_of (Local.Grouped node))) (mind_of (Local.Grouped n)) (todo_of todo.new.items) (todo_of todo.old.items) ks) }
    ensures refused { IfErr result (λ e. (s : Setting) (name : List ℕ) (ks : Tasks)
        → TakeStopped (counted ctx.old) (taken s name ks (item_of item) (mind_of (Local.Grouped node))) e) }
    ensures cause { IfErr result MayCome }
    ensures outlet { O.outlet order.new ≡ O.outlet order.old }
    ensures sink { O.sink order.new ≡ O.sink order.old }
{
    if is_misfit(&node.rule, &node.dtype, &item.chunk) {
        let Item { id, chunk } = item;
        give_up_id(order, id);
        give_up_grouped(ctx, order, node);
        return Err(WriteError::BatchType(chunk));
    }
    take_fitting(alloc, ctx, order, node, todo, item)
}

// ---- the end

/// The one chunk of a collection is to be handed on, under the last path itself.
fn hand_whole<O: Order>(
    order: &mut O,
    id: SequenceId,
    mut chunks: Vec<Chunk>,
    todo: &mut VecDeque<Due>,
) -> Result<(), WriteError>
    requires owned { Owned (O.active order.old) (both (id_stock id) (dues_stock todo.old.items)) }
    requires one { vec_len chunks ≡ 1 }
    ensures moved { Moved (O.active order.old) (O.active order.new) (both (id_stock id) (dues_stock todo.old.items)) (dues_stock todo.new.items) }
    ensures balance { dues_reserved todo.new.items ≡ dues_reserved todo.old.items }
    ensures done { OnOk result ((c : ChunkData) → chunks.items ≡ c ∷ [] → todo_of todo.new.items ≡ hand_on 0 (id, c) ∷ todo_of todo.old.items) }
    ensures memory { IfErr result (λ e. e ≡ WriteError.OutOfMemory) }
    ensures outlet { O.outlet order.new ≡ O.outlet order.old }
    ensures sink { O.sink order.new ≡ O.sink order.old }
{
    if let Err(_) = todo.reserve(1) {
        drop(chunks);
        give_up_id(order, id);
        return Err(WriteError::OutOfMemory);
    }
    match chunks.pop() {
        Some(chunk) => {
            drop(chunks);
            let item = Item { id, chunk };
            let reservation = None;
            todo.push_front_reserved(Due::HandOn { item, reservation });
            Ok(())
        }
        None => unreachable!(),
    }
}

/// What is left at the end is to be handed on.
fn hand_rest<O: Order>(
    alloc: Global,
    order: &mut O,
    mut rule: Regroup,
    rows: u64,
    newest: Option<Item>,
    todo: &mut VecDeque<Due>,
    reserved: &mut VecDeque<BufferedBytesReservation>,
) -> Result<(), WriteError>
    requires owned { Owned (O.active order.old) (both (some_stock item_stock newest) (dues_stock todo.old.items)) }
    requires typed { IsFalse (misfit_in rule newest) }
    requires weighed { reserved.old.items ≡ sizes_in rule newest }
    requires idle { IsTrue (is_idle rule newest) }
    requires counted { rows_counted rule newest rows ≡ rows }
    ensures moved { Moved (O.active order.old) (O.active order.new) (both (some_stock item_stock newest) (dues_stock todo.old.items)) (dues_stock todo.new.items) }
    ensures balance { dues_reserved todo.new.items + sum_of reserved.new.items ≡ dues_reserved todo.old.items + sum_of reserved.old.items }
    ensures none { OnOk result (reserved.new.items ≡ []) }
    ensures done { OnOk result (todo_of todo.new.items ≡ rest_hands rule newest ++ todo_of todo.old.items) }
    ensures fits { OnOk result (RestFits rule newest) }
    ensures refused { IfErr result (ListRefused false (acted_numbers rule newest)) }
    ensures cause { IfErr result MayCome }
    ensures outlet { O.outlet order.new ≡ O.outlet order.old }
    ensures sink { O.sink order.new ≡ O.sink order.old }
{
    let Some(Item { id, chunk }) = newest else {
        drop(rule);
        return Ok(());
    };
    let whole = collects(&rule);
    let rest = rule.react(alloc, chunk, true);
    drop(rule);
    match rest {
        Ok(chunks) => {
            if whole {
                return hand_whole(order, id, chunks, todo);
            }
            hand(alloc, order, id, chunks, todo, reserved)
        }
        Err(error) => {
            give_up_id(order, id);
            Err(refusal(error))
        }
    }
}

fn collects(rule: &Regroup) -> bool
    ensures { result ≡ is_collection rule.now }
{
    match rule {
        Regroup::Collect(_) => true,
        Regroup::Repartition(_) | Regroup::Buffered(_) => false,
    }
}

/// What a node that regroups has in mind behind the end: what is left goes to its child, whose queue is then closed.
pub fn end_grouped<O: Order>(
    alloc: Global,
    ctx: &mut LayoutWriterContext,
    order: &mut O,
    todo: &mut VecDeque<Due>,
    node: GroupedNode,
) -> Result<Local, WriteError>
    requires owned { Owned (O.active order.old) (both (node_stock node) (dues_stock todo.old.items)) }
    requires reserved { node_reserved node + dues_reserved todo.old.items ≤ counted ctx.old }
    ensures moved { Moved (O.active order.old) (O.active order.new) (both (node_stock node) (dues_stock todo.old.items)) (both (ok_stock local_stock result) (dues_stock todo.new.items)) }
    ensures tracked { Paid ctx.old ctx.new (node_reserved node + dues_reserved todo.old.items) (ok_bytes local_reserved result + dues_reserved todo.new.items) }
    ensures context { told_by ctx.new ≡ told_by ctx.old }
    ensures done { todo.old.items ≡ [] → (kids : ℕ) → IfOk result (λ l. EndTaken (Local.Grouped node) kids l (todo_of todo.new.items) (todo_of todo.old.items)) }
    ensures refused { (kids : ℕ) → IfErr result (EndRefused (Local.Grouped node) kids) }
    ensures cause { IfErr result MayCome }
    ensures outlet { O.outlet order.new ≡ O.outlet order.old }
    ensures sink { O.sink order.new ≡ O.sink order.old }
{
    let GroupedNode {
        dtype,
        rule,
        newest,
        rows,
        mut reserved,
    } = node;
    drop(dtype);
    match hand_rest(alloc, order, rule, rows, newest, todo, &mut reserved) {
        Ok(()) => {
            reserved.destroy_empty();
            todo.reserve(1)?;
            todo.push_back_reserved(Due::Close);
            Ok(Local::Passing)
        }
        Err(error) => {
            release_all(ctx, reserved);
            Err(error)
        }
    }
}
