//! The source's task: it reads batches and puts them on the root's queue.

ghost use Rattle.std.specs.Prelude.{◌≡◌, ◌+◌, ◌<◌, ◌^◌, true, IfOk, IfErr, OnOk};
ghost use Rattle.vx_path.specs.Path.{Eof, eof_path, next};
ghost use Rattle.vx_model.specs.ChunkData.{piece_type};
ghost use Rattle.vx_named_tasks.specs.Names.{onward, handed, CanName};
ghost use Rattle.vx_order.specs.Answers.{FullAt};
ghost use Rattle.vx_machine_ids.specs.Stock.{none, both, id_stock, end_stock, ids_stock};
ghost use Rattle.vx_machine_ids.specs.Balance.{Owned, Moved};
ghost use Rattle.vx_machine_state.specs.State.{no_tasks};
ghost use Rattle.vx_write_answer.specs.Causes.{of_order};
ghost use Rattle.vx_machine.specs.Calls.{ReadTold, SourceTold, LeavesFewer, reads_at};
ghost use Rattle.vx_machine.specs.Names.{names_stock, names_of, HasNames};
ghost use Rattle.vx_machine.specs.Source.{phase_stock, Reads, IsTyped, IsWhole, IsFewer, SourceMay, NoNumber};
ghost use Rattle.vx_machine.specs.SourceActs.{IsLate, SourceActed, SourceRefused, ReadActed, ReadRefused};
ghost use Rattle.vx_machine_task.specs.Ledger.{task_reserved};
ghost use Rattle.vx_machine_task.specs.Stocks.{task_stock};
ghost use Rattle.vx_machine_task.specs.View.{task_row};
ghost use Rattle.vx_machine.specs.View.{phase_of};

use crate::names::{Names, give_up_ids, give_up_names};
use std::collections::VecDeque;
use vx_chunk::Chunk;
use vx_machine_ids::{give_up_id, give_up_pointer, take_id};
use vx_machine_node::{Item, give_up_item};
use vx_machine_nodes::has_type;
use vx_machine_task::Task;
use vx_order::{Order, OrderError};
use vx_sequence::{SequenceId, SequencePointer};
use vx_sink::BatchSource;
use vx_write_answer::{ActionKind, WriteError};

/// What the source does next.
pub(crate) enum Phase {
    /// It reads a batch, whose path comes of these.
    Reading(Names),
    /// It puts this batch on the root's queue.
    Giving(Names, Item),
    /// It closes the root's queue.
    Closing,
    Finished,
}

pub(crate) fn give_up_phase<O: Order>(order: &mut O, phase: Phase)
    requires { Owned (O.active order.old) (phase_stock phase) }
    ensures moved { Moved (O.active order.old) (O.active order.new) (phase_stock phase) none }
    ensures outlet { O.outlet order.new ≡ O.outlet order.old }
    ensures sink { O.sink order.new ≡ O.sink order.old }
{
    match phase {
        Phase::Reading(names) => give_up_names(order, names),
        Phase::Giving(names, item) => {
            give_up_names(order, names);
            give_up_item(order, item);
        }
        Phase::Closing => {}
        Phase::Finished => {}
    }
}

/// The next batch, which is of the source's type. It looks at each cell once, so that the batch is known to be whole.
fn next_batch<B: BatchSource>(source: &mut B) -> Result<Option<Chunk>, WriteError>
    ensures kind { B.kind source.new ≡ B.kind source.old }
    ensures typed { IfOk result (IsTyped (B.kind source.old)) }
    ensures whole { IfOk result IsWhole }
    ensures left { IfOk result (IsFewer (B.left source.old) (B.left source.new)) }
    ensures reads { Reads (B.to_come source.old) (B.to_come source.new) result }
    ensures told { ReadTold (B.faults source.old) (B.faults source.new) (B.may_fail source.old) (B.may_fail source.new)
        (B.must_fail source.old) (B.must_fail source.new) result }
    ensures cause { IfErr result (SourceMay (B.kind source.old)) }
    ensures number { IfErr result NoNumber }
{
    match source.next() {
        Ok(Some(batch)) => {
            if !has_type(&batch, source.dtype()) {
                return Err(WriteError::BatchType(batch));
            }
            batch.whole();
            Ok(Some(batch))
        }
        Ok(None) => Ok(None),
        Err(error) => Err(error.into()),
    }
}

/// The source's answer where its batch's path is taken.
fn read_at<O: Order, B: BatchSource>(
    order: &mut O,
    source: &mut B,
    pointer: SequencePointer,
    id: SequenceId,
) -> (Phase, Result<ActionKind, WriteError>)
    requires { Owned (O.active order.old) (both (end_stock pointer) (id_stock id)) }
    ensures moved { Moved (O.active order.old) (O.active order.new) (both (end_stock pointer) (id_stock id)) (phase_stock result.0) }
    ensures outlet { O.outlet order.new ≡ O.outlet order.old }
    ensures sink { O.sink order.new ≡ O.sink order.old }
    ensures kind { B.kind source.new ≡ B.kind source.old }
    ensures left { IfOk result.1 (LeavesFewer (B.left source.old) (B.left source.new)) }
    ensures told { SourceTold (B.faults source.old) (B.faults source.new) (B.may_fail source.old) (B.may_fail source.new)
        (B.must_fail source.old) (B.must_fail source.new) true result.1 (λ a. a) }
    ensures cause { IfErr result.1 (SourceMay (B.kind source.old)) }
    ensures done { (e : Eof) → id ≡ eof_path e → pointer ≡ next e → e.last + 1 < 2 ^ 64
        → IfOk result.1 (ReadActed (B.kind source.old) (B.to_come source.old) (B.to_come source.new) (onward e) (phase_of result.0)) }
    ensures refused { (e : Eof) → IfErr result.1 (ReadRefused (B.kind source.old) (B.to_come source.old) (B.to_come source.new) (onward e)) }
    ensures enough { OnOk result.1 (HasNames (phase_of result.0) (B.left source.new)) }
{
    match next_batch(source) {
        Ok(Some(chunk)) => (
            Phase::Giving(Names::Onward(pointer), Item { id, chunk }),
            Ok(ActionKind::Batch),
        ),
        Ok(None) => {
            give_up_id(order, id);
            give_up_pointer(order, pointer);
            (Phase::Closing, Ok(ActionKind::End))
        }
        Err(error) => {
            give_up_id(order, id);
            (Phase::Reading(Names::Onward(pointer)), Err(error))
        }
    }
}

/// The source's answer where its batch can have no path, as its number is too large: only a batch is refused for it.
fn read_none<O: Order, B: BatchSource>(
    order: &mut O,
    source: &mut B,
    pointer: SequencePointer,
    full: OrderError,
) -> (Phase, Result<ActionKind, WriteError>)
    requires owned { Owned (O.active order.old) (end_stock pointer) }
    requires full { FullAt pointer.last full }
    requires late { IsLate (of_order full) }
    ensures moved { Moved (O.active order.old) (O.active order.new) (end_stock pointer) (phase_stock result.0) }
    ensures outlet { O.outlet order.new ≡ O.outlet order.old }
    ensures sink { O.sink order.new ≡ O.sink order.old }
    ensures kind { B.kind source.new ≡ B.kind source.old }
    ensures left { IfOk result.1 (LeavesFewer (B.left source.old) (B.left source.new)) }
    ensures told { SourceTold (B.faults source.old) (B.faults source.new) (B.may_fail source.old) (B.may_fail source.new)
        (B.must_fail source.old) (B.must_fail source.new) true result.1 (λ a. a) }
    ensures cause { IfErr result.1 (SourceMay (B.kind source.old)) }
    ensures done { IfOk result.1 (ReadActed (B.kind source.old) (B.to_come source.old) (B.to_come source.new) (onward pointer) (phase_of result.0)) }
    ensures refused { IfErr result.1 (ReadRefused (B.kind source.old) (B.to_come source.old) (B.to_come source.new) (onward pointer)) }
    ensures enough { OnOk result.1 (HasNames (phase_of result.0) (B.left source.new)) }
{
    match next_batch(source) {
        Ok(Some(batch)) => {
            drop(batch);
            (Phase::Reading(Names::Onward(pointer)), Err(full.into()))
        }
        Ok(None) => {
            give_up_pointer(order, pointer);
            (Phase::Closing, Ok(ActionKind::End))
        }
        Err(error) => (Phase::Reading(Names::Onward(pointer)), Err(error)),
    }
}

/// It asks the source where there is memory for a batch's path.
fn read_onward<O: Order, B: BatchSource>(
    order: &mut O,
    source: &mut B,
    mut pointer: SequencePointer,
) -> (Phase, Result<ActionKind, WriteError>)
    requires { Owned (O.active order.old) (end_stock pointer) }
    ensures moved { Moved (O.active order.old) (O.active order.new) (end_stock pointer) (phase_stock result.0) }
    ensures outlet { O.outlet order.new ≡ O.outlet order.old }
    ensures sink { O.sink order.new ≡ O.sink order.old }
    ensures kind { B.kind source.new ≡ B.kind source.old }
    ensures left { IfOk result.1 (LeavesFewer (B.left source.old) (B.left source.new)) }
    ensures told { SourceTold (B.faults source.old) (B.faults source.new) (B.may_fail source.old) (B.may_fail source.new)
        (B.must_fail source.old) (B.must_fail source.new) true result.1 (λ a. a) }
    ensures cause { IfErr result.1 (SourceMay (B.kind source.old)) }
    ensures done { IfOk result.1 (ReadActed (B.kind source.old) (B.to_come source.old) (B.to_come source.new) (onward pointer) (phase_of result.0)) }
    ensures refused { IfErr result.1 (ReadRefused (B.kind source.old) (B.to_come source.old) (B.to_come source.new) (onward pointer)) }
    ensures enough { OnOk result.1 (HasNames (phase_of result.0) (B.left source.new)) }
{
    match take_id(order, &mut pointer) {
        Ok(id) => read_at(order, source, pointer, id),
        Err(OrderError::OutOfMemory) => (
            Phase::Reading(Names::Onward(pointer)),
            Err(WriteError::OutOfMemory),
        ),
        Err(full) => read_none(order, source, pointer, full),
    }
}

/// A batch gets the first id; at the end the others are given up.
fn read_handed<O: Order, B: BatchSource>(
    order: &mut O,
    source: &mut B,
    mut ids: VecDeque<SequenceId>,
) -> (Phase, Result<ActionKind, WriteError>)
    requires owned { Owned (O.active order.old) (ids_stock ids.items) }
    requires enough { CanName (handed ids.items) (B.left source.old) }
    ensures moved { Moved (O.active order.old) (O.active order.new) (ids_stock ids.items) (phase_stock result.0) }
    ensures outlet { O.outlet order.new ≡ O.outlet order.old }
    ensures sink { O.sink order.new ≡ O.sink order.old }
    ensures kind { B.kind source.new ≡ B.kind source.old }
    ensures left { IfOk result.1 (LeavesFewer (B.left source.old) (B.left source.new)) }
    ensures told { SourceTold (B.faults source.old) (B.faults source.new) (B.may_fail source.old) (B.may_fail source.new)
        (B.must_fail source.old) (B.must_fail source.new) true result.1 (λ a. a) }
    ensures cause { IfErr result.1 (SourceMay (B.kind source.old)) }
    ensures done { IfOk result.1 (ReadActed (B.kind source.old) (B.to_come source.old) (B.to_come source.new) (handed ids.items) (phase_of result.0)) }
    ensures refused { IfErr result.1 (ReadRefused (B.kind source.old) (B.to_come source.old) (B.to_come source.new) (handed ids.items)) }
    ensures enough { OnOk result.1 (HasNames (phase_of result.0) (B.left source.new)) }
{
    match next_batch(source) {
        Ok(Some(chunk)) => match ids.pop_front() {
            Some(id) => (
                Phase::Giving(Names::Handed(ids), Item { id, chunk }),
                Ok(ActionKind::Batch),
            ),
            // There is an id for each batch that is left.
            None => unreachable!(),
        },
        Ok(None) => {
            give_up_ids(order, ids);
            (Phase::Closing, Ok(ActionKind::End))
        }
        Err(error) => (Phase::Reading(Names::Handed(ids)), Err(error)),
    }
}

/// It asks the source.
fn read<O: Order, B: BatchSource>(
    order: &mut O,
    source: &mut B,
    names: Names,
) -> (Phase, Result<ActionKind, WriteError>)
    requires owned { Owned (O.active order.old) (names_stock names) }
    requires enough { CanName (names_of names) (B.left source.old) }
    ensures moved { Moved (O.active order.old) (O.active order.new) (names_stock names) (phase_stock result.0) }
    ensures outlet { O.outlet order.new ≡ O.outlet order.old }
    ensures sink { O.sink order.new ≡ O.sink order.old }
    ensures kind { B.kind source.new ≡ B.kind source.old }
    ensures left { IfOk result.1 (LeavesFewer (B.left source.old) (B.left source.new)) }
    ensures told { SourceTold (B.faults source.old) (B.faults source.new) (B.may_fail source.old) (B.may_fail source.new)
        (B.must_fail source.old) (B.must_fail source.new) true result.1 (λ a. a) }
    ensures cause { IfErr result.1 (SourceMay (B.kind source.old)) }
    ensures done { IfOk result.1 (ReadActed (B.kind source.old) (B.to_come source.old) (B.to_come source.new) (names_of names) (phase_of result.0)) }
    ensures refused { IfErr result.1 (ReadRefused (B.kind source.old) (B.to_come source.old) (B.to_come source.new) (names_of names)) }
    ensures enough { OnOk result.1 (HasNames (phase_of result.0) (B.left source.new)) }
{
    match names {
        Names::Onward(pointer) => read_onward(order, source, pointer),
        Names::Handed(ids) => read_handed(order, source, ids),
    }
}

/// The source's next act.
pub(crate) fn act_source<O: Order, B: BatchSource>(
    order: &mut O,
    source: &mut B,
    phase: Phase,
    root: &mut Task,
) -> (Phase, Result<ActionKind, WriteError>)
    requires owned { Owned (O.active order.old) (both (phase_stock phase) (task_stock root.old)) }
    requires enough { HasNames (phase_of phase) (B.left source.old) }
    ensures moved { Moved (O.active order.old) (O.active order.new) (both (phase_stock phase) (task_stock root.old)) (both (phase_stock result.0) (task_stock root.new)) }
    ensures reserved { task_reserved root.new ≡ task_reserved root.old }
    ensures outlet { O.outlet order.new ≡ O.outlet order.old }
    ensures sink { O.sink order.new ≡ O.sink order.old }
    ensures kind { B.kind source.new ≡ B.kind source.old }
    ensures left { IfOk result.1 (LeavesFewer (B.left source.old) (B.left source.new)) }
    ensures told { SourceTold (B.faults source.old) (B.faults source.new) (B.may_fail source.old) (B.may_fail source.new)
        (B.must_fail source.old) (B.must_fail source.new) (reads_at (phase_of phase) 0) result.1 (λ a. a) }
    ensures cause { IfErr result.1 (SourceMay (B.kind source.old)) }
    ensures done { IfOk result.1 (SourceActed (B.kind source.old) (B.to_come source.old) (B.to_come source.new) (phase_of phase) (phase_of result.0)
        (task_row root.old no_tasks) (task_row root.new no_tasks)) }
    ensures refused { IfErr result.1 (SourceRefused (B.kind source.old) (B.to_come source.old) (B.to_come source.new) (phase_of phase) (task_row root.old no_tasks)) }
    ensures enough { OnOk result.1 (HasNames (phase_of result.0) (B.left source.new)) }
{
    match phase {
        Phase::Reading(names) => read(order, source, names),
        Phase::Giving(names, item) => match root.give(item) {
            Ok(()) => (Phase::Reading(names), Ok(ActionKind::Put)),
            Err(item) => {
                give_up_item(order, item);
                (Phase::Reading(names), Err(WriteError::OutOfMemory))
            }
        },
        Phase::Closing => {
            root.shut();
            (Phase::Finished, Ok(ActionKind::Close))
        }
        Phase::Finished => (Phase::Finished, Ok(ActionKind::Close)),
    }
}
