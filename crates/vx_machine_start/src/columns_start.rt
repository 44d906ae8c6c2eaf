//! How the columns of structs and lists start.

ghost use Rattle.std.specs.Prelude.{◌≡◌, ◌<◌, true, [], IsTrue, IfOk, IfErr, OnOk};
ghost use Rattle.std.specs.Arc.{arc_value};
ghost use Rattle.vx_model.specs.Ty.{is_list};
ghost use Rattle.vx_model.specs.TyView.{ty, field_ty};
ghost use Rattle.vx_split.specs.ListState.{state_at};
ghost use Rattle.vx_sink.specs.ContextView.{allowed_in};
ghost use Rattle.vx_strategy.specs.NodeViews.{struct_way, list_way};
ghost use Rattle.vx_machine_ids.specs.Stock.{both, end_stock, ok_stock};
ghost use Rattle.vx_machine_ids.specs.Balance.{Owned, Moved};
ghost use Rattle.vx_machine_state.specs.Start.{waiting};
ghost use Rattle.vx_machine_node.specs.Causes.{StartMay};
ghost use Rattle.vx_machine_task.specs.Ledger.{tasks_reserved};
ghost use Rattle.vx_machine_start.specs.Starting.{lists_form, validity_forms, field_form, columns_form, Started, ManyStarted, OneStarted, AllStarted, FormRefused, ManyRefused, OneRefused};
ghost use Rattle.vx_machine_task.specs.Stocks.{task_stock, tasks_stock};
ghost use Rattle.vx_machine_node.specs.View.{form_at};

use crate::start::{next_name, start_under, waiting};
use std::alloc::Global;
use std::sync::Arc;
use vx_layout_shape::fields_in;
use vx_machine_fresh::element_copy;
use vx_machine_ids::give_up_pointer;
use vx_machine_node::{ColumnsNode, ListsNode, Local};
use vx_machine_task::{Task, refuse_started};
use vx_model::{DType, Nullability, PType, StructField};
use vx_order::Order;
use vx_path::owned::Path;
use vx_sequence::SequencePointer;
use vx_sink::LayoutWriterContext;
use vx_strategy::{ChildStrategy, ListLayoutStrategy, StructStrategy};
use vx_write_answer::WriteError;

/// A struct's task with its columns, whose pointers are split off; the rest of the pointer is given up.
#[cycle(start)]
pub(crate) fn start_columns<O: Order>(
    alloc: Global,
    ctx: &LayoutWriterContext,
    order: &mut O,
    fields: &StructStrategy,
    node: ColumnsNode,
    marked: bool,
    name: Path,
    mut eof: SequencePointer,
) -> Result<Task, WriteError>
    requires owned { Owned (O.active order.old) (end_stock eof) }
    ensures moved { Moved (O.active order.old) (O.active order.new) (end_stock eof) (ok_stock task_stock result) }
    ensures outlet { O.outlet order.new ≡ O.outlet order.old }
    ensures sink { O.sink order.new ≡ O.sink order.old }
    ensures cause { IfErr result StartMay }
    ensures shows { IfOk result (Started (allowed_in ctx.now) (columns_form fields.now (ty (arc_value node.dtype))) marked name eof) }
    ensures refused { IfErr result (FormRefused (allowed_in ctx.now) (columns_form fields.now (ty (arc_value node.dtype))) marked eof) }
{
    let mut kids = Vec::new(alloc);
    let started = start_each(
        alloc,
        ctx,
        order,
        fields,
        &node.dtype,
        marked,
        &name,
        &mut eof,
        &mut kids,
    );
    give_up_pointer(order, eof);
    match started {
        Ok(()) => Ok(waiting(alloc, name, Local::Columns(node, 0), kids)),
        Err(error) => {
            drop(node);
            refuse_started(alloc, kids, order);
            Err(error)
        }
    }
}

/// Starts the validity where the type is nullable, and then each field. After an error what was started is in the list.
#[cycle(start)]
fn start_each<O: Order>(
    alloc: Global,
    ctx: &LayoutWriterContext,
    order: &mut O,
    fields: &StructStrategy,
    dtype: &DType,
    marked: bool,
    name: &Path,
    eof: &mut SequencePointer,
    kids: &mut Vec<Task>,
) -> Result<(), WriteError>
    requires owned { Owned (O.active order.old) (both (end_stock eof.old) (tasks_stock kids.old.items)) }
    ensures moved { Moved (O.active order.old) (O.active order.new) (both (end_stock eof.old) (tasks_stock kids.old.items)) (both (end_stock eof.new) (tasks_stock kids.new.items)) }
    ensures reserved { tasks_reserved kids.new.items ≡ tasks_reserved kids.old.items }
    ensures outlet { O.outlet order.new ≡ O.outlet order.old }
    ensures sink { O.sink order.new ≡ O.sink order.old }
    ensures cause { IfErr result StartMay }
    ensures shows { OnOk result (kids.old.items ≡ [] → AllStarted (allowed_in ctx.now) (columns_form fields.now (ty dtype.now)) marked name.now eof.old kids.new.items) }
    ensures refused { IfErr result (FormRefused (allowed_in ctx.now) (columns_form fields.now (ty dtype.now)) marked eof.old) }
{
    let nullable = dtype.is_nullable();
    let validity = fields.validity();
    start_validity(
        alloc, ctx, order, validity, nullable, marked, name, eof, kids,
    )?;
    let below = marked || nullable;
    let columns = fields_in(dtype);
    'fields: for field in columns {
        start_field(alloc, ctx, order, fields, field, below, name, eof, kids)?;
    }
    Ok(())
}

/// A list's task with its columns, whose pointers are split off; the rest of the pointer is given up.
#[cycle(start)]
pub(crate) fn start_lists<O: Order>(
    alloc: Global,
    ctx: &LayoutWriterContext,
    order: &mut O,
    lists: &ListLayoutStrategy,
    node: ListsNode,
    marked: bool,
    name: Path,
    mut eof: SequencePointer,
) -> Result<Task, WriteError>
    requires owned { Owned (O.active order.old) (end_stock eof) }
    requires fresh { node.split ≡ state_at (ty (arc_value node.dtype)) true 0 }
    ensures moved { Moved (O.active order.old) (O.active order.new) (end_stock eof) (ok_stock task_stock result) }
    ensures outlet { O.outlet order.new ≡ O.outlet order.old }
    ensures sink { O.sink order.new ≡ O.sink order.old }
    ensures cause { IfErr result StartMay }
    ensures shows { IfOk result (Started (allowed_in ctx.now) (lists_form lists.now (ty (arc_value node.dtype))) marked name eof) }
    ensures refused { IfErr result (FormRefused (allowed_in ctx.now) (lists_form lists.now (ty (arc_value node.dtype))) marked eof) }
{
    let mut kids = Vec::new(alloc);
    let started = start_parts(
        alloc,
        ctx,
        order,
        lists,
        &node.dtype,
        marked,
        &name,
        &mut eof,
        &mut kids,
    );
    give_up_pointer(order, eof);
    match started {
        Ok(()) => Ok(waiting(alloc, name, Local::Lists(node, 0), kids)),
        Err(error) => {
            drop(node);
            refuse_started(alloc, kids, order);
            Err(error)
        }
    }
}

/// Starts elements, offsets, and the validity where the type is nullable. After an error what was started is in the list.
#[cycle(start)]
fn start_parts<O: Order>(
    alloc: Global,
    ctx: &LayoutWriterContext,
    order: &mut O,
    lists: &ListLayoutStrategy,
    dtype: &DType,
    marked: bool,
    name: &Path,
    eof: &mut SequencePointer,
    kids: &mut Vec<Task>,
) -> Result<(), WriteError>
    requires owned { Owned (O.active order.old) (both (end_stock eof.old) (tasks_stock kids.old.items)) }
    requires list { IsTrue (is_list (ty dtype.now)) }
    ensures moved { Moved (O.active order.old) (O.active order.new) (both (end_stock eof.old) (tasks_stock kids.old.items)) (both (end_stock eof.new) (tasks_stock kids.new.items)) }
    ensures reserved { tasks_reserved kids.new.items ≡ tasks_reserved kids.old.items }
    ensures outlet { O.outlet order.new ≡ O.outlet order.old }
    ensures sink { O.sink order.new ≡ O.sink order.old }
    ensures cause { IfErr result StartMay }
    ensures shows { OnOk result (kids.old.items ≡ [] → AllStarted (allowed_in ctx.now) (lists_form lists.now (ty dtype.now)) marked name.now eof.old kids.new.items) }
    ensures refused { IfErr result (FormRefused (allowed_in ctx.now) (lists_form lists.now (ty dtype.now)) marked eof.old) }
{
    let elements = Arc::new(alloc, element_copy(dtype)?)?;
    let first = &lists.elements;
    start_column(alloc, ctx, order, first, elements, marked, name, eof, kids)?;
    let numbers = DType::Primitive(PType::U64, Nullability::NonNullable);
    let offsets = Arc::new(alloc, numbers)?;
    let second = &lists.offsets;
    start_column(alloc, ctx, order, second, offsets, marked, name, eof, kids)?;
    let nullable = dtype.is_nullable();
    let validity = &lists.validity;
    start_validity(
        alloc, ctx, order, validity, nullable, marked, name, eof, kids,
    )
}

/// Starts the validity, where there is one.
#[cycle(start)]
fn start_validity<O: Order>(
    alloc: Global,
    ctx: &LayoutWriterContext,
    order: &mut O,
    validity: &ChildStrategy,
    nullable: bool,
    marked: bool,
    name: &Path,
    eof: &mut SequencePointer,
    kids: &mut Vec<Task>,
) -> Result<(), WriteError>
    requires owned { Owned (O.active order.old) (both (end_stock eof.old) (tasks_stock kids.old.items)) }
    ensures moved { Moved (O.active order.old) (O.active order.new) (both (end_stock eof.old) (tasks_stock kids.old.items)) (both (end_stock eof.new) (tasks_stock kids.new.items)) }
    ensures reserved { tasks_reserved kids.new.items ≡ tasks_reserved kids.old.items }
    ensures outlet { O.outlet order.new ≡ O.outlet order.old }
    ensures sink { O.sink order.new ≡ O.sink order.old }
    ensures cause { IfErr result StartMay }
    ensures shows { OnOk result (ManyStarted (allowed_in ctx.now) (validity_forms validity.now.item nullable) marked name.now eof.old kids.old.items eof.new kids.new.items) }
    ensures refused { IfErr result (ManyRefused (allowed_in ctx.now) (validity_forms validity.now.item nullable) marked eof.old) }
{
    if !nullable {
        return Ok(());
    }
    let flags = Arc::new(alloc, DType::Bool(Nullability::NonNullable))?;
    start_column(alloc, ctx, order, validity, flags, marked, name, eof, kids)
}

/// Starts a field's column, by the writer of its name.
#[cycle(start)]
fn start_field<O: Order>(
    alloc: Global,
    ctx: &LayoutWriterContext,
    order: &mut O,
    fields: &StructStrategy,
    field: &StructField,
    marked: bool,
    name: &Path,
    eof: &mut SequencePointer,
    kids: &mut Vec<Task>,
) -> Result<(), WriteError>
    requires owned { Owned (O.active order.old) (both (end_stock eof.old) (tasks_stock kids.old.items)) }
    ensures moved { Moved (O.active order.old) (O.active order.new) (both (end_stock eof.old) (tasks_stock kids.old.items)) (both (end_stock eof.new) (tasks_stock kids.new.items)) }
    ensures reserved { tasks_reserved kids.new.items ≡ tasks_reserved kids.old.items }
    ensures outlet { O.outlet order.new ≡ O.outlet order.old }
    ensures sink { O.sink order.new ≡ O.sink order.old }
    ensures cause { IfErr result StartMay }
    ensures shows { OnOk result (OneStarted (allowed_in ctx.now) (field_form fields.now (field_ty field.now)) marked name.now eof.old kids.old.items eof.new kids.new.items) }
    ensures refused { IfErr result (OneRefused (allowed_in ctx.now) (field_form fields.now (field_ty field.now)) marked eof.old) }
{
    let dtype = Arc::new(alloc, field.dtype.clone()?)?;
    let writer = fields.writer(&field.name);
    start_column(alloc, ctx, order, writer, dtype, marked, name, eof, kids)
}

/// Starts one more child.
#[cycle(start)]
fn start_column<O: Order>(
    alloc: Global,
    ctx: &LayoutWriterContext,
    order: &mut O,
    writer: &ChildStrategy,
    dtype: Arc<DType>,
    marked: bool,
    name: &Path,
    eof: &mut SequencePointer,
    kids: &mut Vec<Task>,
) -> Result<(), WriteError>
    requires owned { Owned (O.active order.old) (both (end_stock eof.old) (tasks_stock kids.old.items)) }
    ensures moved { Moved (O.active order.old) (O.active order.new) (both (end_stock eof.old) (tasks_stock kids.old.items)) (both (end_stock eof.new) (tasks_stock kids.new.items)) }
    ensures reserved { tasks_reserved kids.new.items ≡ tasks_reserved kids.old.items }
    ensures outlet { O.outlet order.new ≡ O.outlet order.old }
    ensures sink { O.sink order.new ≡ O.sink order.old }
    ensures cause { IfErr result StartMay }
    ensures shows { OnOk result (OneStarted (allowed_in ctx.now) (form_at writer.now.item (ty (arc_value dtype))) marked name.now eof.old kids.old.items eof.new kids.new.items) }
    ensures refused { IfErr result (OneRefused (allowed_in ctx.now) (form_at writer.now.item (ty (arc_value dtype))) marked eof.old) }
{
    let Ok(name) = next_name(alloc, name, kids) else {
        drop(dtype);
        return Err(WriteError::OutOfMemory);
    };
    let kid = start_under(alloc, ctx, order, writer, dtype, marked, name, eof)?;
    kids.push_reserved(kid);
    Ok(())
}
