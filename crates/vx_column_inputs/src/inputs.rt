//! What the workers are given: a column of all batches each.

ghost use Rattle.std.specs.Prelude.{◌≡◌, ◌∷◌, [], List, map, vec_len, None, Some, true, false, IfOk, IfErr, OnOk};
ghost use Rattle.std.specs.List.{range_with_len};
ghost use Rattle.vx_model.specs.TyView.{ty};
ghost use Rattle.vx_model.specs.ChunkData.{ChunkData};
ghost use Rattle.vx_strategy_spec.specs.Walk.{duplicate};
ghost use Rattle.vx_chunk_cells.specs.Parts.{struct_fields};
ghost use Rattle.vx_strategy.specs.NodeViews.{struct_way};
ghost use Rattle.vx_plan.specs.Valid.{OfSchema, AllOf};
ghost use Rattle.vx_sink.specs.ContextView.{is_marked, allowed_in, listed, counted};
ghost use Rattle.vx_column_ways.specs.Ways.{column_of, columns_in};
ghost use Rattle.vx_column_ways.specs.ColumnCount.{columns_of};
ghost use Rattle.vx_column_inputs.specs.Reading.{SourceTold};
ghost use Rattle.vx_column_inputs.specs.Prepared.{IsInput, AreInputs, FitColumns, AreOwnInputs, ArePrepared, NamesStop, SplitStops, PrepareStops};

use crate::reading::{read_all, row_total};
use std::alloc::{AllocError, Global};
use vx_chunk::Chunk;
use vx_column_batches::split_all;
use vx_column_ways::{ColumnWay, column_ways};
use vx_fault::Fallible;
use vx_model::DType;
use vx_path::owned::Path;
use vx_sink::{BatchSource, LayoutWriterContext, ListSource};
use vx_strategy::StructStrategy;
use vx_write_answer::WriteError;

/// What a column's worker reads, and by what it is written.
#[derive(Drop)]
pub struct Input {
    pub way: ColumnWay,
    pub source: ListSource,
    pub ctx: LayoutWriterContext,
}

/// What the workers are given.
#[derive(Drop)]
pub struct Columns {
    pub dtype: DType,
    pub rows: u64,
    pub batches: usize,
    pub fronts: Vec<Path>,
    pub inputs: Vec<Input>,
}

/// Reads the source to its end and splits its batches into as many columns as the strategy writes of its type. Two fields of
/// one name are refused before rows that are too many.
pub fn prepared<B: BatchSource>(
    alloc: Global,
    fields: &StructStrategy,
    ctx: &LayoutWriterContext,
    source: &mut B,
    count: usize,
) -> Result<Columns, WriteError>
    requires { columns_of (B.kind source.old) ≡ Some count }
    ensures kind { B.kind source.new ≡ B.kind source.old }
    ensures read { IfOk result (λ c. (taken : List ChunkData)
        × SourceTold (B.faults source.old) (B.faults source.new) (B.may_fail source.old) (B.must_fail source.old) (B.to_come source.old) (B.to_come source.new) taken true false
        × ArePrepared (listed ctx.now) (allowed_in ctx.now) ⟦<ListSource as BatchSource>⟧.kind ⟦<ListSource as Fallible>⟧.may_fail ⟦<ListSource as BatchSource>⟧.to_come ⟦<ListSource as BatchSource>⟧.left
        (B.kind source.old) taken (columns_in (struct_way fields.now) (B.kind source.old) (is_marked ctx.now)) count c) }
    ensures refused { IfErr result (PrepareStops (B.kind source.old) (B.faults source.old) (B.faults source.new) (B.may_fail source.old) (B.must_fail source.old)
        (B.to_come source.old) (B.to_come source.new)) }
{
    let dtype = source.dtype().clone()?;
    let batches = read_all(alloc, source)?;
    let columns = split_up(alloc, fields, ctx, dtype, batches, count)?;
    Ok(columns)
}

/// The columns of these batches.
fn split_up(
    alloc: Global,
    fields: &StructStrategy,
    ctx: &LayoutWriterContext,
    dtype: DType,
    batches: Vec<Chunk>,
    count: usize,
) -> Result<Columns, WriteError>
    requires count { columns_of (ty dtype) ≡ Some count }
    requires typed { OfSchema (ty dtype) batches.items }
    requires whole { AllOf (ty dtype) batches.items }
    ensures split { IfOk result (ArePrepared (listed ctx.now) (allowed_in ctx.now) ⟦<ListSource as BatchSource>⟧.kind ⟦<ListSource as Fallible>⟧.may_fail ⟦<ListSource as BatchSource>⟧.to_come ⟦<ListSource as BatchSource>⟧.left
        (ty dtype) batches.items (columns_in (struct_way fields.now) (ty dtype) (is_marked ctx.now)) count) }
    ensures refused { IfErr result (SplitStops (ty dtype) batches.items) }
{
    let rows = row_total(batches.as_slice());
    let taken = batches.len();
    let inputs = all_inputs(alloc, fields, ctx, &dtype, batches, count)?;
    let rows = match rows {
        Ok(rows) => rows,
        Err(total) => return Err(WriteError::TooLarge(total)),
    };
    let fronts = fronts(alloc, count)?;
    Ok(Columns {
        dtype,
        rows,
        batches: taken,
        fronts,
        inputs,
    })
}

/// A source and a context a column.
fn all_inputs(
    alloc: Global,
    fields: &StructStrategy,
    ctx: &LayoutWriterContext,
    dtype: &DType,
    batches: Vec<Chunk>,
    count: usize,
) -> Result<Vec<Input>, WriteError>
    requires count { columns_of (ty dtype.now) ≡ Some count }
    requires whole { AllOf (ty dtype.now) batches.items }
    ensures made { IfOk result (λ v. AreInputs (listed ctx.now) (allowed_in ctx.now) ⟦<ListSource as BatchSource>⟧.kind ⟦<ListSource as Fallible>⟧.may_fail ⟦<ListSource as BatchSource>⟧.to_come ⟦<ListSource as BatchSource>⟧.left
        (ty dtype.now) batches.items 0 (columns_in (struct_way fields.now) (ty dtype.now) (is_marked ctx.now)) v.items) }
    ensures count { IfOk result (λ v. vec_len v ≡ count) }
    ensures distinct { OnOk result (duplicate (struct_fields (ty dtype.now)) ≡ None) }
    ensures refused { IfErr result (NamesStop (ty dtype.now)) }
{
    let split = split_all(alloc, dtype, batches, count)?;
    let ways = column_ways(alloc, fields, dtype, ctx.has_nullable_ancestor())?;
    let inputs = inputs(alloc, ctx, ways, split)?;
    Ok(inputs)
}

/// The paths of the columns' first batches: before its first step a column has no path below that.
fn fronts(alloc: Global, count: usize) -> Result<Vec<Path>, AllocError>
    ensures { IfOk result (λ v. v.items ≡ map (λ k. 0 ∷ 0 ∷ k ∷ []) (range_with_len 0 count)) }
{
    let mut fronts = Vec::with_capacity(alloc, count)?;
    for k in 0..count {
        fronts.push(Path::from_slice(alloc, &[0, 0, k as u64])?)?;
    }
    Ok(fronts)
}

/// Each column's chunks by its way.
fn inputs(
    alloc: Global,
    ctx: &LayoutWriterContext,
    ways: Vec<ColumnWay>,
    split: Vec<Vec<Chunk>>,
) -> Result<Vec<Input>, AllocError>
    requires { FitColumns (is_marked ctx.now) (map column_of ways.items) (map (λ c. c.items) split.items) }
    ensures { IfOk result (λ v. AreOwnInputs (listed ctx.now) (allowed_in ctx.now) ⟦<ListSource as BatchSource>⟧.kind ⟦<ListSource as Fallible>⟧.may_fail ⟦<ListSource as BatchSource>⟧.to_come ⟦<ListSource as BatchSource>⟧.left
        (map column_of ways.items) (map (λ c. c.items) split.items) v.items) }
{
    let mut inputs = Vec::with_capacity(alloc, ways.len())?;
    let mut ways = ways.into_iter();
    'columns: for chunks in split {
        match ways.next() {
            Some(way) => inputs.push(own_input(alloc, ctx, way, chunks)?)?,
            // There is a way for each column.
            None => unreachable!(),
        }
    }
    Ok(inputs)
}

/// A source that never fails, and a context that counts for itself.
fn own_input(
    alloc: Global,
    ctx: &LayoutWriterContext,
    way: ColumnWay,
    chunks: Vec<Chunk>,
) -> Result<Input, AllocError>
    requires typed { OfSchema (ty way.dtype) chunks.items }
    requires marked { is_marked ctx.now ≡ true → way.marked ≡ true }
    ensures { IfOk result (λ i. IsInput (listed ctx.now) (allowed_in ctx.now) (column_of way) chunks.items i
        (⟦<ListSource as BatchSource>⟧.kind i.source) (⟦<ListSource as Fallible>⟧.may_fail i.source) (⟦<ListSource as BatchSource>⟧.to_come i.source) (⟦<ListSource as BatchSource>⟧.left i.source)) }
{
    let ctx = own_context(ctx, way.marked)?;
    let source = ListSource::new(way.dtype.clone()?, chunks, Vec::new(alloc));
    Ok(Input { way, source, ctx })
}

/// It is marked where the write's is, or where a nullable struct stands above the column.
fn own_context(ctx: &LayoutWriterContext, marked: bool) -> Result<LayoutWriterContext, AllocError>
    requires { is_marked ctx.now ≡ true → marked ≡ true }
    ensures listed { IfOk result (λ c. listed c ≡ listed ctx.now) }
    ensures allowed { IfOk result (λ c. allowed_in c ≡ allowed_in ctx.now) }
    ensures marked { IfOk result (λ c. is_marked c ≡ marked) }
    ensures none { IfOk result (λ c. counted c ≡ 0) }
{
    let own = ctx.for_worker()?;
    if !marked {
        return Ok(own);
    }
    Ok(own.with_nullable_ancestor())
}
