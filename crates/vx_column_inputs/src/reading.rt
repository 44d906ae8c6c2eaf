//! A source's batches, all of them, and their rows.

ghost use Rattle.std.specs.Prelude.{◌≡◌, ◌<◌, ◌≤◌, ◌+◌, ◌^◌, true, false, IfOk, IfErr, MatchResult, IsSome};
ghost use Rattle.vx_plan.specs.PlanData.{row_total};
ghost use Rattle.vx_plan.specs.SourcePlan.{batch_items};
ghost use Rattle.vx_plan.specs.Valid.{OfSchema, AllOf};
ghost use Rattle.vx_column_inputs.specs.Reading.{SourceTold, NextTold, ReadStops, IsRowsPast};

use std::alloc::Global;
use vx_chunk::Chunk;
use vx_machine_nodes::has_type;
use vx_sink::BatchSource;
use vx_write_answer::WriteError;

/// All batches, each of the source's type.
pub(crate) fn read_all<B: BatchSource>(
    alloc: Global,
    source: &mut B,
) -> Result<Vec<Chunk>, WriteError>
    ensures kind { B.kind source.new ≡ B.kind source.old }
    ensures read { IfOk result (λ v. SourceTold (B.faults source.old) (B.faults source.new) (B.may_fail source.old) (B.must_fail source.old)
        (B.to_come source.old) (B.to_come source.new) v.items true false) }
    ensures typed { IfOk result (λ v. OfSchema (B.kind source.old) v.items) }
    ensures whole { IfOk result (λ v. AllOf (B.kind source.old) v.items) }
    ensures refused { IfErr result (ReadStops (B.kind source.old) (B.faults source.old) (B.faults source.new) (B.may_fail source.old) (B.must_fail source.old)
        (B.to_come source.old) (B.to_come source.new)) }
{
    let mut batches = Vec::new(alloc);
    'batches: while let Some(batch) = next_of_type(source)? {
        batches.push(batch)?;
    }
    Ok(batches)
}

/// The next batch; refused where it isn't of the source's type.
fn next_of_type<B: BatchSource>(source: &mut B) -> Result<Option<Chunk>, WriteError>
    ensures kind { B.kind source.new ≡ B.kind source.old }
    ensures fewer { IfOk result (λ o. IsSome o → B.left source.new < B.left source.old) }
    ensures told { NextTold (B.kind source.old) (B.faults source.old) (B.faults source.new) (B.may_fail source.old) (B.may_fail source.new)
        (B.must_fail source.old) (B.must_fail source.new) (B.to_come source.old) (B.to_come source.new) result }
{
    let Some(batch) = source.next()? else {
        return Ok(None);
    };
    if !has_type(&batch, source.dtype()) {
        return Err(WriteError::BatchType(batch));
    }
    batch.whole();
    Ok(Some(batch))
}

/// The rows of all batches, or the first total that doesn't fit.
pub(crate) fn row_total(batches: &[Chunk]) -> Result<u64, u128>
    ensures total { IfOk result (λ n. n ≡ row_total (batch_items 0 batches.now)) }
    ensures past { IfErr result (λ n. IsRowsPast batches.now n) }
{
    let mut rows = 0u64;
    for batch in batches {
        rows = add(rows, batch.len())?;
    }
    Ok(rows)
}

/// The sum, or what it would be.
fn add(rows: u64, more: u64) -> Result<u64, u128>
    ensures { MatchResult result (λ n. n ≡ rows + more) (λ n. (n ≡ rows + more) × (2 ^ 64 ≤ n)) }
{
    let total = u128::from(rows) + u128::from(more);
    match u64::try_from(total) {
        Ok(total) => Ok(total),
        Err(_) => Err(total),
    }
}
