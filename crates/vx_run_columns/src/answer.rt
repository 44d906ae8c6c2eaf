//! What the command answers to a job.

ghost use Rattle.std.specs.Prelude.{◌≡◌, ◌+◌, ◌^◌, ◌<◌, ◌≤◌, ℕ, max, false, length, vec_len, All, Some, IsSome, IfOk, IfErr, MatchResult, option_map};
ghost use Rattle.vx_model.specs.TyView.{ty};
ghost use Rattle.vx_layout_spec.specs.Rows.{rows, all_there};
ghost use Rattle.vx_segment_reader.specs.Codec.{segment_codec};
ghost use Rattle.vx_layout_tree.specs.LayoutView.{layout_data};
ghost use Rattle.vx_plan.specs.Number.{segment_at};
ghost use Rattle.vx_strategy.specs.StrategyView.{strategy_data};
ghost use Rattle.vx_job.specs.JobText.{job};
ghost use Rattle.vx_job.specs.JobView.{job_view};
ghost use Rattle.vx_report.specs.Report.{columns_report, refused_columns};
ghost use Rattle.vx_report.specs.ZoneText.{zone_tables};
ghost use Rattle.vx_write_columns.specs.ColumnCount.{column_count};
ghost use Rattle.vx_run.specs.declared.status.Status.TheVariants as statuses;
ghost use Rattle.vx_run.specs.Answers.{IsText};
ghost use Rattle.vx_run.specs.Told.{told_text};
ghost use Rattle.vx_run.specs.RefusalNames.{refusal_name, is_memory};
ghost use Rattle.vx_run.specs.Tables.{TablesThere, table_rows};
ghost use Rattle.vx_run_columns.specs.BesideAnswers.{IsAnswerBeside, JobAnswerBeside, IsWrittenBeside, HaltsBeside};
ghost use Rattle.vx_run_columns.specs.Compressors.{FailsBy};

use std::alloc::{AllocError, Global};
use std::sync::Wait;
use std::thread::Threads;
use vx_fault::Fallible;
use vx_gate::Gate;
use vx_job::{Job, JobError, Key, read_job};
use vx_layout_tree::Layout;
use vx_model::{Blob, DType};
use vx_report::{columns_head, refused_columns};
use vx_run::{
    Answer, RowsAnswer, Status, context, held_back, numbered, read_tables, refusal_name,
    without_rows, wrong_job,
};
use vx_sink::{ListSource, MemorySink};
use vx_strategy::Strategy;
use vx_table_compressor::TableCompressor;
use vx_write_answer::WriteError;
use vx_write_columns::{column_count, write_columns};

/// The answer to the bytes of an input.
pub(crate) fn columns_answer<G: Gate + Sync, R: Threads + Wait + Sync>(
    rt: &R,
    alloc: Global,
    bytes: &[u8],
    gate: &G,
) -> Result<RowsAnswer, AllocError>
    ensures { IfOk result (λ a. IsAnswerBeside (job bytes.now) a.answer.status (told_text a)) }
{
    match read_job(alloc, bytes) {
        Ok(job) => write_job(rt, alloc, job, gate),
        Err(JobError::Wrong(key)) => wrong_job(alloc, key),
        Err(JobError::OutOfMemory) => Err(AllocError),
    }
}

/// Writes the job's batches where it has columns.
fn write_job<G: Gate + Sync, R: Threads + Wait + Sync>(
    rt: &R,
    alloc: Global,
    job: Job,
    gate: &G,
) -> Result<RowsAnswer, AllocError>
    ensures { IfOk result (λ a. JobAnswerBeside (job_view job) a.answer.status (told_text a)) }
{
    let count = columns_of(&job.strategy, &job.schema);
    if count == 0 {
        return wrong_job(alloc, Key::Strategy);
    }
    match compressors(alloc, count as usize, &job.faults.compress) {
        Ok(compressors) => write_by(rt, alloc, job, compressors, gate),
        Err(error) => Err(error),
    }
}

/// The number of columns, 0 where there are none.
fn columns_of(strategy: &Strategy, schema: &DType) -> u64
    ensures some { 0 < result → column_count (strategy_data strategy.now) (ty schema.now) ≡ Some result }
    ensures none { (n : ℕ) → 0 < n → column_count (strategy_data strategy.now) (ty schema.now) ≡ Some n → result ≡ n }
{
    column_count(strategy, schema).unwrap_or(0)
}

/// One a column, each of which fails at the calls of the list.
fn compressors(
    alloc: Global,
    count: usize,
    fail: &[u64],
) -> Result<Vec<TableCompressor>, AllocError>
    ensures count { IfOk result (λ v. vec_len v ≡ count) }
    ensures fail { IfOk result (λ v. All (λ c. FailsBy fail.now (⟦<TableCompressor as Fallible>⟧.faults c) (⟦<TableCompressor as Fallible>⟧.may_fail c)) v.items) }
{
    let mut compressors = Vec::with_capacity(alloc, count)?;
    for _c in 0..count {
        compressors.push(compressor(alloc, fail)?)?;
    }
    Ok(compressors)
}

fn compressor(alloc: Global, fail: &[u64]) -> Result<TableCompressor, AllocError>
    ensures { IfOk result (λ c. FailsBy fail.now (⟦<TableCompressor as Fallible>⟧.faults c) (⟦<TableCompressor as Fallible>⟧.may_fail c)) }
{
    let fail = Vec::from_slice(alloc, fail)?;
    Ok(TableCompressor::new(fail))
}

/// Writes the job's batches column by column, reads their rows from the segments, and reports.
fn write_by<G: Gate + Sync, R: Threads + Wait + Sync>(
    rt: &R,
    alloc: Global,
    job: Job,
    compressors: Vec<TableCompressor>,
    gate: &G,
) -> Result<RowsAnswer, AllocError>
    requires columns { column_count (strategy_data job.strategy) (ty job.schema) ≡ Some (vec_len compressors) }
    requires some { 0 < vec_len compressors }
    requires fail { All (λ c. FailsBy job.faults.compress.items (⟦<TableCompressor as Fallible>⟧.faults c) (⟦<TableCompressor as Fallible>⟧.may_fail c)) compressors.items }
    ensures { IfOk result (λ a. JobAnswerBeside (job_view job) a.answer.status (told_text a)) }
{
    let first = job.next;
    match write_batches(rt, alloc, job, compressors, gate) {
        Ok((layout, segments)) => {
            let answer = written(alloc, first, &layout, segments);
            drop(layout);
            answer
        }
        Err((error, segments)) => {
            let answer = refusal(alloc, first, &error, &segments);
            drop(error);
            answer
        }
    }
}

/// Writes the job's batches, and gives the segments that were appended too.
fn write_batches<G: Gate + Sync, R: Threads + Wait + Sync>(
    rt: &R,
    alloc: Global,
    job: Job,
    compressors: Vec<TableCompressor>,
    gate: &G,
) -> Result<(Layout, Vec<Blob>), (WriteError, Vec<Blob>)>
    requires columns { column_count (strategy_data job.strategy) (ty job.schema) ≡ Some (vec_len compressors) }
    requires some { 0 < vec_len compressors }
    requires fail { All (λ c. FailsBy job.faults.compress.items (⟦<TableCompressor as Fallible>⟧.faults c) (⟦<TableCompressor as Fallible>⟧.may_fail c)) compressors.items }
    ensures ok { IfOk result (λ w. IsWrittenBeside (job_view job) (layout_data w.0) w.1.items) }
    ensures err { IfErr result (λ r. HaltsBeside (job_view job) r.0 r.1.items) }
    ensures numbered { MatchResult result (λ w. job.next + length w.1.items ≤ max job.next (2 ^ 32)) (λ r. job.next + length r.1.items ≤ max job.next (2 ^ 32)) }
{
    let mut ctx = context(job.encodings, job.aggregates, job.marked);
    let faults = job.faults;
    let mut source = ListSource::new(job.schema, job.batches, faults.source);
    let sink = MemorySink::new(job.next, faults.sink);
    match write_columns(
        rt,
        alloc,
        &job.strategy,
        &mut ctx,
        &mut source,
        sink,
        compressors,
        gate,
    ) {
        Ok((layout, sink, _compressors)) => Ok((layout, sink.into_segments())),
        Err((error, sink, _compressors)) => Err((error, sink.into_segments())),
    }
}

/// The report of what was written, with the rows that are read back from the segments.
#[tactic(auto, using(vx_run::proofs::TableSteps::are_tables))]
fn written(
    alloc: Global,
    first: u64,
    layout: &Layout,
    list: Vec<Blob>,
) -> Result<RowsAnswer, AllocError>
    requires readable { IsSome (rows segment_codec (segment_at first list.items) (layout_data layout.now)) }
    requires numbered { first + length list.items ≤ max first (2 ^ 32) }
    requires tables { TablesThere (segment_at first list.items) (layout_data layout.now) }
    ensures { IfOk result (λ a. (a.answer.status ≡ statuses.Done) × (Some (Some (told_text a))
        ≡ option_map (λ tables. option_map (columns_report first (layout_data layout.now) list.items tables) (rows segment_codec (segment_at first list.items) (layout_data layout.now)))
        (all_there (table_rows (segment_at first list.items) (zone_tables (layout_data layout.now)))))) }
{
    let segments = numbered(first, list);
    let tables = read_tables(alloc, layout, &segments)?;
    let rows = held_back(alloc, layout, &segments)?;
    let text = columns_head(alloc, first, layout, &segments.list, &tables)?;
    let status = Status::Done;
    Ok(RowsAnswer {
        answer: Answer { status, text },
        rows,
    })
}

/// The report of a write that was refused, unless memory ran out.
fn refusal(
    alloc: Global,
    first: u64,
    error: &WriteError,
    segments: &Vec<Blob>,
) -> Result<RowsAnswer, AllocError>
    requires { first + length segments.now.items ≤ max first (2 ^ 32) }
    ensures { IfOk result (λ a. (is_memory error.now ≡ false)
        × IsText statuses.Refused (refused_columns (refusal_name error.now) first segments.now.items) a.answer.status (told_text a)) }
{
    let name = refusal_name(error);
    if let WriteError::OutOfMemory = error {
        return Err(AllocError);
    }
    let text = refused_columns(alloc, name, first, segments)?;
    let status = Status::Refused;
    Ok(without_rows(alloc, Answer { status, text }))
}
