//! What the command `write` answers to a job.

ghost use Rattle.std.specs.Prelude.{◌≡◌, ◌+◌, ◌^◌, ◌≤◌, max, false, string_bytes, map, length, Some, IsSome, IfOk, IfErr, MatchResult, option_map};
ghost use Rattle.vx_model.specs.TreeView.{val};
ghost use Rattle.vx_layout_spec.specs.Rows.{rows, all_there};
ghost use Rattle.vx_segment_reader.specs.Codec.{segment_codec};
ghost use Rattle.vx_layout_tree.specs.LayoutView.{layout_data};
ghost use Rattle.vx_plan.specs.Number.{segment_at};
ghost use Rattle.vx_segment_map.specs.SegmentView.{segment_in};
ghost use Rattle.vx_job.specs.JobText.{job};
ghost use Rattle.vx_job.specs.JobView.{ids_view, job_view};
ghost use Rattle.vx_sink.specs.ContextView.{listed, allowed_in, is_marked, counted};
ghost use Rattle.vx_report.specs.Report.{report, refused_report};
ghost use Rattle.vx_report.specs.ZoneText.{zone_tables};
ghost use Rattle.vx_run.specs.declared.status.Status.TheVariants as statuses;
ghost use Rattle.vx_read_chunk.specs.Held.{held_rows};
ghost use Rattle.vx_run.specs.Told.{told_text};
ghost use Rattle.vx_run.specs.RefusalNames.{refusal_name, is_memory};
ghost use Rattle.vx_run.specs.Tables.{TablesThere, table_rows};
ghost use Rattle.vx_run.specs.Answers.{IsText, IsAnswer, JobAnswer, IsWritten, Halts, bad_job};

use crate::status::Status;
use crate::tables::read_tables;
use std::alloc::{AllocError, Global};
use std::cell::Cell;
use vx_job::{Job, JobError, Key, read_job};
use vx_layout_tree::Layout;
use vx_model::{ArrayContext, Blob, Text, Value};
use vx_progress::{CountedSink, Progress, ToldSource};
use vx_read::{ReadError, SegmentMap, read_rows};
use vx_read_chunk::{HeldRows, read_chunk};
use vx_report::{refused_report, report_head};
use vx_sink::{LayoutWriterContext, ListSource, MemorySink};
use vx_table_compressor::TableCompressor;
use vx_write::{Step, WriteError, write_stream};

/// A status, and the text that is printed before it.
#[derive(Debug, Drop)]
pub struct Answer {
    pub status: Status,
    pub text: String,
}

/// An answer, and the rows whose lines are printed behind its text.
#[derive(Drop)]
pub struct RowsAnswer {
    pub answer: Answer,
    pub rows: HeldRows,
}

/// An answer without rows.
#[tactic(auto, using(crate::proofs::RowSteps::bare_rules))]
pub fn without_rows(alloc: Global, answer: Answer) -> RowsAnswer
    ensures status { result.answer.status ≡ answer.status }
    ensures text { told_text result ≡ string_bytes answer.text }
{
    let parts = Vec::new(alloc);
    RowsAnswer {
        answer,
        rows: HeldRows { parts },
    }
}

/// The answer to the bytes of an input.
pub(crate) fn answer_to<P: Progress + Drop>(
    alloc: Global,
    bytes: &[u8],
    progress: P,
) -> Result<RowsAnswer, AllocError>
    ensures { IfOk result (λ a. IsAnswer (job bytes.now) a.answer.status (told_text a)) }
{
    match read_job(alloc, bytes) {
        Ok(job) => write_job(alloc, job, progress),
        Err(JobError::Wrong(key)) => wrong_job(alloc, key),
        Err(JobError::OutOfMemory) => Err(AllocError),
    }
}

/// The answer to bytes that are no job.
#[tactic(auto, using(crate::proofs::RunSteps::text_rules))]
pub fn bad_job(alloc: Global, key: Key) -> Result<Answer, AllocError>
    ensures { IfOk result (λ a. IsText statuses.BadJob (bad_job key) a.status (string_bytes a.text)) }
{
    let mut text = String::from_str(alloc, "bad job at ")?;
    text.push_str(key.name())?;
    text.push_str("\n")?;
    Ok(Answer {
        status: Status::BadJob,
        text,
    })
}

/// The same answer, without rows.
pub fn wrong_job(alloc: Global, key: Key) -> Result<RowsAnswer, AllocError>
    ensures { IfOk result (λ a. IsText statuses.BadJob (bad_job key) a.answer.status (told_text a)) }
{
    let answer = bad_job(alloc, key)?;
    Ok(without_rows(alloc, answer))
}

/// Writes the job's batches, reads their rows from the segments, and reports.
fn write_job<P: Progress + Drop>(
    alloc: Global,
    job: Job,
    progress: P,
) -> Result<RowsAnswer, AllocError>
    ensures { IfOk result (λ a. JobAnswer (job_view job) a.answer.status (told_text a)) }
{
    let first = job.next;
    let appended = Cell::new(0);
    match write_batches(alloc, job, progress, &appended) {
        Ok((layout, segments, steps)) => {
            let answer = written(alloc, first, &layout, segments, &steps);
            drop(layout);
            answer
        }
        Err((error, segments, steps)) => {
            let answer = refusal(alloc, first, &error, &segments, &steps);
            drop(error);
            answer
        }
    }
}

/// Writes the job's batches, and gives the segments that were appended and the steps too. Counts the segments in the cell.
fn write_batches<P: Progress + Drop>(
    alloc: Global,
    job: Job,
    progress: P,
    appended: &Cell<u64>,
) -> Result<(Layout, Vec<Blob>, Vec<Step>), (WriteError, Vec<Blob>, Vec<Step>)>
    ensures ok { IfOk result (λ w. IsWritten (job_view job) (layout_data w.0) w.1.items w.2.items) }
    ensures tables { IfOk result (λ w. TablesThere (segment_at job.next w.1.items) (layout_data w.0)) }
    ensures err { IfErr result (λ r. Halts (job_view job) r.0 r.1.items r.2.items) }
    ensures numbered { MatchResult result (λ w. job.next + length w.1.items ≤ max job.next (2 ^ 32)) (λ r. job.next + length r.1.items ≤ max job.next (2 ^ 32)) }
{
    let mut ctx = context(job.encodings, job.aggregates, job.marked);
    let faults = job.faults;
    let batches = ListSource::new(job.schema, job.batches, faults.source);
    let mut source = ToldSource::new(batches, progress, appended);
    let segments = MemorySink::new(job.next, faults.sink);
    let mut sink = CountedSink::new(segments, appended);
    let mut compressor = TableCompressor::new(faults.compress);
    match write_stream(
        alloc,
        &job.strategy,
        &mut ctx,
        &mut source,
        &mut sink,
        &job.schedule,
        &mut compressor,
    ) {
        Ok(written) => Ok((
            written.layout,
            sink.into_inner().into_segments(),
            written.trace,
        )),
        Err(refused) => Err((
            refused.error,
            sink.into_inner().into_segments(),
            refused.trace,
        )),
    }
}

/// What a job's write may use.
pub fn context(
    encodings: ArrayContext,
    aggregates: Option<Vec<Text>>,
    marked: bool,
) -> LayoutWriterContext
    ensures listed { listed result ≡ encodings }
    ensures allowed { allowed_in result ≡ ids_view aggregates }
    ensures marked { is_marked result ≡ marked }
    ensures counted { counted result ≡ 0 }
{
    let ctx = LayoutWriterContext::new(encodings);
    let ctx = match aggregates {
        Some(ids) => ctx.with_allowed_aggregates(ids),
        None => ctx,
    };
    if marked {
        ctx.with_nullable_ancestor()
    } else {
        ctx
    }
}

/// The report of a write that was refused, unless memory ran out.
fn refusal(
    alloc: Global,
    first: u64,
    error: &WriteError,
    segments: &Vec<Blob>,
    steps: &[Step],
) -> Result<RowsAnswer, AllocError>
    requires { first + length segments.now.items ≤ max first (2 ^ 32) }
    ensures { IfOk result (λ a. (is_memory error.now ≡ false)
        × IsText statuses.Refused (refused_report (refusal_name error.now) first segments.now.items steps.now) a.answer.status (told_text a)) }
{
    let name = refusal_name(error);
    if let WriteError::OutOfMemory = error {
        return Err(AllocError);
    }
    let text = refused_report(alloc, name, first, segments, steps)?;
    let status = Status::Refused;
    Ok(without_rows(alloc, Answer { status, text }))
}

/// The name of the error's variant.
pub fn refusal_name(error: &WriteError) -> &'static str
    ensures { result.now ≡ refusal_name error.now }
{
    match error {
        WriteError::SourceFault => "SourceFault",
        WriteError::SinkFault => "SinkFault",
        WriteError::CompressFault => "CompressFault",
        WriteError::BatchType(_) => "BatchType",
        WriteError::NotStruct => "NotStruct",
        WriteError::DuplicateField(_) => "DuplicateField",
        WriteError::ManyChunks => "ManyChunks",
        WriteError::EmptyList => "EmptyList",
        WriteError::ZoneCut(_) => "ZoneCut",
        WriteError::ForbiddenAggregate(_) => "ForbiddenAggregate",
        WriteError::ForbiddenEncoding(_) => "ForbiddenEncoding",
        WriteError::TooLarge(_) => "TooLarge",
        WriteError::OutOfMemory => "OutOfMemory",
        WriteError::Stopped(_, _) => "Stopped",
    }
}

/// The report of what was written, with the rows that are read back from the segments.
#[tactic(auto, using(crate::proofs::TableSteps::are_tables))]
fn written(
    alloc: Global,
    first: u64,
    layout: &Layout,
    list: Vec<Blob>,
    steps: &[Step],
) -> Result<RowsAnswer, AllocError>
    requires readable { IsSome (rows segment_codec (segment_at first list.items) (layout_data layout.now)) }
    requires numbered { first + length list.items ≤ max first (2 ^ 32) }
    requires tables { TablesThere (segment_at first list.items) (layout_data layout.now) }
    ensures { IfOk result (λ a. (a.answer.status ≡ statuses.Done) × (Some (Some (told_text a))
        ≡ option_map (λ tables. option_map (report first (layout_data layout.now) list.items tables steps.now) (rows segment_codec (segment_at first list.items) (layout_data layout.now)))
        (all_there (table_rows (segment_at first list.items) (zone_tables (layout_data layout.now)))))) }
{
    let segments = numbered(first, list);
    let tables = read_tables(alloc, layout, &segments)?;
    let rows = held_back(alloc, layout, &segments)?;
    let text = report_head(alloc, first, layout, &segments.list, &tables, steps)?;
    let status = Status::Done;
    Ok(RowsAnswer {
        answer: Answer { status, text },
        rows,
    })
}

/// The segments, numbered from the first.
#[tactic(auto, using(crate::proofs::BackSteps::in_map))]
pub fn numbered(first: u64, list: Vec<Blob>) -> SegmentMap
    requires { first + length list.items ≤ max first (2 ^ 32) }
    ensures list { result.list.items ≡ list.items }
    ensures segments { segment_in result ≡ segment_at first list.items }
{
    // Past the last number there is no segment.
    let first = u32::try_from(first).unwrap_or(u32::MAX);
    SegmentMap { first, list }
}

/// The rows that a layout gives from the segments.
pub fn read_back(
    alloc: Global,
    layout: &Layout,
    segments: &SegmentMap,
) -> Result<Vec<Value>, AllocError>
    requires { IsSome (rows segment_codec (segment_in segments.now) (layout_data layout.now)) }
    ensures { IfOk result (λ v. rows segment_codec (segment_in segments.now) (layout_data layout.now) ≡ Some (map val v.items)) }
{
    match read_rows(alloc, layout, segments) {
        Ok(rows) => Ok(rows),
        Err(ReadError::OutOfMemory) => Err(AllocError),
        Err(ReadError::NoSegment(_) | ReadError::BadSegment(_)) => unreachable!(),
        Err(ReadError::Rows { .. } | ReadError::Foreign(_) | ReadError::Layout(_)) =>
            unreachable!(),
    }
}

/// The rows that a layout gives from the segments, as they are held.
pub fn held_back(
    alloc: Global,
    layout: &Layout,
    segments: &SegmentMap,
) -> Result<HeldRows, AllocError>
    requires { IsSome (rows segment_codec (segment_in segments.now) (layout_data layout.now)) }
    ensures { IfOk result (λ h. rows segment_codec (segment_in segments.now) (layout_data layout.now) ≡ Some (held_rows h)) }
{
    match read_chunk(alloc, layout, segments) {
        Ok(rows) => Ok(rows),
        Err(ReadError::OutOfMemory) => Err(AllocError),
        Err(ReadError::NoSegment(_) | ReadError::BadSegment(_)) => unreachable!(),
        Err(ReadError::Rows { .. } | ReadError::Foreign(_) | ReadError::Layout(_)) =>
            unreachable!(),
    }
}
