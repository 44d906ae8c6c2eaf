//! The statistics of a file.

use crate::calls::{calls_of, fails_in};
use std::alloc::{AllocError, Global};
use vx_aggregate::Stat;
use vx_case_lines::{Answer, cut, number};
use vx_case_objects::{Case, list_in, push_value, stats_of};
use vx_chunk_json::read_batches;
use vx_file_stats::{Precision, StatsSet, StatsSource, accumulate_stats};
use vx_model::{DType, Value};
use vx_sink::{BatchSource, ListSource};

/// A line a call of the source, and a line a set.
pub(crate) fn tell(alloc: Global, answer: &mut Answer, case: Case) {
    match source_in(alloc, case) {
        Ok(source) => tell_source(alloc, answer, case, source),
        Err(error) => answer.push_refusal(case.name, error),
    }
}

fn source_in(alloc: Global, case: Case) -> anyhow::Result<ListSource> {
    let values = list_in(case.object, "batches")?;
    let batches = read_batches(alloc, case.dtype, values)?;
    match parts_in(alloc, case) {
        Ok((dtype, fails)) => Ok(ListSource::new(dtype, batches, fails)),
        Err(error) => {
            drop(batches);
            Err(error.into())
        }
    }
}

fn parts_in(alloc: Global, case: Case) -> Result<(DType, Vec<u64>), AllocError> {
    let fails = fails_in(alloc, case.object)?;
    Ok((case.dtype.clone()?, fails))
}

fn tell_source(alloc: Global, answer: &mut Answer, case: Case, source: ListSource) {
    let (limit, names) = cut(case.given);
    match stats_of(alloc, names) {
        Ok(stats) => tell_file(alloc, answer, case, source, stats, number(limit)),
        Err(error) => {
            drop(source);
            answer.push_refusal(case.name, error);
        }
    }
}

fn tell_file(
    alloc: Global,
    answer: &mut Answer,
    case: Case,
    source: ListSource,
    stats: Vec<Stat>,
    limit: u64,
) {
    match accumulate_stats(alloc, source, stats, limit) {
        Ok(source) => tell_wrapped(answer, case.name, source, calls_of(case.object)),
        Err((error, source)) => {
            drop(source);
            answer.push_refusal(case.name, error);
        }
    }
}

fn tell_wrapped(
    answer: &mut Answer,
    name: &str,
    mut source: StatsSource<ListSource>,
    calls: usize,
) {
    tell_calls(answer, name, &mut source, calls);
    let (gathered, source) = source.finish();
    drop(source);
    match gathered.stats_sets() {
        Ok(sets) => {
            tell_sets(answer, name, &sets);
            drop(sets);
        }
        Err(error) => answer.push_refusal(name, error),
    }
}

fn tell_calls<B: BatchSource>(answer: &mut Answer, name: &str, source: &mut B, calls: usize) {
    for i in 0..calls {
        match source.next() {
            Ok(Some(batch)) => {
                write!(answer, "{name} {i}: {} rows\n", batch.len());
                drop(batch);
            }
            Ok(None) => {}
            Err(error) => write!(answer, "{name} {i}: {error}\n"),
        }
    }
}

fn tell_sets(answer: &mut Answer, name: &str, sets: &[StatsSet]) {
    for i in 0..sets.len() {
        write!(answer, "{name} set {i}:");
        push_set(answer, &sets[i]);
        answer.push_str("\n");
    }
}

/// What is known of the statistics, those that are absent left out.
fn push_set(answer: &mut Answer, set: &StatsSet) {
    let mut comma = "";
    for stat in Stat::ALL {
        match set.get(stat) {
            Precision::Exact(value) => {
                push_stat(answer, comma, stat, "exact", value);
                comma = ",";
            }
            Precision::Inexact(value) => {
                push_stat(answer, comma, stat, "inexact", value);
                comma = ",";
            }
            Precision::Absent => {}
        }
    }
    if comma.is_empty() {
        answer.push_str(" nothing");
    }
}

fn push_stat(answer: &mut Answer, comma: &str, stat: Stat, how: &str, value: &Value) {
    write!(answer, "{comma} {} {how} ", stat.name());
    push_value(answer, value);
}
