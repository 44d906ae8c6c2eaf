//! What is read of layouts, and why there is nothing.

use crate::jobs::{CHUNKED, FLAT, INTEGERS, Parts, job_of};
use crate::layouts::chunks_of;
use crate::written::{File, file_of};
use anyhow::{Context, Result};
use std::alloc::Global;
use vx_case_lines::{Answer, bytes_of, halves, number};
use vx_encodings::all_encodings;
use vx_layout_tree::{FlatLayout, Layout};
use vx_model::{Blob, DType, SegmentId, Value};
use vx_read::{ReadError, SegmentMap, read_rows};
use vx_report::report;

/// Of the words `rows`, `read` and `parsed`.
pub(crate) fn tell(alloc: Global, answer: &mut Answer, word: &str, given: &str) {
    match file_in(alloc, word, given) {
        Ok(file) => {
            let File { layout, segments } = file;
            let segments = SegmentMap {
                first: if word == "read" { 3 } else { 0 },
                list: segments,
            };
            tell_read(alloc, answer, word, &layout, &segments);
            drop(layout);
            drop(segments);
        }
        Err(error) => answer.push(error),
    }
}

/// What the batch is written as, so many rows of the integers 1 and 2 with bytes behind them, or the layout that the bytes
/// are with the segments that the batches are written to.
fn file_in(alloc: Global, word: &str, given: &str) -> Result<File> {
    let (of, rest) = halves(given);
    match word {
        "rows" => file_of(alloc, Parts::new(of, FLAT, rest)),
        "read" => laid(alloc, of, rest),
        _ => {
            let file = file_of(alloc, Parts::new(INTEGERS, CHUNKED, rest))?;
            with_layout(file, chunks_of(alloc, of))
        }
    }
}

/// The same segments below another layout.
fn with_layout(file: File, layout: Result<Layout>) -> Result<File> {
    match layout {
        Ok(layout) => Ok(File { layout, ..file }),
        Err(error) => {
            drop(file);
            Err(error)
        }
    }
}

fn laid(alloc: Global, of: &str, rest: &str) -> Result<File> {
    let (rows, rest) = halves(rest);
    let (segment, behind) = halves(rest);
    let parts = Parts {
        next: "3",
        ..Parts::new(INTEGERS, FLAT, "[1, 2]")
    };
    let mut file = file_of(alloc, parts)?;
    match extend(alloc, &mut file.segments, behind) {
        Ok(()) => with_layout(file, flat(alloc, of, number(rows), segment)),
        Err(error) => {
            drop(file);
            Err(error)
        }
    }
}

/// The bytes (`-`: none) come behind those of the last segment.
fn extend(alloc: Global, segments: &mut Vec<Blob>, digits: &str) -> Result<()> {
    let mut behind = bytes_of(alloc, digits.strip_prefix('-').unwrap_or(digits))?;
    let last = segments.pop().context("no segment")?;
    let mut bytes = Vec::from_slice(alloc, last.as_slice())?;
    bytes.append(&mut behind)?;
    segments.push(Blob::from(bytes))?;
    Ok(())
}

/// So many rows of the type in the segment of this number.
fn flat(alloc: Global, of: &str, rows: u64, number: &str) -> Result<Layout> {
    let number = number.parse::<u32>()?;
    let ctx = all_encodings(alloc)?;
    let dtype = dtype_of(alloc, of)?;
    Ok(Layout::Flat(FlatLayout::new(rows, dtype, SegmentId(number), ctx)))
}

fn dtype_of(alloc: Global, of: &str) -> Result<DType> {
    Ok(job_of(alloc, Parts::new(of, FLAT, ""))?.schema)
}

/// What the word asks of the rows that are read, or why there are none.
fn tell_read(
    alloc: Global,
    answer: &mut Answer,
    word: &str,
    layout: &Layout,
    segments: &SegmentMap,
) {
    match read_rows(alloc, layout, segments) {
        Ok(rows) => {
            match word {
                "rows" => push_report(alloc, answer, layout, &rows),
                "read" => write!(answer, "{} rows", rows.len()),
                _ => answer.push_debug(&rows),
            }
            drop(rows);
        }
        Err(error) => push_fault(answer, error),
    }
}

pub(crate) fn push_fault(answer: &mut Answer, error: ReadError) {
    answer.push_debug(&error);
    drop(error);
}

/// The report of the rows of a flat layout, in a line.
#[tactic(auto, unfolding(vx_layout_tree::specs::LayoutView::layout_data))]
fn push_report(alloc: Global, answer: &mut Answer, layout: &Layout, rows: &[Value]) {
    match layout {
        Layout::Flat(_) => match report(alloc, 0, layout, &[], &[], &[], rows) {
            Ok(text) => {
                for line in text.lines() {
                    answer.push_str(line);
                    answer.push_str("|");
                }
                drop(text);
            }
            Err(error) => answer.push(error),
        },
        _ => answer.push_str("no flat layout"),
    }
}
