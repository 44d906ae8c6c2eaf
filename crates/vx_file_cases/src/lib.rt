//! Answers cases: what is written to and read from segments and bytes in memory.
//!
//! A case is a line `NAME WORD GIVEN`, and its answer a line `NAME: ANSWER`. Parts of what is given stand between ` / `.
//! Types, batches, strategies and jobs are those of the program's `write` and `tree`, and bytes are hex text. Cases of
//! files:
//!
//! | word | given | answer |
//! |---|---|---|
//! | `rows` | a type, a batch | the report of the rows that are read from what the batch is written as; `|` ends a line of it |
//! | `read` | a type, a number of rows, a segment's number, bytes (`-`: none) | how many rows are read of the segment of this number; the segment 3 is that of the integers 1 and 2 with the bytes behind it, and there is no other |
//! | `columns` | a strategy, a type | how many columns the strategy writes side by side |
//! | `spelled` | batches of integers | the bytes of the layout that they are written as, in chunks |
//! | `parsed` | the bytes of a layout, batches of integers | the rows of the layout, read from the segments that the batches are written to |
//! | `fails` | `source` or `sink`, and the number of its call that fails, from 0 | how a write of two batches ends, how many segments are in the sink, and how many batches are left in the source |
//! | `counted` | bytes that are counted at first, the calls of source and sink that fail (`-`: none), a strategy, batches of integers | how the write ends, behind how many steps, and how many bytes are counted then |
//! | `stepped` | a strategy, batches of integers | of a write whose machine is stepped by hand, how many steps it took, and how many rows and segments are written |
//! | `handed` | a strategy, batches of integers | the same of one whose batches get ids that were made before its start |
//!
//! Cases of bytes:
//!
//! | word | given | answer |
//! |---|---|---|
//! | `written` | bytes that are counted at first, a job | how its write ends, behind how many steps, the bytes of the layout, how many bytes are counted then, and the segments that stand; all encodings may be used |
//! | `layout` | a job of a layout's bytes | the bytes that the layout is spelled as, or why the bytes are none |
//! | `parsed` | the same, and behind ` / ` each segment from 0 on | the rows of the layout, read from the segments, or why there are none |
#![tactic(auto)]

mod case;
mod fails;
mod jobs;
mod layouts;
mod own_objects;
mod reading;
mod steps;
mod trees;
mod written;

pub use case::{tell_bytes, tell_file};
