//! Layouts of many chunks that are read from their bytes.

use crate::layouts::layout_in;
use crate::spelling::reread;
use anyhow::{Result, bail};
use std::alloc::Global;
use vx_case_lines::{Answer, cut, number};
use vx_layout::{Layout, LayoutChildrenWalk};

/// How many rows the first chunks have, of a layout with chunks of one row.
pub(crate) fn tell_opened(alloc: Global, answer: &mut Answer, args: &str) {
    let (count, asked) = cut(args);
    match chunks(alloc, number(count)) {
        Ok(layout) => {
            let read = reread(alloc, &layout);
            drop(layout);
            match read {
                Ok(read) => {
                    answer.push_given(rows_below(&read, number(asked)));
                    drop(read);
                }
                Err(error) => answer.push(error),
            }
        }
        Err(error) => answer.push(error),
    }
}

fn chunks(alloc: Global, count: u64) -> Result<Layout> {
    let mut words = format!(in alloc; "chunked {count}")?;
    for _ in 0..count {
        words.push_str(" u8:1:0")?;
    }
    let layout = layout_in(alloc, words.as_str());
    drop(words);
    layout
}

fn rows_below(layout: &Layout, asked: u64) -> Result<u64> {
    let Layout::Chunked(chunked) = layout else {
        bail!("not chunked");
    };
    let mut rows: u64 = 0;
    for i in 0..asked {
        let child = chunked.children().child(i, layout.dtype())?;
        rows = rows.saturating_add(child.layout().row_count());
    }
    Ok(rows)
}
