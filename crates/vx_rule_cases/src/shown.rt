//! Chunks as text.

ghost use Rattle.std.specs.Prelude.{◌≤◌, length};
ghost use Rattle.vx_model.specs.ChunkData.{cells};

use std::alloc::Global;
use vx_case_lines::Answer;
use vx_case_objects::push_cells;
use vx_chunk::Chunk;

/// The greatest number of rows that are shown one by one.
const MOST: u64 = 20;

/// The encoding, the type and the rows; of many the first, the last and their number.
pub(crate) fn push_chunk(alloc: Global, answer: &mut Answer, chunk: &Chunk) {
    let dtype = chunk.dtype();
    write!(answer, "{} {dtype} [", chunk.encoding().id());
    let rows = chunk.len();
    if rows <= MOST {
        push_rows(alloc, answer, chunk);
        answer.push_str("]");
    } else {
        push_slice(alloc, answer, chunk, 0, 1);
        answer.push_str(" .. ");
        push_slice(alloc, answer, chunk, rows - 1, rows);
        write!(answer, "], {rows} rows");
    }
}

fn push_rows(alloc: Global, answer: &mut Answer, chunk: &Chunk) {
    match chunk.cells(alloc) {
        Ok(cells) => {
            push_cells(answer, &cells);
            drop(cells);
        }
        Err(error) => answer.push(error),
    }
}

fn push_slice(alloc: Global, answer: &mut Answer, chunk: &Chunk, from: u64, to: u64)
    requires order { from ≤ to }
    requires within { to ≤ length (cells chunk.now) }
{
    match chunk.slice(alloc, from, to) {
        Ok(slice) => {
            push_rows(alloc, answer, &slice);
            drop(slice);
        }
        Err(error) => answer.push(error),
    }
}
