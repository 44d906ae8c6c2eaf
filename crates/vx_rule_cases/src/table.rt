//! Tables of cells.

use crate::given::Stream;
use serde_json::Value;
use std::alloc::{AllocError, Global};
use vx_case_lines::Answer;
use vx_case_objects::push_cells;
use vx_chunk_json::read_batch;
use vx_model::{Cell, DType};
use vx_slots::CellTable;

/// The place of each cell, and the cells that are kept.
pub(crate) fn tell(alloc: Global, answer: &mut Answer, stream: Stream) {
    let mut table = CellTable::new(alloc);
    write!(answer, "{}: places", stream.name);
    match push_batches(alloc, answer, &mut table, stream) {
        Ok(()) => push_table(alloc, answer, table),
        Err(error) => {
            drop(table);
            write!(answer, ": {error}\n");
        }
    }
}

fn push_batches(
    alloc: Global,
    answer: &mut Answer,
    table: &mut CellTable,
    stream: Stream,
) -> anyhow::Result<()> {
    for batch in stream.batches {
        push_places(answer, table, cells_of(alloc, stream.dtype, batch)?);
    }
    Ok(())
}

fn cells_of(alloc: Global, dtype: &DType, batch: &Value) -> anyhow::Result<Vec<Cell>> {
    Ok(read_batch(alloc, dtype, batch)?.into_cells(alloc)?)
}

fn push_places(answer: &mut Answer, table: &mut CellTable, cells: Vec<Cell>) {
    for cell in cells {
        answer.push_str(" ");
        answer.push_given(place_of(table, cell));
    }
}

/// The place of the cell, which is pushed where it is new.
fn place_of(table: &mut CellTable, cell: Cell) -> Result<u64, AllocError> {
    match table.find(&cell) {
        Some(place) => {
            drop(cell);
            Ok(place)
        }
        None => {
            let place = table.len();
            table.push(cell)?;
            Ok(place)
        }
    }
}

/// The cells, where both calls give them.
fn push_table(alloc: Global, answer: &mut Answer, table: CellTable) {
    write!(answer, ", {} cells [", table.len());
    let mut kept = Answer::new(alloc);
    push_cells(&mut kept, table.as_slice());
    let mut own = Answer::new(alloc);
    let cells = table.into_cells();
    push_cells(&mut own, &cells);
    drop(cells);
    answer.push_agreed(kept, own);
    answer.push_str("]\n");
}
