//! The write of the generated table.

ghost use Rattle.std.specs.Prelude.{◌≡◌, ◌≤◌, IfOk};
ghost use Rattle.vx_strategy.specs.StrategyView.{strategy_data};
ghost use Rattle.vx_layout_tree.specs.LayoutView.{layout_data};
ghost use Rattle.vx_generator.specs.TableStrategy.{table_strategy};
ghost use Rattle.vx_generator_laws.specs.TableWrite.{most_rows};
ghost use Rattle.vx_run.specs.Summary.{IsWritten};

use std::alloc::{AllocError, Global};
use std::cell::Cell;
use vx_encodings::all_encodings;
use vx_generator::{GeneratedSource, table_strategy};
use vx_layout_tree::Layout;
use vx_model::Blob;
use vx_progress::{CountedSink, Progress, ToldSource};
use vx_sink::{LayoutWriterContext, MemorySink};
use vx_strategy::Strategy;
use vx_table_compressor::TableCompressor;
use vx_write::write_stream;
use vx_write_answer::WriteError;

/// The layout of the table of so many rows, and its segments. The table is valid input, so memory alone is wanted.
pub(crate) fn write_table<P: Progress + Drop>(
    alloc: Global,
    count: u32,
    progress: P,
) -> Result<(Layout, Vec<Blob>), AllocError>
    requires { count ≤ most_rows }
    ensures { IfOk result (λ w. IsWritten count (layout_data w.0) w.1.items) }
{
    let strategy = table_strategy(alloc)?;
    let appended = Cell::new(0);
    let written = write_by(alloc, &strategy, count, progress, &appended);
    drop(strategy);
    written
}

/// Counts the segments in the cell.
fn write_by<P: Progress + Drop>(
    alloc: Global,
    strategy: &Strategy,
    count: u32,
    progress: P,
    appended: &Cell<u64>,
) -> Result<(Layout, Vec<Blob>), AllocError>
    requires few { count ≤ most_rows }
    requires strategy { strategy_data strategy.now ≡ table_strategy }
    ensures { IfOk result (λ w. IsWritten count (layout_data w.0) w.1.items) }
{
    vx_generator_laws::table_is_valid();
    let mut ctx = LayoutWriterContext::new(all_encodings(alloc)?);
    let table = GeneratedSource::new(alloc, count)?;
    let mut source = ToldSource::new(table, progress, appended);
    let segments = MemorySink::new(0, Vec::new(alloc));
    let mut sink = CountedSink::new(segments, appended);
    let mut compressor = TableCompressor::new(Vec::new(alloc));
    match write_stream(
        alloc,
        strategy,
        &mut ctx,
        &mut source,
        &mut sink,
        &[],
        &mut compressor,
    ) {
        Ok(written) => Ok((written.layout, sink.into_inner().into_segments())),
        Err(refused) => match &refused.error {
            WriteError::OutOfMemory => Err(AllocError),
            _ => unreachable!(),
        },
    }
}
