//! How the generated table is written.

ghost use Rattle.std.specs.Prelude.{◌≡◌, IfOk};
ghost use Rattle.vx_strategy.specs.StrategyView.{strategy_data};
ghost use Rattle.vx_generator.specs.TableStrategy.{one_segment, segments, coded_blocks, zoned_blocks, column_blocks, table_strategy};

use std::alloc::{AllocError, Global};
use vx_strategy::{
    BufferedStrategy, ChunkedLayoutStrategy, CompressingStrategy, DictStrategy, FlatLayoutStrategy,
    RepartitionStrategy, Strategy, TableStrategy, ZonedStrategy,
};
use vx_strategy_options::{
    BuildError, DictLayoutOptions, RepartitionWriterOptions, ZonedLayoutOptions,
};

/// A buffer holds so many bytes back.
const BUFFER: u64 = 1_048_576;

/// A block has the rows of a zone.
const BLOCK_ROWS: u64 = 8192;

/// The compressor's number, for images and for probes.
const WHICH: u32 = 1;

/// The strategy of the generated table: each column in blocks of 8,192 rows, each block a zone, the rows as runs of
/// dictionaries where the first block's image is a dictionary. It refuses only for want of memory.
pub fn table_strategy(alloc: Global) -> Result<Strategy, AllocError>
    ensures { IfOk result (λ s. strategy_data s ≡ table_strategy) }
{
    match built(alloc) {
        Ok(strategy) => Ok(strategy),
        Err(_) => Err(AllocError),
    }
}

fn built(alloc: Global) -> Result<Strategy, BuildError>
    ensures { IfOk result (λ s. strategy_data s ≡ table_strategy) }
{
    let column = column_blocks(alloc)?;
    Ok(TableStrategy::new(alloc, one_segment(), column)?.into_strategy())
}

fn one_segment() -> Strategy
    ensures { strategy_data result ≡ one_segment }
{
    FlatLayoutStrategy::default().into_strategy()
}

/// A segment each chunk, held back up to the buffer's size.
fn segments(alloc: Global) -> Result<Strategy, BuildError>
    ensures { IfOk result (λ s. strategy_data s ≡ segments) }
{
    let chunked = ChunkedLayoutStrategy::new(alloc, one_segment())?.into_strategy();
    Ok(BufferedStrategy::new(alloc, chunked, BUFFER)?.into_strategy())
}

/// Codes and values where the first block's image is a dictionary, else images.
fn coded_blocks(alloc: Global) -> Result<Strategy, BuildError>
    ensures { IfOk result (λ s. strategy_data s ≡ coded_blocks) }
{
    let images = CompressingStrategy::new(alloc, segments(alloc)?, WHICH)?.into_strategy();
    let codes = segments(alloc)?;
    let options = DictLayoutOptions::default();
    Ok(DictStrategy::new(alloc, codes, one_segment(), images, options, WHICH)?.into_strategy())
}

/// A record of each block.
fn zoned_blocks(alloc: Global) -> Result<Strategy, BuildError>
    ensures { IfOk result (λ s. strategy_data s ≡ zoned_blocks) }
{
    let options = ZonedLayoutOptions {
        block_size: BLOCK_ROWS,
        aggregate_fns: None,
        concurrency: 1,
    };
    let blocks = coded_blocks(alloc)?;
    Ok(ZonedStrategy::new(alloc, blocks, one_segment(), options)?.into_strategy())
}

fn column_blocks(alloc: Global) -> Result<Strategy, BuildError>
    ensures { IfOk result (λ s. strategy_data s ≡ column_blocks) }
{
    let options = RepartitionWriterOptions {
        block_size_minimum: 0,
        block_len_multiple: BLOCK_ROWS,
        block_size_target: None,
        canonicalize: false,
    };
    Ok(RepartitionStrategy::new(alloc, zoned_blocks(alloc)?, options)?.into_strategy())
}
