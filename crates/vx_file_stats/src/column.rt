//! What is gathered of a column.

ghost use Rattle.std.specs.Prelude.{◌≡◌, ◌-◌, ◌^◌, min, IfOk};
ghost use Rattle.vx_model.specs.TyView.{ty};
ghost use Rattle.vx_model.specs.ChunkData.{row_size};
ghost use Rattle.vx_file_stats.specs.Gathering.{column_data, no_column, next_bytes, with_piece};

use crate::keeps::keeps;
use crate::rows::{RowStats, no_rows, with_chunk};
use std::alloc::{AllocError, Global};
use vx_aggregate::Stat;
use vx_chunk::{Chunk, ChunkError};
use vx_model::DType;

/// What is gathered of a column.
#[derive(Drop)]
pub(crate) struct ColumnStats {
    pub(crate) dtype: DType,
    pub(crate) rows: RowStats,
    /// Stops at the greatest number.
    pub(crate) bytes: u128,
}

/// That of no batch.
pub(crate) fn no_column(dtype: DType) -> ColumnStats
    ensures { column_data result ≡ no_column (ty dtype) }
{
    ColumnStats {
        dtype,
        rows: no_rows(),
        bytes: 0,
    }
}

/// That with one batch's piece more.
pub(crate) fn with_piece(
    alloc: Global,
    asked: &[Stat],
    limit: u64,
    piece: &Chunk,
    before: ColumnStats,
) -> Result<ColumnStats, AllocError>
    ensures { IfOk result (λ c. column_data c ≡ with_piece asked.now limit piece.now (column_data before)) }
{
    let ColumnStats { dtype, rows, bytes } = before;
    let bytes = next_bytes(asked, piece, bytes);
    match with_chunk(alloc, asked, limit, piece, rows) {
        Ok(rows) => Ok(ColumnStats { dtype, rows, bytes }),
        Err(error) => {
            drop(dtype);
            Err(error)
        }
    }
}

#[tactic(auto, using(crate::proofs::SizeSteps::added_rules))]
fn next_bytes(asked: &[Stat], piece: &Chunk, before: u128) -> u128
    ensures { result ≡ next_bytes asked.now piece.now before }
{
    if !keeps(asked, Stat::UncompressedSizeInBytes, piece.dtype()) {
        return before;
    }
    before.saturating_add(row_bytes(piece))
}

/// The size of all rows, at most the greatest number.
#[tactic(auto, using(crate::proofs::SizeSteps::size_rules))]
fn row_bytes(piece: &Chunk) -> u128
    ensures { result ≡ min (row_size piece.now) (2 ^ 128 - 1) }
{
    match piece.row_size() {
        Ok(bytes) => u128::from(bytes),
        Err(ChunkError::TooLarge(bytes)) => bytes,
        Err(ChunkError::OutOfMemory) => unreachable!(),
    }
}
