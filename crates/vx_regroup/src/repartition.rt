//! Rows leave in blocks of a multiple of the block length.

ghost use Rattle.std.specs.Prelude.{◌≡◌, ◌<◌, [], false, IfOk, OnOk, IfErr, IsTrue};
ghost use Rattle.vx_model.specs.ChunkData.{piece_type, plain_piece};
ghost use Rattle.vx_model.specs.TyView.{ty};
ghost use Rattle.vx_model.specs.Words.{total_by, all_by};
ghost use Rattle.vx_model.specs.CellData.{cell_size as size_of, fits};
ghost use Rattle.vx_column.specs.ColumnView.{column_cells};
ghost use Rattle.vx_rules.specs.Blocks.{BlockOptions, block_len, blocks};
ghost use Rattle.vx_plan.specs.GroupNode.{tested_at as tested_by};
ghost use Rattle.vx_regroup.specs.Held.{rows_view};
ghost use Rattle.vx_regroup.specs.Refusals.{first_past, Refuses};
ghost use Rattle.vx_regroup.specs.Rules.{given, exactly, block_rule, rows_after, tested_at};

use crate::cuts::{blocks_off, push_last};
use crate::walk::walked;
use std::alloc::Global;
use std::marker::Model;
use std::mem;
use vx_chunk::{Chunk, ChunkError};
use vx_column::{Column, no_rows};
use vx_model::DType;

/// Holds rows until they leave in blocks, which are plain.
#[derive(Drop)]
pub struct Repartition {
    dtype: DType,
    len: usize,
    minimum: u64,
    rows: Column,
    total: u64,
}

impl Model for Repartition {
    ghost use Rattle.vx_column.specs.ColumnView.{column_cells};
    ghost use Rattle.vx_regroup.specs.Held.{RowsHeld, rows_code, rows_view, RowsStand};

    ghost Value = { RowsHeld };

    ghost coded = { rows_code };

    ghost view = { λ r. rows_view r.dtype r.len r.minimum (column_cells r.rows) };

    ghost invariant = { λ r. RowsStand (rows_view r.dtype r.len r.minimum (column_cells r.rows)) r.total };
}

impl Repartition {
    /// Blocks of a multiple of `len` rows, and of at least `minimum` bytes. Takes no memory.
    pub fn new(alloc: Global, dtype: DType, len: u64, minimum: u64) -> Repartition
        requires { 0 < len }
        ensures held { result ≡ rows_view dtype len minimum [] }

        // The rule of all options that have this minimum, and this block length at the type.
        ensures rule { (o : BlockOptions) → block_len o (ty dtype) ≡ len → o.minimum ≡ minimum → block_rule result ≡ blocks o (ty dtype) }
    {
        Repartition {
            dtype,
            len: len as usize,
            minimum,
            rows: no_rows(alloc),
            total: 0,
        }
    }

    /// The blocks that leave at the chunk; at the last one all rows leave. Linear in the rows of the chunk and of the
    /// blocks; a plain chunk that becomes one block is handed on as it is. After an error nothing is known of what is
    /// held.
    pub fn react(
        &mut self,
        alloc: Global,
        chunk: Chunk,
        last: bool,
    ) -> Result<Vec<Chunk>, ChunkError>
        requires { piece_type chunk ≡ self.old.typed }
        ensures gives { IfOk result (λ v. v.items ≡ given (block_rule self.old) self.old.rows chunk last) }
        ensures holds { OnOk result (last ≡ false → self.new ≡ rows_after self.old chunk) }
        ensures fits { OnOk result (first_past (tested_at self.old chunk) ≡ None) }
        ensures refused { IfErr result (Refuses (first_past (tested_at self.old chunk))) }
    {
        chunk.sound();
        let added = chunk.into_column(alloc)?;
        let total = self.total;
        self.total = 0;
        let rows = mem::replace(&mut self.rows, no_rows(alloc));
        let (mut blocks, left, total) = cut_behind(
            alloc,
            &self.dtype,
            self.len,
            self.minimum,
            rows,
            added,
            total,
        )?;
        if last {
            push_last(&self.dtype, left, &mut blocks)?;
            return Ok(blocks);
        }
        self.rows = left;
        self.total = total;
        Ok(blocks)
    }
}

/// The blocks that leave where others come behind the rows, which take `total` bytes; the rows that are left, and their
/// bytes.
#[tactic(auto, using(crate::proofs::CutSteps::left_rules))]
fn cut_behind(
    alloc: Global,
    dtype: &DType,
    len: usize,
    minimum: u64,
    rows: Column,
    added: Column,
    total: u64,
) -> Result<(Vec<Chunk>, Column, u64), ChunkError>
    requires some { 0 < len }
    requires fit { IsTrue (all_by (fits (ty dtype.now)) (column_cells rows)) }
    requires more_fit { IsTrue (all_by (fits (ty dtype.now)) (column_cells added)) }
    requires summed { total ≡ total_by (size_of (ty dtype.now)) (column_cells rows) }
    ensures leaves { IfOk result (λ r. r.0.items ≡ (blocks (exactly len minimum) (ty dtype.now)).leaves (column_cells rows) (plain_piece (ty dtype.now) (column_cells added))) }
    ensures left { IfOk result (λ r. column_cells r.1 ≡ (blocks (exactly len minimum) (ty dtype.now)).holds (column_cells rows) (plain_piece (ty dtype.now) (column_cells added))) }
    ensures fit { IfOk result (λ r. IsTrue (all_by (fits (ty dtype.now)) (column_cells r.1))) }
    ensures summed { IfOk result (λ r. r.2 ≡ total_by (size_of (ty dtype.now)) (column_cells r.1)) }
    ensures fits { OnOk result (first_past (tested_by (exactly len minimum) (ty dtype.now) (column_cells rows) (plain_piece (ty dtype.now) (column_cells added))) ≡ None) }
    ensures refused { IfErr result (Refuses (first_past (tested_by (exactly len minimum) (ty dtype.now) (column_cells rows) (plain_piece (ty dtype.now) (column_cells added))))) }
{
    let held = rows.len();
    let rows = rows.append(alloc, added)?;
    let walk = walked(alloc, dtype, len, minimum, &rows, held, total)?;
    let (blocks, left) = blocks_off(alloc, dtype, rows, &walk.sizes, walk.cut)?;
    Ok((blocks, left, walk.total))
}
