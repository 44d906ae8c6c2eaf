//! The splitter of lists.

ghost use Rattle.std.specs.Prelude.{◌≡◌, ◌∷◌, ◌+◌, [], false, if◌then◌else◌, length, map, IsTrue, IfOk, IfErr};
ghost use Rattle.vx_model.specs.Words.{all_by};
ghost use Rattle.vx_model.specs.Ty.{boolean, is_list};
ghost use Rattle.vx_model.specs.CellData.{bool_cell, fits};
ghost use Rattle.vx_model.specs.TreeView.{tree};
ghost use Rattle.vx_model.specs.ChunkData.{piece_type, plain_piece, cells};
ghost use Rattle.vx_layout_spec.specs.Parts.{flag_of, all_elements, ends};
ghost use Rattle.vx_rules.specs.Columns.{list_columns, offset_type};
ghost use Rattle.vx_chunk_cells.specs.Parts.{element_type};
ghost use Rattle.vx_split.specs.Causes.{IsPast};

use crate::error::SplitError;
use crate::offsets::{end_of, offset_cells};
use std::alloc::{AllocError, Global};
use std::marker::Model;
use vx_chunk::{Chunk, ChunkError, flag_chunk};
use vx_model::{Cell, DType, Nullability, PType};

/// Splits chunks of a list type into columns: the elements of all rows, those of invalid rows too; the offsets, which
/// run on over all chunks; and validity where the type is nullable. Contracts see the type, whether the first chunk is
/// still to come, and how many elements the chunks so far have.
#[derive(Debug, Drop)]
pub struct ListSplit {
    dtype: DType,
    first: bool,
    base: u64,
}

impl Model for ListSplit {
    ghost use Rattle.std.specs.Prelude.{IsTrue};
    ghost use Rattle.vx_model.specs.Ty.{is_list};
    ghost use Rattle.vx_model.specs.TyView.{ty};
    ghost use Rattle.vx_split.specs.ListState.{ListState, state_at, state_coded};

    ghost Value = { ListState };

    ghost coded = { state_coded };

    ghost view = { λ s. state_at (ty s.dtype) s.first s.base };

    ghost invariant = { λ s. IsTrue (is_list (ty s.dtype)) };
}

impl ListSplit {
    ghost use Rattle.std.specs.Prelude.{◌≡◌, ◌<◌, ◌^◌, true, IsTrue, IfOk, OnOk, IfErr, OnErr};
    ghost use Rattle.vx_model.specs.Ty.{is_list, nullable};
    ghost use Rattle.vx_model.specs.TyView.{ty};
    ghost use Rattle.vx_model.specs.ChunkData.{piece_type};
    ghost use Rattle.vx_layout_spec.specs.Real.{Whole};
    ghost use Rattle.vx_rules.specs.Columns.{list_columns};
    ghost use Rattle.vx_chunk_cells.specs.Parts.{element_type};
    ghost use Rattle.vx_split.specs.ListState.{state_at, elements_to, behind};
    ghost use Rattle.vx_split.specs.Causes.{IsPast, Tells};

    /// The splitter of a list type, before the first chunk. `DType::is_list` tests the condition.
    pub fn new(dtype: DType) -> ListSplit
        requires { IsTrue (is_list (ty dtype)) }
        ensures { result ≡ state_at (ty dtype) true 0 }
    {
        ListSplit {
            dtype,
            first: true,
            base: 0,
        }
    }

    /// Whether no chunk came.
    pub fn is_first(&self) -> bool
        ensures { result ≡ self.now.first }
    {
        self.first
    }

    /// The columns of the next chunk of the type: plain ones, the first chunk with one offset more than it has rows. The
    /// elements are those that `Chunk::into_list_parts` moves or copies. Takes time by the rows, and where it copies by
    /// the elements.
    pub fn react(&mut self, alloc: Global, chunk: Chunk) -> Result<Vec<Chunk>, SplitError>
        requires { piece_type chunk ≡ self.old.typed }
        ensures columns { IfOk result (λ v. v.items ≡ list_columns (element_type self.old.typed) (nullable self.old.typed) self.old.first self.old.base chunk) }
        ensures next { OnOk result (self.new ≡ behind self.old chunk) }
        ensures fits { OnOk result (elements_to self.old chunk < 2 ^ 64) }
        ensures kept { OnErr result (self.new ≡ self.old) }
        ensures refused { IfErr result (IsPast (elements_to self.old chunk)) }
        ensures exact { Whole chunk → IfErr result (Tells (elements_to self.old chunk)) }
    {
        let nullable = self.dtype.is_nullable();
        let (columns, end) = split_lists(alloc, nullable, self.first, self.base, chunk)?;
        self.first = false;
        self.base = end;
        Ok(columns)
    }
}

/// The columns, behind so many elements, and the elements up to the chunk's end.
fn split_lists(
    alloc: Global,
    nullable: bool,
    first: bool,
    base: u64,
    chunk: Chunk,
) -> Result<(Vec<Chunk>, u64), SplitError>
    requires { IsTrue (is_list (piece_type chunk)) }
    ensures columns { IfOk result (λ r. r.0.items ≡ list_columns (element_type (piece_type chunk)) nullable first base chunk) }
    ensures end { IfOk result (λ r. r.1 ≡ base + length (all_elements (cells chunk))) }
    ensures refused { IfErr result (IsPast (base + length (all_elements (cells chunk)))) }
{
    let (elements, offsets, valid) = list_parts(alloc, base, chunk)?;
    match end_of(base, elements.len()) {
        Ok(end) => {
            let Ok(places) = offset_cells(alloc, first, base, offsets) else {
                drop(elements);
                return Err(SplitError::OutOfMemory);
            };
            let columns = put_together(alloc, nullable, elements, places, valid)?;
            Ok((columns, end))
        }
        Err(error) => {
            drop(elements);
            Err(error)
        }
    }
}

/// The parts of the chunk's lists. Too many elements are told with those before them.
fn list_parts(
    alloc: Global,
    base: u64,
    chunk: Chunk,
) -> Result<(Chunk, Vec<u64>, Vec<bool>), SplitError>
    requires { IsTrue (is_list (piece_type chunk)) }
    ensures elements { IfOk result (λ r. r.0 ≡ plain_piece (element_type (piece_type chunk)) (all_elements (cells chunk))) }
    ensures offsets { IfOk result (λ r. r.1.items ≡ 0 ∷ ends 0 (cells chunk)) }
    ensures valid { IfOk result (λ r. r.2.items ≡ map flag_of (cells chunk)) }
    ensures refused { IfErr result (IsPast (base + length (all_elements (cells chunk)))) }
{
    match chunk.into_list_parts(alloc) {
        Ok(parts) => Ok(parts),
        Err(ChunkError::TooLarge(count)) => {
            Err(SplitError::TooLarge(count.saturating_add(u128::from(base))))
        }
        Err(ChunkError::OutOfMemory) => Err(SplitError::OutOfMemory),
    }
}

/// The columns in their order; no flags where the type isn't nullable.
fn put_together(
    alloc: Global,
    nullable: bool,
    elements: Chunk,
    places: Vec<Cell>,
    valid: Vec<bool>,
) -> Result<Vec<Chunk>, AllocError>
    requires { IsTrue (all_by (fits offset_type) (map tree places.items)) }
    ensures { IfOk result (λ v. v.items ≡ elements ∷ plain_piece offset_type (map tree places.items) ∷ (if nullable then plain_piece (boolean false) (map bool_cell valid.items) ∷ [] else [])) }
{
    let Ok(offsets) = offset_column(alloc, places) else {
        drop(elements);
        return Err(AllocError);
    };
    if !nullable {
        return Ok(vec![in alloc; elements, offsets]?);
    }
    let Ok(validity) = flag_chunk(alloc, valid) else {
        drop(elements);
        drop(offsets);
        return Err(AllocError);
    };
    Ok(vec![in alloc; elements, offsets, validity]?)
}

#[tactic(auto, using(crate::proofs::ListSteps::type_rules))]
fn offset_column(alloc: Global, places: Vec<Cell>) -> Result<Chunk, AllocError>
    requires { IsTrue (all_by (fits offset_type) (map tree places.items)) }
    ensures { IfOk result (λ c. c ≡ plain_piece offset_type (map tree places.items)) }
{
    let dtype = DType::Primitive(PType::U64, Nullability::NonNullable);
    Chunk::typed(alloc, dtype, places)
}
