//! The splitter of structs.

ghost use Rattle.std.specs.Prelude.{◌≡◌, ◌∷◌, IsTrue, IfOk, IfErr};
ghost use Rattle.vx_model.specs.Ty.{is_struct};
ghost use Rattle.vx_model.specs.ChunkData.{piece_type};
ghost use Rattle.vx_layout_spec.specs.Parts.{validity_piece, field_pieces};
ghost use Rattle.vx_chunk_cells.specs.Parts.{struct_fields};

use crate::error::SplitError;
use crate::names::repeated_name;
use std::alloc::Global;
use std::marker::Model;
use vx_chunk::Chunk;
use vx_model::DType;

/// Splits chunks of a struct type into columns: validity where the type is nullable, and then the fields, those of
/// invalid rows too. Contracts see the type.
#[derive(Debug, Drop)]
pub struct ColumnSplit {
    dtype: DType,
}

impl Model for ColumnSplit {
    ghost use Rattle.std.specs.Prelude.{IsTrue};
    ghost use Rattle.vx_model.specs.Ty.{Ty, is_struct};
    ghost use Rattle.vx_model.specs.TyView.{ty};
    ghost use Rattle.vx_split.specs.ListState.{ty_coded};

    ghost Value = { Ty };

    ghost coded = { ty_coded };

    ghost view = { λ s. ty s.dtype };

    ghost invariant = { λ s. IsTrue (is_struct (ty s.dtype)) };
}

impl ColumnSplit {
    ghost use Rattle.std.specs.Prelude.{◌≡◌, None, IsTrue, IfOk, OnOk, IfErr};
    ghost use Rattle.vx_model.specs.Ty.{is_struct, nullable};
    ghost use Rattle.vx_model.specs.TyView.{ty};
    ghost use Rattle.vx_model.specs.ChunkData.{piece_type};
    ghost use Rattle.vx_rules.specs.Columns.{struct_columns};
    ghost use Rattle.vx_strategy_spec.specs.Walk.{duplicate};
    ghost use Rattle.vx_chunk_cells.specs.Parts.{struct_fields};
    ghost use Rattle.vx_split.specs.Causes.{IsRefused};

    /// The splitter of this type. Refuses `NotStruct` exactly where the type isn't a struct, and then takes no memory;
    /// `DuplicateField` exactly where two fields have one name. Takes time by `n log n` in the fields, and memory for a
    /// set of their names.
    #[tactic(auto, using(crate::proofs::NameSteps::type_rules))]
    pub fn new(alloc: Global, dtype: DType) -> Result<ColumnSplit, SplitError>
        ensures ok { IfOk result (λ s. s ≡ ty dtype) }
        ensures structs { OnOk result (IsTrue (is_struct (ty dtype))) }
        ensures distinct { OnOk result (duplicate (struct_fields (ty dtype)) ≡ None) }
        ensures refused { IfErr result (IsRefused (ty dtype)) }
    {
        let Some(fields) = dtype.as_struct() else {
            return Err(SplitError::NotStruct);
        };
        if let Some(name) = repeated_name(alloc, fields)? {
            return Err(SplitError::DuplicateField(name));
        }
        Ok(ColumnSplit { dtype })
    }

    /// The columns of a chunk of the type. The fields of a chunk that is held as a struct are its own chunks, moved;
    /// else they are plain, of the cells that `Chunk::into_cells` moves or copies. Validity takes time by the rows;
    /// plain fields by the rows and the fields of each.
    pub fn react(&self, alloc: Global, chunk: Chunk) -> Result<Vec<Chunk>, SplitError>
        requires { piece_type chunk ≡ self.now }
        ensures columns { IfOk result (λ v. v.items ≡ struct_columns (struct_fields self.now) (nullable self.now) chunk) }
        ensures memory { IfErr result (λ e. e ≡ SplitError.OutOfMemory) }
    {
        if self.dtype.is_nullable() {
            return with_validity(alloc, chunk);
        }
        Ok(chunk.into_fields(alloc)?)
    }
}

/// The fields behind the validity.
fn with_validity(alloc: Global, chunk: Chunk) -> Result<Vec<Chunk>, SplitError>
    requires { IsTrue (is_struct (piece_type chunk)) }
    ensures columns { IfOk result (λ v. v.items ≡ validity_piece chunk ∷ field_pieces (struct_fields (piece_type chunk)) chunk) }
    ensures memory { IfErr result (λ e. e ≡ SplitError.OutOfMemory) }
{
    let Ok(validity) = chunk.validity(alloc) else {
        drop(chunk);
        return Err(SplitError::OutOfMemory);
    };
    let Ok(mut columns) = chunk.into_fields(alloc) else {
        drop(validity);
        return Err(SplitError::OutOfMemory);
    };
    columns.insert(0, validity)?;
    Ok(columns)
}
