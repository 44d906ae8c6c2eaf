//! Rules that are handed chunks one by one.

ghost use Rattle.std.specs.Prelude.{◌≡◌, false, OnOk};
ghost use Rattle.vx_model.specs.Ty.{Ty};
ghost use Rattle.vx_model.specs.TyView.{ty};
ghost use Rattle.vx_model.specs.ChunkData.{ChunkData, piece_type};
ghost use Rattle.vx_regroup.specs.Regrouping.{Takes};

use std::alloc::Global;
use vx_chunk::Chunk;
use vx_dict_encoder::DictEncoder;
use vx_model::DType;
use vx_nodes::{
    Buffered, Collect, ColumnSplit, ListSplit, NodeError, Output, Outputs, Place, Regroup,
    Repartition, Rule as Node, RunCutter, ZoneGuard,
};

pub(crate) trait Rule {
    /// Whether it takes chunks of the type.
    ghost is_at: { Self → Ty → Type 0 };

    /// What it gives at the chunk.
    fn step(
        &mut self,
        alloc: Global,
        dtype: &DType,
        chunk: Chunk,
        last: bool,
    ) -> Result<Outputs, NodeError>
        requires at { is_at self.old (ty dtype.now) }
        requires typed { piece_type chunk ≡ ty dtype.now }
        ensures { OnOk result (last ≡ false → is_at self.new (ty dtype.now)) };
}

impl Rule for Regroup {
    ghost is_at = { λ r t. (c : ChunkData) → piece_type c ≡ t → Takes r c };

    fn step(
        &mut self,
        alloc: Global,
        dtype: &DType,
        chunk: Chunk,
        last: bool,
    ) -> Result<Outputs, NodeError> {
        Ok(self.outputs(alloc, chunk, last)?)
    }
}

impl Rule for Repartition {
    ghost is_at = { λ r t. r.typed ≡ t };

    fn step(
        &mut self,
        alloc: Global,
        dtype: &DType,
        chunk: Chunk,
        last: bool,
    ) -> Result<Outputs, NodeError> {
        to_child(alloc, self.react(alloc, chunk, last)?)
    }
}

impl Rule for Buffered {
    ghost is_at = { λ r t. Unit {0} };

    fn step(
        &mut self,
        alloc: Global,
        dtype: &DType,
        chunk: Chunk,
        last: bool,
    ) -> Result<Outputs, NodeError> {
        to_child(alloc, self.react(alloc, chunk, last)?)
    }
}

impl Rule for Collect {
    ghost is_at = { λ r t. r.typed ≡ t };

    fn step(
        &mut self,
        alloc: Global,
        dtype: &DType,
        chunk: Chunk,
        last: bool,
    ) -> Result<Outputs, NodeError> {
        to_child(alloc, self.react(alloc, chunk, last)?)
    }
}

impl Rule for ColumnSplit {
    ghost is_at = { λ r t. r ≡ t };

    fn step(
        &mut self,
        alloc: Global,
        dtype: &DType,
        chunk: Chunk,
        last: bool,
    ) -> Result<Outputs, NodeError> {
        self.outputs(alloc, chunk, last)
    }
}

impl Rule for ListSplit {
    ghost is_at = { λ r t. r.typed ≡ t };

    fn step(
        &mut self,
        alloc: Global,
        dtype: &DType,
        chunk: Chunk,
        last: bool,
    ) -> Result<Outputs, NodeError> {
        self.outputs(alloc, chunk, last)
    }
}

impl Rule for RunCutter {
    ghost is_at = { λ r t. r.typed ≡ t };

    fn step(
        &mut self,
        alloc: Global,
        dtype: &DType,
        chunk: Chunk,
        last: bool,
    ) -> Result<Outputs, NodeError> {
        self.outputs(alloc, chunk, last)
    }
}

impl Rule for ZoneGuard {
    ghost is_at = { λ r t. r.typed ≡ t };

    fn step(
        &mut self,
        alloc: Global,
        dtype: &DType,
        chunk: Chunk,
        last: bool,
    ) -> Result<Outputs, NodeError> {
        self.outputs(alloc, chunk, last)
    }
}

impl Rule for DictEncoder {
    ghost is_at = { λ r t. r.typed ≡ t };

    /// The codes at the place of how many rows they have, and behind the last chunk what `reset` gives, twice.
    fn step(
        &mut self,
        alloc: Global,
        dtype: &DType,
        chunk: Chunk,
        last: bool,
    ) -> Result<Outputs, NodeError> {
        match self.encode(alloc, &chunk) {
            Ok((codes, rows)) => {
                drop(chunk);
                let place = Place::Codes(rows);
                let front = Output {
                    place,
                    chunk: codes,
                };
                behind(alloc, self, front, last)
            }
            Err(error) => {
                drop(chunk);
                Err(NodeError::from(error))
            }
        }
    }
}

/// The codes, and behind the last ones what the dictionary holds.
fn behind(
    alloc: Global,
    encoder: &mut DictEncoder,
    front: Output,
    last: bool,
) -> Result<Outputs, NodeError>
    ensures { OnOk result (last ≡ false → encoder.new ≡ encoder.old) }
{
    if last {
        return with_values(alloc, encoder, front);
    }
    let items = vec![in alloc; front]?;
    Ok(Outputs { items, zone: None })
}

/// The codes, and the cells of the dictionary.
fn with_values(
    alloc: Global,
    encoder: &mut DictEncoder,
    front: Output,
) -> Result<Outputs, NodeError> {
    match encoder.reset(alloc) {
        Ok(chunk) => {
            let place = Place::Values(0);
            with_rest(alloc, encoder, front, Output { place, chunk })
        }
        Err(error) => {
            drop(front);
            Err(NodeError::from(error))
        }
    }
}

/// The codes, the cells, and those that are left then.
fn with_rest(
    alloc: Global,
    encoder: &mut DictEncoder,
    front: Output,
    values: Output,
) -> Result<Outputs, NodeError> {
    match encoder.reset(alloc) {
        Ok(chunk) => {
            let place = Place::Values(1);
            let items = vec![in alloc; front, values, Output { place, chunk }]?;
            Ok(Outputs { items, zone: None })
        }
        Err(error) => {
            drop(front);
            drop(values);
            Err(NodeError::from(error))
        }
    }
}

/// Each to the child.
fn to_child(alloc: Global, chunks: Vec<Chunk>) -> Result<Outputs, NodeError> {
    let items = chunks
        .into_iter()
        .map(|chunk| Output {
            place: Place::Child,
            chunk,
        })
        .collect(alloc)?;
    Ok(Outputs { items, zone: None })
}
