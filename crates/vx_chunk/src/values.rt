//! The rows of a chunk as a reader sees them.

ghost use Rattle.std.specs.Prelude.{◌≡◌, map, IfOk, IfErr};
ghost use Rattle.vx_model.specs.TreeView.{val};
ghost use Rattle.vx_model.specs.ChunkData.{row_values};

use crate::error::ChunkError;
use crate::node::Chunk;
use std::alloc::Global;
use vx_chunk_cells::into_values;
use vx_model::Value;

impl Chunk {
    /// The rows as a reader sees them: an invalid list or struct is null, and the cells below it aren't shown.
    pub fn rows_of(&self, alloc: Global) -> Result<Vec<Value>, ChunkError>
        ensures rows { IfOk result (λ v. map val v.items ≡ row_values self.now) }
        ensures memory { IfErr result (λ e. e ≡ ChunkError.OutOfMemory) }
    {
        Ok(into_values(self.cells(alloc)?)?)
    }
}
