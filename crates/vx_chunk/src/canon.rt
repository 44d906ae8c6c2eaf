//! The plain form of a chunk.

ghost use Rattle.std.specs.Prelude.{◌≡◌, IfOk, IfErr};
ghost use Rattle.vx_model.specs.ChunkData.{plain_piece, piece_type, cells};

use crate::error::ChunkError;
use crate::node::Chunk;
use std::alloc::Global;

impl Chunk {
    /// The plain chunk of the rows, a copy.
    pub fn canon(&self, alloc: Global) -> Result<Chunk, ChunkError>
        ensures plain { IfOk result (λ c. c ≡ plain_piece (piece_type self.now) (cells self.now)) }
        ensures memory { IfErr result (λ e. e ≡ ChunkError.OutOfMemory) }
    {
        self.sound();
        let cells = self.cells(alloc)?;
        let dtype = self.dtype().clone()?;
        Ok(Chunk::typed(alloc, dtype, cells)?)
    }
}
