ghost use Rattle.std.specs.Prelude.{◌≡◌, ℕ, List, Option};
ghost use Rattle.vx_model.specs.Ty.{Ty};
ghost use Rattle.vx_model.specs.TyView.{ty};
ghost use Rattle.vx_model.specs.ChunkData.{ChunkData};
ghost use Rattle.vx_fault.specs.Faults.{Called};
ghost use Rattle.vx_sink.specs.Source.{source_failed, Falls, GivesNext};

use thiserror::Error;
use vx_chunk::Chunk;
use vx_fault::Fallible;
use vx_model::DType;

/// Why a source gave no answer.
#[derive(Debug, Drop, Error)]
pub enum SourceError {
    /// The source failed; its count of faults says so.
    #[error("the source failed")]
    Failed,
    #[error("out of memory")]
    OutOfMemory,
}

/// Batches of rows of one type, in order.
pub trait BatchSource: Fallible {
    /// The type of the batches, which no call changes.
    ghost kind: { Self → Ty };

    /// How many batches are left.
    ghost left: { Self → ℕ };

    /// The batches to come, where the source tells them.
    ghost to_come: { Self → Option (List ChunkData) };

    /// The type of the batches.
    fn dtype(&self) -> &DType
        ensures { ty result.now ≡ kind self.now };

    /// The next batch, or `None` at the end. An error changes nothing but the count of faults.
    fn next(&mut self) -> Result<Option<Chunk>, SourceError>
        ensures kind { kind self.new ≡ kind self.old }
        ensures falls { Falls (left self.old) (left self.new) result }
        ensures batch { GivesNext (to_come self.old) (to_come self.new) result }
        ensures told { Called (Self.faults self.old) (Self.faults self.new) (Self.may_fail self.old) (Self.may_fail self.new)
            (Self.must_fail self.old) (Self.must_fail self.new) (source_failed result) };
}
