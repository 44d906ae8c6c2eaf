//! Names of refusals.

ghost use Rattle.std.specs.Prelude.{◌≡◌, not, is_some};
ghost use Rattle.vx_column_worker.specs.Worked.{is_stopped};

use vx_order_answer::WriteErrorName;
use vx_write_answer::WriteError;

/// The refusal's name, where it is the column's own.
pub(crate) fn name_of(error: &WriteError) -> Option<WriteErrorName>
    ensures { is_some result ≡ not (is_stopped error.now) }
{
    match error {
        WriteError::SourceFault => Some(WriteErrorName::SourceFault),
        WriteError::SinkFault => Some(WriteErrorName::SinkFault),
        WriteError::CompressFault => Some(WriteErrorName::CompressFault),
        WriteError::BatchType(_) => Some(WriteErrorName::BatchType),
        WriteError::NotStruct => Some(WriteErrorName::NotStruct),
        WriteError::DuplicateField(_) => Some(WriteErrorName::DuplicateField),
        WriteError::ManyChunks => Some(WriteErrorName::ManyChunks),
        WriteError::EmptyList => Some(WriteErrorName::EmptyList),
        WriteError::ZoneCut(_) => Some(WriteErrorName::ZoneCut),
        WriteError::ForbiddenAggregate(_) => Some(WriteErrorName::ForbiddenAggregate),
        WriteError::ForbiddenEncoding(_) => Some(WriteErrorName::ForbiddenEncoding),
        WriteError::TooLarge(_) => Some(WriteErrorName::TooLarge),
        WriteError::OutOfMemory => Some(WriteErrorName::OutOfMemory),
        WriteError::Stopped(..) => None,
    }
}
