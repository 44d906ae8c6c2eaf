//! The path behind a path.
ghost use Rattle.std.specs.Prelude.{◌≡◌, ◌≢◌, ◌<◌, [], IfOk, OnOk, IsErrOf};
ghost use Rattle.vx_path.specs.Path.{eof_path, next};
ghost use Rattle.vx_sequence.specs.Universe.{place_of};

use crate::errors::SequenceError;
use std::alloc::Global;
use vx_path::owned::Path;

/// The next sibling of a path.
#[tactic(auto, using(crate::proofs::Places::place_rules))]
pub(crate) fn sibling(alloc: Global, path: &[u64]) -> Result<Path, SequenceError>
    requires { path.now ≢ [] }
    ensures next { IfOk result (λ p. p ≡ eof_path (next (place_of path.now))) }
    ensures room { OnOk result ((place_of path.now).last < u64.MAX) }
    ensures full { IsErrOf result SequenceError.IndexFull → (place_of path.now).last ≡ u64.MAX }
{
    let Some((&last, stem)) = path.split_last() else {
        unreachable!()
    };
    let Some(index) = last.checked_add(1) else {
        return Err(SequenceError::IndexFull);
    };
    Ok(Path::child(alloc, stem, index)?)
}
