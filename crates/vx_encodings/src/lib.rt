//! All encodings that a file may use.
#![tactic(auto)]

ghost use Rattle.std.specs.Prelude.{◌≡◌, IfOk};
ghost use Rattle.vx_encodings.specs.AllEncodings.{all_encodings};

use std::alloc::{AllocError, Global};
use vx_model::{ArrayContext, EncodingId};

/// The context of all encodings, in their default order.
pub fn all_encodings(alloc: Global) -> Result<ArrayContext, AllocError>
    ensures { IfOk result (λ c. c ≡ all_encodings) }
{
    match ArrayContext::try_new(Vec::from_slice(alloc, &EncodingId::ALL)?) {
        Ok(context) => Ok(context),
        Err(_) => unreachable!(),
    }
}
