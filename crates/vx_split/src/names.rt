//! Names of fields that are there twice.

ghost use Rattle.std.specs.Prelude.{◌≡◌, map, IfOk};
ghost use Rattle.vx_model.specs.Ty.{tys_of};
ghost use Rattle.vx_model.specs.TyView.{field_ty};
ghost use Rattle.vx_strategy_spec.specs.Walk.{duplicate};

use std::alloc::{AllocError, Global};
use std::collections::BTreeSet;
use vx_model::{FieldName, StructField};

/// A copy of the first name that equals one before it. Takes time by `n log n`, and memory for a set of the names.
#[tactic(auto, using(crate::proofs::NameSteps::name_rules))]
pub(crate) fn repeated_name(
    alloc: Global,
    fields: &[StructField],
) -> Result<Option<FieldName>, AllocError>
    ensures { IfOk result (λ name. name ≡ duplicate (tys_of (map field_ty fields.now))) }
{
    let mut before = BTreeSet::new(alloc);
    for field in fields {
        if !before.insert(field.name.as_str())? {
            return Ok(Some(field.name.clone()?));
        }
    }
    Ok(None)
}
