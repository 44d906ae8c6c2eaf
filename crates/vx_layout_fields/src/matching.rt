//! What masks match among fields.

ghost use Rattle.std.specs.Prelude.{◌≡◌, map, IfOk};
ghost use Rattle.std.specs.List.{list_any, position};
ghost use Rattle.vx_model.specs.TyView.{field_ty};
ghost use Rattle.vx_field_path.specs.Masks.{takes_all, mask_stepped};
ghost use Rattle.vx_layout_tree.specs.Views.{Gives};
ghost use Rattle.vx_layout_fields.specs.Matching.{is_named, match_of, each_match, every_field, matching};
ghost use Rattle.vx_layout_fields.specs.Views.{matches_in, one_match};

use std::alloc::{AllocError, Global};
use vx_field_path::FieldMask;
use vx_layout_tree::LayoutError;
use vx_model::{FieldName, StructField};

/// Every field where a mask matches all, else what each mask matches.
pub(crate) fn matches_of(
    alloc: Global,
    fields: &[StructField],
    masks: &[FieldMask],
) -> Result<Vec<(FieldMask, u64)>, LayoutError>
    ensures { Gives matches_in result (matching (map field_ty fields.now) masks.now) }
{
    if any_takes_all(masks) {
        return Ok(every_field(alloc, fields)?);
    }
    each_match(alloc, fields, masks)
}

/// Whether one of the masks matches every field.
#[tactic(auto, using(crate::proofs::Steps::any_rules))]
fn any_takes_all(masks: &[FieldMask]) -> bool
    ensures { result ≡ list_any takes_all masks.now }
{
    for mask in masks {
        if mask.matches_all() {
            return true;
        }
    }
    false
}

/// Each field with all that is below it.
#[tactic(auto, using(crate::proofs::Steps::every_rules))]
fn every_field(alloc: Global, fields: &[StructField]) -> Result<Vec<(FieldMask, u64)>, AllocError>
    ensures { IfOk result (λ v. v.items ≡ every_field (map field_ty fields.now)) }
{
    let mut matches = Vec::with_capacity(alloc, fields.len())?;
    for i in 0..fields.len() {
        matches.push((FieldMask::All, i as u64))?;
    }
    Ok(matches)
}

/// What each mask matches, in order of the masks.
#[tactic(auto, using(crate::proofs::Steps::each_rules))]
fn each_match(
    alloc: Global,
    fields: &[StructField],
    masks: &[FieldMask],
) -> Result<Vec<(FieldMask, u64)>, LayoutError>
    ensures { Gives matches_in result (each_match (map field_ty fields.now) masks.now) }
{
    let mut matches = Vec::new(alloc);
    for mask in masks {
        if let Some(one) = match_of(fields, mask)? {
            matches.push(one)?;
        }
    }
    Ok(matches)
}

/// The field at which the mask starts; nothing where it has no first name.
#[tactic(auto, using(crate::proofs::Steps::match_rules))]
fn match_of(
    fields: &[StructField],
    mask: &FieldMask,
) -> Result<Option<(FieldMask, u64)>, LayoutError>
    ensures { Gives one_match result (match_of (map field_ty fields.now) mask.now) }
{
    let Some(name) = mask.starting_field() else {
        return Ok(None);
    };
    let Some(number) = number_of(fields, name) else {
        return Err(LayoutError::FieldNotFound(name.clone()?));
    };
    match stepped(mask)? {
        Some(below) => Ok(Some((below, number))),
        None => Ok(None),
    }
}

/// The number of the first field of the name.
#[tactic(auto, using(crate::proofs::Steps::number_rules))]
fn number_of(fields: &[StructField], name: &FieldName) -> Option<u64>
    ensures { result ≡ position (is_named name.now) (map field_ty fields.now) }
{
    for (i, field) in fields.iter().enumerate() {
        if field.name == *name {
            return Some(i as u64);
        }
    }
    None
}

/// The mask as seen from below its first name.
fn stepped(mask: &FieldMask) -> Result<Option<FieldMask>, AllocError>
    ensures { IfOk result (λ below. below ≡ mask_stepped mask.now) }
{
    Ok(copied(mask)?.step_into())
}

fn copied(mask: &FieldMask) -> Result<FieldMask, AllocError>
    ensures { IfOk result (λ copy. copy ≡ mask.now) }
{
    match mask {
        FieldMask::All => Ok(FieldMask::All),
        FieldMask::Prefix(path) => Ok(FieldMask::Prefix(path.clone()?)),
        FieldMask::Exact(path) => Ok(FieldMask::Exact(path.clone()?)),
    }
}
