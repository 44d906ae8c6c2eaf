//! The overrides of a field, and those below it.

ghost use Rattle.std.specs.Prelude.{◌≡◌, option_map, IfOk};
ghost use Rattle.vx_strategy_spec.specs.Dispatch.{override, below};
ghost use Rattle.vx_strategy.specs.PathWays.{path_ways};
ghost use Rattle.vx_table_dispatch.specs.Paths.{is_own, rest_of};

use std::alloc::{AllocError, Global};
use vx_field_path::FieldPath;
use vx_model::FieldName;
use vx_strategy::{ChildStrategy, Overrides, PathWriter};

/// The override of a field itself.
#[tactic(auto, using(crate::proofs::Below::child_rules))]
pub(crate) fn own<'a>(overrides: &'a Overrides, name: &FieldName) -> Option<&'a ChildStrategy>
    ensures { option_map (λ c. c.now.item) result ≡ override name.now overrides.now.item }
{
    own_of(&overrides.list, name)
}

/// The overrides below a field, each without its first name.
#[tactic(auto, using(crate::proofs::Below::kept_rules))]
pub(crate) fn below(overrides: &Overrides, name: &FieldName) -> Result<Overrides, AllocError>
    ensures { IfOk result (λ o. o.item ≡ below name.now overrides.now.item) }
{
    Ok(Overrides {
        list: rests(*overrides.list.allocator(), &overrides.list, name)?,
    })
}

#[tactic(auto, using(crate::proofs::Below::own_rules))]
fn own_of<'a>(list: &'a [PathWriter], name: &FieldName) -> Option<&'a ChildStrategy>
    ensures { option_map (λ c. c.now.item) result ≡ override name.now (path_ways list.now) }
{
    for one in list {
        if is_own(&one.path, name) {
            return Some(&one.writer);
        }
    }
    None
}

fn is_own(path: &FieldPath, name: &FieldName) -> bool
    ensures { result ≡ is_own name.now path.now }
{
    match path.parts() {
        [only] => name == only,
        [] | [_, _, ..] => false,
    }
}

#[tactic(auto, using(crate::proofs::Below::rest_rules))]
fn rests(
    alloc: Global,
    list: &[PathWriter],
    name: &FieldName,
) -> Result<Vec<PathWriter>, AllocError>
    ensures { IfOk result (λ rests. path_ways rests.items ≡ below name.now (path_ways list.now)) }
{
    let mut rests = Vec::new(alloc);
    for one in list {
        if let Some(path) = rest_of(&one.path, name)? {
            let writer = one.writer.clone()?;
            rests.push(PathWriter { path, writer })?;
        }
    }
    Ok(rests)
}

/// What stands behind this name, if something does.
fn rest_of(path: &FieldPath, name: &FieldName) -> Result<Option<FieldPath>, AllocError>
    ensures { IfOk result (λ rest. rest ≡ rest_of name.now path.now) }
{
    match path.parts() {
        [first, _, ..] => if name == first {
            Ok(path.clone()?.step_into())
        } else {
            Ok(None)
        },
        [] | [_] => Ok(None),
    }
}
