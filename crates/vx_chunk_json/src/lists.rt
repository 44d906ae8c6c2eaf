//! Lists of numbers and of flags at keys.

ghost use Rattle.serde_json.specs.View.{members_view};
ghost use Rattle.vx_chunk_json.specs.Chunks.{numbers_in, flags_in};
ghost use Rattle.vx_json.specs.Views.{Gives};

use serde_json::{Map, Value};
use std::alloc::Global;
use vx_json::{JsonError, member, read_flags, read_numbers};

/// The whole numbers of 64 bits at the key.
#[tactic(auto, unfolding(vx_json::specs::Values::all))]
pub(crate) fn numbers_at(
    alloc: Global,
    members: &Map<String, Value>,
    key: &str,
) -> Result<Vec<u64>, JsonError>
    ensures { Gives (λ v. v.items) result (numbers_in key.now (members_view members.now.entries)) }
{
    match member(members, key) {
        Some(value) => read_numbers(alloc, value),
        None => Err(JsonError::Wrong),
    }
}

/// The flags at `valid` where the type is nullable, else none.
#[tactic(auto, unfolding(vx_json::specs::Values::all))]
pub(crate) fn flags_at(
    alloc: Global,
    members: &Map<String, Value>,
    nullable: bool,
) -> Result<Vec<bool>, JsonError>
    ensures { Gives (λ v. v.items) result (flags_in nullable (members_view members.now.entries)) }
{
    if !nullable {
        return Ok(Vec::new(alloc));
    }
    match member(members, "valid") {
        Some(value) => read_flags(alloc, value),
        None => Err(JsonError::Wrong),
    }
}
