//! Lists of numbers, of flags, of texts.

ghost use Rattle.std.specs.Prelude.{◌≡◌};
ghost use Rattle.serde_json.specs.Find.{as_bool, as_str};
ghost use Rattle.serde_json.specs.View.{view};
ghost use Rattle.vx_json.specs.Values.{all, whole};
ghost use Rattle.vx_json.specs.Views.{Gives};

use crate::error::JsonError;
use crate::values::{read_flag, read_items, read_text, read_u64};
use serde_json::Value;
use std::alloc::Global;
use vx_model::Text;

/// A list of whole numbers of 64 bits.
#[tactic(auto, using(crate::proofs::Items::item_rules), unfolding(crate::specs::Values::all))]
pub fn read_numbers(alloc: Global, value: &Value) -> Result<Vec<u64>, JsonError>
    ensures { Gives (λ v. v.items) result (all whole (view value.now)) }
{
    let items = read_items(value)?;
    let mut numbers = Vec::with_capacity(alloc, items.len())?;
    for item in items {
        numbers.push(read_u64(item)?)?;
    }
    Ok(numbers)
}

/// A list of flags.
#[tactic(auto, using(crate::proofs::Items::item_rules), unfolding(crate::specs::Values::all))]
pub fn read_flags(alloc: Global, value: &Value) -> Result<Vec<bool>, JsonError>
    ensures { Gives (λ v. v.items) result (all as_bool (view value.now)) }
{
    let items = read_items(value)?;
    let mut flags = Vec::with_capacity(alloc, items.len())?;
    for item in items {
        flags.push(read_flag(item)?)?;
    }
    Ok(flags)
}

/// A list of texts.
#[tactic(auto, using(crate::proofs::Items::item_rules), unfolding(crate::specs::Values::all))]
pub fn read_texts(alloc: Global, value: &Value) -> Result<Vec<Text>, JsonError>
    ensures { Gives (λ v. v.items) result (all as_str (view value.now)) }
{
    let items = read_items(value)?;
    let mut texts = Vec::with_capacity(alloc, items.len())?;
    for item in items {
        texts.push(read_text(alloc, item)?)?;
    }
    Ok(texts)
}
