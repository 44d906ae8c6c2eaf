//! Parts of values.

ghost use Rattle.std.specs.Prelude.{◌≡◌, ◌^◌, option_map};
ghost use Rattle.serde_json.specs.Find.{get, as_bool, as_str, as_array};
ghost use Rattle.serde_json.specs.View.{view, items_view};
ghost use Rattle.vx_json.specs.Values.{has_members, only_member, at, whole, whole_below, or_null, two, two_items};
ghost use Rattle.vx_json.specs.Views.{Gives};

use crate::error::JsonError;
use serde_json::Value;
use std::alloc::Global;
use vx_model::Text;

/// Whether the value is an object of exactly so many members.
#[tactic(auto, using(crate::proofs::Parts::part_rules), unfolding(crate::specs::Values::has_members))]
pub fn has_members(value: &Value, count: usize) -> bool
    ensures { result ≡ has_members count (view value.now) }
{
    match value {
        Value::Object(members) => members.len() == count,
        Value::Null | Value::Bool(_) | Value::Number(_) | Value::String(_) | Value::Array(_) =>
            false,
    }
}

/// The key and the value of an object that has one member.
#[tactic(auto, using(crate::proofs::Parts::member_rules), unfolding(crate::specs::Values::only_member))]
pub fn only_member(value: &Value) -> Option<(&str, &Value)>
    ensures { option_map (λ p. (p.0.now, view p.1.now)) result ≡ only_member (view value.now) }
{
    let members = value.as_object()?;
    if members.len() != 1 {
        return None;
    }
    let (key, inner) = members.first_key_value()?;
    Some((key.as_str(), inner))
}

/// The two items.
#[tactic(auto, using(crate::proofs::Parts::part_rules))]
pub fn pair(items: &[Value]) -> Option<(&Value, &Value)>
    ensures { option_map (λ p. (view p.0.now, view p.1.now)) result ≡ two_items (items_view items.now) }
{
    match items {
        [first, second] => Some((first, second)),
        _ => None,
    }
}

/// The items of an array of two.
#[tactic(auto, unfolding(crate::specs::Values::two))]
pub fn read_pair(value: &Value) -> Result<(&Value, &Value), JsonError>
    ensures { Gives (λ p. (view p.0.now, view p.1.now)) result (two (view value.now)) }
{
    match pair(read_items(value)?) {
        Some(items) => Ok(items),
        None => Err(JsonError::Wrong),
    }
}

/// The items of an array.
pub fn read_items(value: &Value) -> Result<&[Value], JsonError>
    ensures { Gives (λ s. items_view s.now) result (as_array (view value.now)) }
{
    match value.as_array() {
        Some(items) => Ok(items),
        None => Err(JsonError::Wrong),
    }
}

/// The value at a key.
pub fn value_at<'v>(value: &'v Value, key: &str) -> Result<&'v Value, JsonError>
    ensures { Gives (λ v. view v.now) result (get key.now (view value.now)) }
{
    match value.get(key) {
        Some(inner) => Ok(inner),
        None => Err(JsonError::Wrong),
    }
}

/// A flag.
pub fn read_flag(value: &Value) -> Result<bool, JsonError>
    ensures { Gives (λ b. b) result (as_bool (view value.now)) }
{
    match value.as_bool() {
        Some(flag) => Ok(flag),
        None => Err(JsonError::Wrong),
    }
}

/// The flag at a key.
#[tactic(auto, unfolding(crate::specs::Values::at))]
pub fn flag_at(value: &Value, key: &str) -> Result<bool, JsonError>
    ensures { Gives (λ b. b) result (at as_bool key.now (view value.now)) }
{
    read_flag(value_at(value, key)?)
}

/// A whole number of 64 bits.
pub fn read_u64(value: &Value) -> Result<u64, JsonError>
    ensures { Gives (λ n. n) result (whole (view value.now)) }
{
    match value.as_u64() {
        Some(number) => Ok(number),
        None => Err(JsonError::Wrong),
    }
}

/// A whole number of 32 bits.
#[tactic(auto, unfolding(crate::specs::Values::whole_below))]
pub fn read_u32(value: &Value) -> Result<u32, JsonError>
    ensures { Gives (λ n. n) result (whole_below (2 ^ 32) (view value.now)) }
{
    let number = read_u64(value)?;
    if number > u32::MAX as u64 {
        return Err(JsonError::Wrong);
    }
    Ok(number as u32)
}

#[tactic(auto, unfolding(crate::specs::Values::whole_below))]
fn read_u16(value: &Value) -> Result<u16, JsonError>
    ensures { Gives (λ n. n) result (whole_below (2 ^ 16) (view value.now)) }
{
    let number = read_u64(value)?;
    if number > u16::MAX as u64 {
        return Err(JsonError::Wrong);
    }
    Ok(number as u16)
}

/// The whole number of 64 bits at a key.
#[tactic(auto, unfolding(crate::specs::Values::at))]
pub fn u64_at(value: &Value, key: &str) -> Result<u64, JsonError>
    ensures { Gives (λ n. n) result (at whole key.now (view value.now)) }
{
    read_u64(value_at(value, key)?)
}

/// The whole number of 32 bits at a key.
#[tactic(auto, unfolding(crate::specs::Values::at))]
pub fn u32_at(value: &Value, key: &str) -> Result<u32, JsonError>
    ensures { Gives (λ n. n) result (at (whole_below (2 ^ 32)) key.now (view value.now)) }
{
    read_u32(value_at(value, key)?)
}

/// The whole number of 16 bits at a key.
#[tactic(auto, unfolding(crate::specs::Values::at))]
pub fn u16_at(value: &Value, key: &str) -> Result<u16, JsonError>
    ensures { Gives (λ n. n) result (at (whole_below (2 ^ 16)) key.now (view value.now)) }
{
    read_u16(value_at(value, key)?)
}

/// A number or null.
#[tactic(auto, unfolding(crate::specs::Values::or_null))]
fn read_optional(value: &Value) -> Result<Option<u64>, JsonError>
    ensures { Gives (λ o. o) result (or_null whole (view value.now)) }
{
    match value {
        Value::Null => Ok(None),
        Value::Bool(_) | Value::Number(_) | Value::String(_) | Value::Array(_) | Value::Object(_) =>
            Ok(Some(read_u64(value)?)),
    }
}

/// The whole number of 64 bits, or null, at a key.
#[tactic(auto, unfolding(crate::specs::Values::at))]
pub fn optional_at(value: &Value, key: &str) -> Result<Option<u64>, JsonError>
    ensures { Gives (λ o. o) result (at (or_null whole) key.now (view value.now)) }
{
    read_optional(value_at(value, key)?)
}

/// A text.
pub fn read_text(alloc: Global, value: &Value) -> Result<Text, JsonError>
    ensures { Gives (λ t. t) result (as_str (view value.now)) }
{
    match value.as_str() {
        Some(text) => Ok(Text::from_str(alloc, text)?),
        None => Err(JsonError::Wrong),
    }
}
