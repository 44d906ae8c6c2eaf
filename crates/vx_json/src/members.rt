//! Objects by their keys.

ghost use Rattle.std.specs.Prelude.{◌≡◌, ◌≤◌, ◌∷◌, [], is_some, option_map};
ghost use Rattle.serde_json.specs.Find.{get_member};
ghost use Rattle.serde_json.specs.View.{view, members_view, items_view};
ghost use Rattle.vx_json.specs.Members.{one_if, has_keys, text_in, array_in, object_in, number_in};
ghost use Rattle.vx_json.specs.Views.{Gives};

use crate::error::JsonError;
use crate::values::read_text;
use serde_json::{Map, Value};
use std::alloc::Global;
use vx_model::Text;

/// The value at the key.
pub fn member<'v>(members: &'v Map<String, Value>, key: &str) -> Option<&'v Value>
    ensures { option_map (λ v. view v.now) result ≡ get_member key.now (members_view members.now.entries) }
{
    members.get(key)
}

fn has_key(members: &Map<String, Value>, key: &str) -> bool
    ensures { result ≡ is_some (get_member key.now (members_view members.now.entries)) }
{
    member(members, key).is_some()
}

/// How often the key is there.
pub fn count(members: &Map<String, Value>, key: &str) -> usize
    ensures count { result ≡ one_if (is_some (get_member key.now (members_view members.now.entries))) }
    ensures small { result ≤ 1 }
{
    match member(members, key) {
        Some(_) => 1,
        None => 0,
    }
}

/// Whether this is the only key.
#[tactic(auto, using(crate::proofs::Parts::part_rules))]
pub fn has_one(members: &Map<String, Value>, key: &str) -> bool
    ensures { result ≡ has_keys (key.now ∷ []) (members_view members.now.entries) }
{
    members.len() == 1 && has_key(members, key)
}

/// Whether these two, which differ, are the keys.
#[tactic(auto, using(crate::proofs::Parts::part_rules))]
pub fn has_two(members: &Map<String, Value>, first: &str, second: &str) -> bool
    ensures { result ≡ has_keys (first.now ∷ second.now ∷ []) (members_view members.now.entries) }
{
    members.len() == 2 && has_key(members, first) && has_key(members, second)
}

/// Whether these three, which differ, are the keys.
#[tactic(auto, using(crate::proofs::Parts::part_rules))]
pub fn has_three(members: &Map<String, Value>, first: &str, second: &str, third: &str) -> bool
    ensures { result ≡ has_keys (first.now ∷ second.now ∷ third.now ∷ []) (members_view members.now.entries) }
{
    members.len() == 3
        && has_key(members, first)
        && has_key(members, second)
        && has_key(members, third)
}

/// The list at the key.
pub fn array_at<'v>(members: &'v Map<String, Value>, key: &str) -> Option<&'v Vec<Value>>
    ensures { option_map (λ v. items_view v.now.items) result ≡ array_in key.now (members_view members.now.entries) }
{
    match member(members, key) {
        Some(value) => value.as_array(),
        None => None,
    }
}

/// The object at the key.
pub fn object_at<'v>(members: &'v Map<String, Value>, key: &str) -> Option<&'v Map<String, Value>>
    ensures { option_map (λ m. members_view m.now.entries) result ≡ object_in key.now (members_view members.now.entries) }
{
    match member(members, key) {
        Some(value) => value.as_object(),
        None => None,
    }
}

/// The whole number of 64 bits at the key.
pub fn number_at(members: &Map<String, Value>, key: &str) -> Option<u64>
    ensures { result ≡ number_in key.now (members_view members.now.entries) }
{
    match member(members, key) {
        Some(value) => value.as_u64(),
        None => None,
    }
}

/// The text at the key.
pub fn read_text_at(
    alloc: Global,
    members: &Map<String, Value>,
    key: &str,
) -> Result<Text, JsonError>
    ensures { Gives (λ t. t) result (text_in key.now (members_view members.now.entries)) }
{
    match member(members, key) {
        Some(value) => read_text(alloc, value),
        None => Err(JsonError::Wrong),
    }
}
