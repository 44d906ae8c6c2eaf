//! Strategies of all kinds, with those that they hold.

ghost use Rattle.std.specs.Prelude.{◌≡◌, map, option_map, codes};
ghost use Rattle.serde_json.specs.Find.{as_str};
ghost use Rattle.serde_json.specs.View.{view};
ghost use Rattle.vx_strategy.specs.PairWays.{named_way, path_way};
ghost use Rattle.vx_strategy.specs.StrategyView.{strategy_data};
ghost use Rattle.vx_strategy_spec.specs.StrategyData.{chunked, grouped, into_one};
ghost use Rattle.vx_json.specs.Values.{all, at, both_at as both_in, or_null, pair};
ghost use Rattle.vx_strategy_json.specs.Forms.{form, kind_of, repartition_of, buffered_of, compress_of, zoned_of, dict_form, list_of, struct_of, table_of, kind_of_wrap, zoned_around, wrap_of as wrap_form};
ghost use Rattle.vx_strategy_json.specs.StrategyText.{strategy_of, wrap_of};
ghost use Rattle.vx_strategy_json.specs.Views.{Gives, wrap, list_wraps};

use crate::error::StrategyError;
use crate::made::{
    boxed, in_blocks, in_bytes, in_images, in_zones, listed, with_codes, with_fields,
    with_overrides,
};
use crate::options::{
    read_blocks, read_buffered_around, read_dict, read_flat, read_grouped_around, read_zones,
};
use serde_json::Value;
use std::alloc::Global;
use vx_field_path::FieldPath;
use vx_json::{
    has_members, only_member, read_items, read_pair, read_text, read_texts, u32_at, u64_at,
    value_at,
};
use vx_model::Text;
use vx_strategy::{
    ChunkedLayoutStrategy, CollectStrategy, DictLayoutOptions, FlatLayoutStrategy, ListWrapper,
    Strategy,
};

/// The strategy that the value stands for: an object of one member, whose key is the kind, or `"flat"`. All keys of a
/// kind are required, and no others are allowed.
#[cycle(strategy)]
#[tactic(auto, using(crate::proofs::Steps::form_rules))]
pub fn read_strategy(alloc: Global, value: &Value) -> Result<Strategy, StrategyError>
    ensures { Gives strategy_data result (strategy_of (view value.now)) }
{
    read_form(alloc, value)
}

#[cycle(strategy)]
#[tactic(auto, using(crate::proofs::Steps::form_rules), unfolding(crate::specs::Forms::form))]
fn read_form(alloc: Global, value: &Value) -> Result<Strategy, StrategyError>
    ensures { Gives strategy_data result (form strategy_of (view value.now)) }
{
    match value {
        Value::String(text) => if text.as_str() == "flat" {
            Ok(FlatLayoutStrategy::default().into_strategy())
        } else {
            Err(StrategyError::Wrong)
        },
        Value::Object(_) => match only_member(value) {
            Some((kind, inner)) => read_kind(alloc, kind, inner),
            None => Err(StrategyError::Wrong),
        },
        Value::Null | Value::Bool(_) | Value::Number(_) | Value::Array(_) => Err(
            StrategyError::Wrong,
        ),
    }
}

#[cycle(strategy)]
#[tactic(auto, using(crate::proofs::Steps::form_rules), unfolding(crate::specs::Forms::kind_of))]
fn read_kind(alloc: Global, kind: &str, value: &Value) -> Result<Strategy, StrategyError>
    ensures { Gives strategy_data result (kind_of strategy_of (kind.now, view value.now)) }
{
    match kind {
        "flat" => Ok(read_flat(value)?.into_strategy()),
        "chunked" => read_chunked(alloc, value),
        "collect" => read_collect(alloc, value),
        "struct" => read_struct(alloc, value),
        "list" => read_list(alloc, value),
        "dict" => read_dictionary(alloc, value),
        "zoned" => read_zoned(alloc, value),
        "repartition" => read_repartition(alloc, value),
        "buffered" => read_buffered(alloc, value),
        "compress" => read_compress(alloc, value),
        "table" => read_table(alloc, value),
        _ => Err(StrategyError::Wrong),
    }
}

#[cycle(strategy)]
#[tactic(auto, using(crate::proofs::Steps::form_rules))]
fn read_chunked(alloc: Global, value: &Value) -> Result<Strategy, StrategyError>
    ensures { Gives strategy_data result (option_map chunked (strategy_of (view value.now))) }
{
    let child = read_strategy(alloc, value)?;
    Ok(ChunkedLayoutStrategy::new(alloc, child)?.into_strategy())
}

#[cycle(strategy)]
#[tactic(auto, using(crate::proofs::Steps::form_rules))]
fn read_collect(alloc: Global, value: &Value) -> Result<Strategy, StrategyError>
    ensures { Gives strategy_data result (option_map (grouped into_one) (strategy_of (view value.now))) }
{
    let child = read_strategy(alloc, value)?;
    Ok(CollectStrategy::new(alloc, child)?.into_strategy())
}

#[cycle(strategy)]
#[tactic(auto, using(crate::proofs::Steps::form_rules), unfolding(vx_json::specs::Values::at))]
fn strategy_at(alloc: Global, value: &Value, key: &str) -> Result<Box<Strategy>, StrategyError>
    ensures { Gives (λ b. strategy_data b.value) result (at strategy_of key.now (view value.now)) }
{
    let strategy = read_strategy(alloc, value_at(value, key)?)?;
    boxed(alloc, strategy)
}

#[cycle(strategy)]
#[tactic(auto, using(crate::proofs::Steps::form_rules), unfolding(vx_json::specs::Values::both_at))]
fn both_at(
    alloc: Global,
    value: &Value,
    first: &str,
    second: &str,
) -> Result<(Box<Strategy>, Box<Strategy>), StrategyError>
    ensures { Gives (λ p. (strategy_data p.0.value, strategy_data p.1.value)) result (both_in strategy_of first.now second.now (view value.now)) }
{
    let one = strategy_at(alloc, value, first)?;
    match strategy_at(alloc, value, second) {
        Ok(other) => Ok((one, other)),
        Err(error) => {
            drop(one);
            Err(error)
        }
    }
}

#[cycle(strategy)]
#[tactic(auto, using(crate::proofs::Steps::form_rules), unfolding(crate::specs::Forms::repartition_of))]
fn read_repartition(alloc: Global, value: &Value) -> Result<Strategy, StrategyError>
    ensures { Gives strategy_data result (repartition_of strategy_of (view value.now)) }
{
    if !has_members(value, 5) {
        return Err(StrategyError::Wrong);
    }
    let options = read_blocks(value)?;
    let child = strategy_at(alloc, value, "child")?;
    in_blocks(alloc, options, child)
}

#[cycle(strategy)]
#[tactic(auto, using(crate::proofs::Steps::form_rules), unfolding(crate::specs::Forms::buffered_of))]
fn read_buffered(alloc: Global, value: &Value) -> Result<Strategy, StrategyError>
    ensures { Gives strategy_data result (buffered_of strategy_of (view value.now)) }
{
    if !has_members(value, 2) {
        return Err(StrategyError::Wrong);
    }
    let child = strategy_at(alloc, value, "child")?;
    match u64_at(value, "size") {
        Ok(size) => in_bytes(alloc, child, size),
        Err(error) => {
            drop(child);
            Err(StrategyError::from(error))
        }
    }
}

#[cycle(strategy)]
#[tactic(auto, using(crate::proofs::Steps::form_rules), unfolding(crate::specs::Forms::compress_of))]
fn read_compress(alloc: Global, value: &Value) -> Result<Strategy, StrategyError>
    ensures { Gives strategy_data result (compress_of strategy_of (view value.now)) }
{
    if !has_members(value, 3) {
        return Err(StrategyError::Wrong);
    }
    let child = strategy_at(alloc, value, "child")?;
    match (u32_at(value, "which"), u64_at(value, "concurrency")) {
        (Ok(which), Ok(concurrency)) => in_images(alloc, child, which, concurrency),
        (Err(error), _) => {
            drop(child);
            Err(StrategyError::from(error))
        }
        (Ok(_), Err(error)) => {
            drop(child);
            Err(StrategyError::from(error))
        }
    }
}

#[cycle(strategy)]
#[tactic(auto, using(crate::proofs::Steps::form_rules), unfolding(crate::specs::Forms::zoned_of))]
fn read_zoned(alloc: Global, value: &Value) -> Result<Strategy, StrategyError>
    ensures { Gives strategy_data result (zoned_of strategy_of (view value.now)) }
{
    if !has_members(value, 5) {
        return Err(StrategyError::Wrong);
    }
    let options = read_zones(alloc, value)?;
    let (child, stats) = both_at(alloc, value, "child", "stats")?;
    in_zones(alloc, options, child, stats)
}

#[cycle(strategy)]
#[tactic(auto, using(crate::proofs::Steps::form_rules), unfolding(crate::specs::Forms::dict_form))]
fn read_dictionary(alloc: Global, value: &Value) -> Result<Strategy, StrategyError>
    ensures { Gives strategy_data result (dict_form strategy_of (view value.now)) }
{
    if !has_members(value, 6) {
        return Err(StrategyError::Wrong);
    }
    let (constraints, probe) = read_dict(value)?;
    let (codes, values) = both_at(alloc, value, "codes", "values")?;
    let options = DictLayoutOptions { constraints };
    match strategy_at(alloc, value, "fallback") {
        Ok(fallback) => with_codes(alloc, options, probe, codes, values, fallback),
        Err(error) => {
            drop((codes, values));
            Err(error)
        }
    }
}

#[cycle(strategy)]
#[tactic(auto, using(crate::proofs::Steps::form_rules), unfolding(crate::specs::Forms::list_of))]
fn read_list(alloc: Global, value: &Value) -> Result<Strategy, StrategyError>
    ensures { Gives strategy_data result (list_of strategy_of (view value.now)) }
{
    if !has_members(value, 4) {
        return Err(StrategyError::Wrong);
    }
    let (elements, offsets) = both_at(alloc, value, "elements", "offsets")?;
    match both_at(alloc, value, "validity", "fallback") {
        Ok((validity, fallback)) => listed(alloc, elements, offsets, validity, fallback),
        Err(error) => {
            drop((elements, offsets));
            Err(error)
        }
    }
}

#[cycle(strategy)]
#[tactic(auto, using(crate::proofs::Steps::form_rules), unfolding(crate::specs::Forms::struct_of))]
fn read_struct(alloc: Global, value: &Value) -> Result<Strategy, StrategyError>
    ensures { Gives strategy_data result (struct_of strategy_of (view value.now)) }
{
    if !has_members(value, 3) {
        return Err(StrategyError::Wrong);
    }
    let (validity, default) = both_at(alloc, value, "validity", "default")?;
    match fields_at(alloc, value) {
        Ok(fields) => with_fields(alloc, validity, default, fields),
        Err(error) => {
            drop((validity, default));
            Err(error)
        }
    }
}

#[cycle(strategy)]
#[tactic(auto, using(crate::proofs::Steps::form_rules), unfolding(vx_json::specs::Values::at))]
fn fields_at(alloc: Global, value: &Value) -> Result<Vec<(Text, Strategy)>, StrategyError>
    ensures { Gives (λ v. map named_way v.items) result (at (all (pair as_str strategy_of)) (codes "fields") (view value.now)) }
{
    read_fields(alloc, value_at(value, "fields")?)
}

#[cycle(strategy)]
#[tactic(auto, using(crate::proofs::Steps::form_rules), unfolding(vx_json::specs::Values::at))]
fn overrides_at(alloc: Global, value: &Value) -> Result<Vec<(FieldPath, Strategy)>, StrategyError>
    ensures { Gives (λ v. map path_way v.items) result (at (all (pair (all as_str) strategy_of)) (codes "overrides") (view value.now)) }
{
    read_overrides(alloc, value_at(value, "overrides")?)
}

#[cycle(strategy)]
#[tactic(auto, using(crate::proofs::Steps::form_rules), unfolding(vx_json::specs::Values::at))]
fn lists_at(alloc: Global, value: &Value) -> Result<Option<Vec<ListWrapper>>, StrategyError>
    ensures { Gives list_wraps result (at (or_null (all (wrap_form strategy_of))) (codes "lists") (view value.now)) }
{
    read_lists(alloc, value_at(value, "lists")?)
}

#[cycle(strategy)]
#[tactic(auto, using(crate::proofs::Steps::list_rules), unfolding(vx_json::specs::Values::all))]
fn read_fields(alloc: Global, value: &Value) -> Result<Vec<(Text, Strategy)>, StrategyError>
    ensures { Gives (λ v. map named_way v.items) result (all (pair as_str strategy_of) (view value.now)) }
{
    let items = read_items(value)?;
    let mut fields = Vec::with_capacity(alloc, items.len())?;
    for item in items {
        fields.push(read_field(alloc, item)?)?;
    }
    Ok(fields)
}

#[cycle(strategy)]
#[tactic(auto, using(crate::proofs::Steps::form_rules), unfolding(vx_json::specs::Values::pair))]
fn read_field(alloc: Global, value: &Value) -> Result<(Text, Strategy), StrategyError>
    ensures { Gives named_way result (pair as_str strategy_of (view value.now)) }
{
    let (name, writer) = read_pair(value)?;
    let name = read_text(alloc, name)?;
    Ok((name, read_strategy(alloc, writer)?))
}

#[cycle(strategy)]
#[tactic(auto, using(crate::proofs::Steps::form_rules), unfolding(crate::specs::Forms::table_of))]
fn read_table(alloc: Global, value: &Value) -> Result<Strategy, StrategyError>
    ensures { Gives strategy_data result (table_of strategy_of (view value.now)) }
{
    if !has_members(value, 4) {
        return Err(StrategyError::Wrong);
    }
    let (validity, leaf) = both_at(alloc, value, "validity", "leaf")?;
    match overrides_at(alloc, value) {
        Ok(overrides) => match lists_at(alloc, value) {
            Ok(lists) => with_overrides(alloc, validity, leaf, overrides, lists),
            Err(error) => {
                drop((validity, leaf, overrides));
                Err(error)
            }
        },
        Err(error) => {
            drop((validity, leaf));
            Err(error)
        }
    }
}

#[cycle(strategy)]
#[tactic(auto, using(crate::proofs::Steps::list_rules), unfolding(vx_json::specs::Values::all))]
fn read_overrides(alloc: Global, value: &Value) -> Result<Vec<(FieldPath, Strategy)>, StrategyError>
    ensures { Gives (λ v. map path_way v.items) result (all (pair (all as_str) strategy_of) (view value.now)) }
{
    let items = read_items(value)?;
    let mut overrides = Vec::with_capacity(alloc, items.len())?;
    for item in items {
        overrides.push(read_override(alloc, item)?)?;
    }
    Ok(overrides)
}

#[cycle(strategy)]
#[tactic(auto, using(crate::proofs::Steps::form_rules), unfolding(vx_json::specs::Values::pair))]
fn read_override(alloc: Global, value: &Value) -> Result<(FieldPath, Strategy), StrategyError>
    ensures { Gives path_way result (pair (all as_str) strategy_of (view value.now)) }
{
    let (path, writer) = read_pair(value)?;
    let path = FieldPath::from(read_texts(alloc, path)?);
    Ok((path, read_strategy(alloc, writer)?))
}

/// Wrappers, or null.
#[cycle(strategy)]
#[tactic(auto, using(crate::proofs::Steps::form_rules), unfolding(vx_json::specs::Values::or_null))]
fn read_lists(alloc: Global, value: &Value) -> Result<Option<Vec<ListWrapper>>, StrategyError>
    ensures { Gives list_wraps result (or_null (all (wrap_form strategy_of)) (view value.now)) }
{
    match value {
        Value::Null => Ok(None),
        Value::Bool(_) | Value::Number(_) | Value::String(_) | Value::Array(_) | Value::Object(_) =>
            Ok(Some(read_wraps(alloc, value)?)),
    }
}

#[cycle(strategy)]
#[tactic(auto, using(crate::proofs::Steps::list_rules), unfolding(vx_json::specs::Values::all))]
fn read_wraps(alloc: Global, value: &Value) -> Result<Vec<ListWrapper>, StrategyError>
    ensures { Gives (λ v. map wrap v.items) result (all (wrap_form strategy_of) (view value.now)) }
{
    let items = read_items(value)?;
    let mut wraps = Vec::with_capacity(alloc, items.len())?;
    for item in items {
        wraps.push(read_wrap(alloc, item)?)?;
    }
    Ok(wraps)
}

/// What wraps a list layout: an object of one member, whose key is the kind. The constructors that may refuse it are
/// asked where it is used.
#[cycle(strategy)]
#[tactic(auto, using(crate::proofs::Steps::form_rules), unfolding(crate::specs::Forms::wrap_of))]
pub fn read_wrap(alloc: Global, value: &Value) -> Result<ListWrapper, StrategyError>
    ensures { Gives wrap result (wrap_of (view value.now)) }
{
    match only_member(value) {
        Some((kind, inner)) => read_wrap_kind(alloc, kind, inner),
        None => Err(StrategyError::Wrong),
    }
}

#[cycle(strategy)]
#[tactic(auto, using(crate::proofs::Steps::form_rules), unfolding(crate::specs::Forms::kind_of_wrap))]
fn read_wrap_kind(alloc: Global, kind: &str, value: &Value) -> Result<ListWrapper, StrategyError>
    ensures { Gives wrap result (kind_of_wrap strategy_of (kind.now, view value.now)) }
{
    match kind {
        "repartition" => Ok(read_grouped_around(value)?),
        "buffered" => Ok(read_buffered_around(value)?),
        "zoned" => read_zoned_around(alloc, value),
        _ => Err(StrategyError::Wrong),
    }
}

#[cycle(strategy)]
#[tactic(auto, using(crate::proofs::Steps::form_rules), unfolding(crate::specs::Forms::zoned_around))]
fn read_zoned_around(alloc: Global, value: &Value) -> Result<ListWrapper, StrategyError>
    ensures { Gives wrap result (zoned_around strategy_of (view value.now)) }
{
    if !has_members(value, 4) {
        return Err(StrategyError::Wrong);
    }
    let options = read_zones(alloc, value)?;
    let stats = strategy_at(alloc, value, "stats")?;
    Ok(ListWrapper::Zoned(Box::into_inner(stats), options))
}
